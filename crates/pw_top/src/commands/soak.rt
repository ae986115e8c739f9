//! `soak NUMBER`: the graph of the number is made, planned and run, and its line is put.
#![tactic(auto, using(crate::proofs::AllowedLemmas::parts))]

ghost use Rattle.std.specs.Prelude.{◌≡◌, ◌≤◌, IfOk};
ghost use Rattle.pw_top.specs.working.Ending.{Ends, CommandCause, IsDeliverable};
ghost use Rattle.pw_top.specs.working.Playable.{IsPlayable};
ghost use Rattle.pw_top.specs.PlannedWork.{rendered};
ghost use Rattle.pw_top.specs.Playing.{happened, HasNothing, Plays};
ghost use Rattle.pw_top.specs.Soak.{PlansNumber, SoaksPlan, soak_work, IsSoakAnswer};

use crate::planned::{Planned, plan_ports};
use crate::played::Played;
use crate::playing::{Crew, run_planned};
use pw_lists::{Items, Memory};
use pw_outside::{Gate, Ticker};
use run_results::{Status, Work};
use soak_graph::{Generated, generate, soak_line};
use std::alloc::Global;
use std::sync::Wait;
use std::thread::Threads;
use wav_files::Outcome;

/// The loops beside the driver's own.
const LOOPS: u32 = 4;

/// Runs the graph of a number.
#[derive(Drop)]
pub struct Soaking {
    pub number: u32,
}

impl Soaking {
    /// Makes, plans and runs the graph. What happened is left in `played`. It may wait.
    pub fn play<R: Threads + Wait + Sync, G: Gate + Sync, K: Ticker>(
        self,
        rt: &R,
        alloc: Global,
        gate: &G,
        ticker: &mut K,
        played: &mut Played,
    ) -> Result<Work, Status>
        requires none { HasNothing played.old }
        ensures told { Plays (IsSoakAnswer self.number
            (happened played.new (K.ticks ticker.old) (K.ticks ticker.new)))
            (happened played.new (K.ticks ticker.old) (K.ticks ticker.new)) result }
        ensures cause { CommandCause IsDeliverable 0 0 result }
        ensures later { K.ticks ticker.old ≤ K.ticks ticker.new }
    {
        match plan_number(alloc, self.number) {
            Err(status) => Err(status),
            Ok(planned) => { soak_planned(rt, alloc, self.number, &planned, gate, ticker, played) }
        }
    }
}

// What the script of a number is planned to.
fn plan_number(alloc: Global, number: u32) -> Result<Planned, Status>
    ensures done { Ends (PlansNumber number) result }
    ensures cause { CommandCause IsPlayable 0 0 result }
{
    match generate(alloc, number) {
        Err(_memory) => Err(Status::Memory),
        Ok(made) => {
            let Generated {
                script,
                ports,
                waves,
            } = made;
            plan_ports(alloc, script, waves, ports)
        }
    }
}

// The line of what a run has kept, and nothing to store.
fn soak_work(
    alloc: Global,
    number: u32,
    planned: &Planned,
    outcome: &Outcome,
) -> Result<Work, Memory>
    requires planned { IsPlayable planned.now }
    requires outcome { outcome.now ≡ rendered planned.now.plan planned.now.waves }
    ensures { IfOk result (λ work. work ≡ soak_work number planned.now) }
{
    let text = soak_line(alloc, number, &planned.plan, outcome)?;
    Ok(Work {
        stores: Items::new(alloc),
        text,
    })
}

// Runs the plan of a number's script, and gives its line. What happened is left in `played`, also
// where memory is short for the line. It may wait.
fn soak_planned<R: Threads + Wait + Sync, G: Gate + Sync, K: Ticker>(
    rt: &R,
    alloc: Global,
    number: u32,
    planned: &Planned,
    gate: &G,
    ticker: &mut K,
    played: &mut Played,
) -> Result<Work, Status>
    requires planned { IsPlayable planned.now }
    requires none { HasNothing played.old }
    ensures done { Plays
        (SoaksPlan number (happened played.new (K.ticks ticker.old) (K.ticks ticker.new))
        planned.now) (happened played.new (K.ticks ticker.old) (K.ticks ticker.new)) result }
    ensures cause { CommandCause IsDeliverable 0 0 result }
    ensures later { K.ticks ticker.old ≤ K.ticks ticker.new }
{
    let crew = Crew {
        loops: LOOPS,
        steal: false,
    };
    match run_planned(rt, alloc, planned, crew, gate, ticker, played) {
        Err(_memory) => Err(Status::Memory),
        Ok(outcome) => match soak_work(alloc, number, planned, &outcome) {
            Err(_memory) => Err(Status::Memory),
            Ok(work) => Ok(work),
        },
    }
}
