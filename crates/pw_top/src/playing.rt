//! Runs the plan of a script.
#![tactic(auto, using(crate::proofs::AllowedLemmas::parts))]

ghost use Rattle.std.specs.Prelude.{◌≡◌, ◌≤◌, All, IfOk, OnErr, false, length};
ghost use Rattle.ready_queues.specs.Lanes.{loops_limit};
ghost use Rattle.cycle_model.specs.Rendering.{rendered_sinks, rendered_peaks};
ghost use Rattle.graph_run.specs.PlanRun.{IsRunOf};
ghost use Rattle.pw_top.specs.Crews.{seat_in, seats_beside};
ghost use Rattle.pw_top.specs.Playing.{happened, HasRun};
ghost use Rattle.pw_top.specs.working.Playable.{IsPlayable};
ghost use Rattle.pw_top.specs.PlannedWork.{rendered};

use crate::planned::Planned;
use crate::played::Played;
use board_rule::Closed;
use graph_run::run_plan;
use pw_lists::{Items, Memory};
use pw_outside::{Gate, Ticker};
use std::alloc::Global;
use std::sync::Wait;
use std::thread::Threads;
use steal_loops::run_stealing;
use wav_files::Outcome;

/// Who runs a plan beside the driver's thread: `loops` loops, each with the nodes that name it, or
/// with `steal` loops that each run any node.
#[derive(Clone, Copy, Drop)]
pub struct Crew {
    pub loops: u32,
    pub steal: bool,
}

// A run of a plan by a crew, no loop of which is adopted.
fn run_by<R: Threads + Wait + Sync, G: Gate + Sync, K: Ticker>(
    rt: &R,
    alloc: Global,
    planned: &Planned,
    crew: Crew,
    adopt: &[bool],
    gate: &G,
    ticker: &mut K,
) -> Result<(Outcome, Items<Closed>), Memory>
    requires planned { IsPlayable planned.now }
    requires few { crew.loops ≤ loops_limit }
    requires adopt { length adopt.now ≡ crew.loops }
    requires none { All (λ b. b ≡ false) adopt.now }
    ensures sinks { IfOk result
        (λ r. r.0.sinks ≡ rendered_sinks planned.now.plan planned.now.waves) }
    ensures peaks { IfOk result
        (λ r. r.0.peaks ≡ rendered_peaks planned.now.plan planned.now.waves) }
    ensures run { IfOk result (λ r. IsRunOf planned.now.plan planned.now.waves
        (seat_in planned.now.plan crew) (seats_beside planned.now.plan crew)
        r.0.history r.1 (K.ticks ticker.old) (K.ticks ticker.new)) }
    ensures later { K.ticks ticker.old ≤ K.ticks ticker.new }
{
    let plan = &planned.plan;
    let waves = &planned.waves;
    if crew.steal {
        run_stealing(rt, alloc, plan, waves, crew.loops, adopt, gate, ticker)
    } else {
        run_plan(rt, alloc, plan, waves, crew.loops, adopt, gate, ticker)
    }
}

/// Runs a plan, no loop of which is adopted. What happened is left in `played`. It may wait.
pub fn run_planned<R: Threads + Wait + Sync, G: Gate + Sync, K: Ticker>(
    rt: &R,
    alloc: Global,
    planned: &Planned,
    crew: Crew,
    gate: &G,
    ticker: &mut K,
    played: &mut Played,
) -> Result<Outcome, Memory>
    requires planned { IsPlayable planned.now }
    requires few { crew.loops ≤ loops_limit }
    ensures outcome { IfOk result (λ o. o ≡ rendered planned.now.plan planned.now.waves) }
    ensures run { IfOk result (λ o. HasRun planned.now.plan planned.now.waves crew
        (happened played.new (K.ticks ticker.old) (K.ticks ticker.new))) }
    ensures none { OnErr result (played.new ≡ played.old) }
    ensures later { K.ticks ticker.old ≤ K.ticks ticker.new }
{
    let adopt = Items::filled(alloc, crew.loops as usize, false)?;
    match run_by(rt, alloc, planned, crew, adopt.as_slice(), gate, ticker) {
        Err(memory) => Err(memory),
        Ok(
            (
                Outcome {
                    history,
                    sinks,
                    peaks,
                },
                closed,
            ),
        ) => {
            played.history = history;
            played.closed = closed;
            Ok(Outcome {
                history: Items::new(alloc),
                sinks,
                peaks,
            })
        }
    }
}
