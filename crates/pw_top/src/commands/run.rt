//! `run SCRIPT`: the script is loaded and read, then the files that its lines name; then its plan
//! is run.
#![tactic(auto, using(crate::proofs::AllowedLemmas::parts))]

ghost use Rattle.std.specs.Prelude.{◌≡◌, ◌≤◌, None, IsSome, OnOk};
ghost use Rattle.ready_queues.specs.Lanes.{loops_limit};
ghost use Rattle.pw_outside.specs.Files.{names_in};
ghost use Rattle.command_frame.specs.Preparing.{LoadsOnly};
ghost use Rattle.pw_top.specs.working.Ending.{CommandCause, IsDeliverable};
ghost use Rattle.pw_top.specs.working.Playable.{IsPlayable};
ghost use Rattle.pw_top.specs.PlannedWork.{PlaysPlan};
ghost use Rattle.pw_top.specs.Playing.{happened, HasNothing, Plays, TellsPlay};
ghost use Rattle.pw_top.specs.Run.{IsRunAnswer};
ghost use Rattle.pw_top.specs.RunFound.{IsFoundOfPlan, IsFoundByRun};
ghost use Rattle.pw_top.specs.ScriptFound.{end_of, IsScriptUnder};

use crate::plan_work::plan_work;
use crate::planned::{Planned, plan_file};
use crate::played::Played;
use crate::playing::{Crew, run_planned};
use pw_lists::Text;
use pw_outside::{Files, Gate, Ticker};
use run_results::{Found, Status, What, Work};
use std::alloc::Global;
use std::sync::Wait;
use std::thread::Threads;

/// Runs the script of a file by a crew of loops. A late check is due after each `ticks` asks, or
/// never where it is 0. With `trace` the text has the events.
#[derive(Drop)]
pub struct Running {
    pub script: Text,
    pub crew: Crew,
    pub ticks: u32,
    pub trace: bool,
}

impl Running {
    // Runs what is planned, and gives its work. What happened is left in `played`, also where
    // memory is short for the work, and what is found in `what`. It may wait.
    fn play_planned<R: Threads + Wait + Sync, G: Gate + Sync, K: Ticker>(
        &self,
        rt: &R,
        alloc: Global,
        planned: Planned,
        gate: &G,
        ticker: &mut K,
        played: &mut Played,
        what: &mut What,
    ) -> Result<Work, Status>
        requires planned { IsPlayable planned }
        requires few { self.now.crew.loops ≤ loops_limit }
        requires none { HasNothing played.old }
        ensures done { Plays (PlaysPlan self.now.crew self.now.trace
            (happened played.new (K.ticks ticker.old) (K.ticks ticker.new)) planned)
            (happened played.new (K.ticks ticker.old) (K.ticks ticker.new)) result }
        ensures what { OnOk result (IsFoundOfPlan planned what.new) }
        ensures cause { CommandCause IsDeliverable 0 0 result }
        ensures later { K.ticks ticker.old ≤ K.ticks ticker.new }
    {
        match run_planned(rt, alloc, &planned, self.crew, gate, ticker, played) {
            Err(_memory) => Err(Status::Memory),
            Ok(outcome) => {
                let history = &played.history;
                match plan_work(alloc, planned, self.trace, history, outcome, what) {
                    Err(_memory) => Err(Status::Memory),
                    Ok(work) => Ok(work),
                }
            }
        }
    }

    /// Loads and plans the script, and runs its plan. What happened is left in `played`, and the
    /// bytes of the script and what is found of its run in `found`. It may wait.
    pub fn play<R: Threads + Wait + Sync, F: Files, G: Gate + Sync, K: Ticker>(
        self,
        rt: &R,
        alloc: Global,
        files: &mut F,
        gate: &G,
        ticker: &mut K,
        played: &mut Played,
        found: &mut Found,
    ) -> Result<Work, Status>
        requires few { self.crew.loops ≤ loops_limit }
        requires none { HasNothing played.old }
        requires unread { found.old.script ≡ None }
        ensures files { LoadsOnly (F.held files.old) (F.held files.new) (F.load_faults files.old)
            (F.load_faults files.new) (F.store_faults files.old) (F.store_faults files.new) }
        ensures told { TellsPlay (F.held files.old) (IsRunAnswer self
            (happened played.new (K.ticks ticker.old) (K.ticks ticker.new)))
            (happened played.new (K.ticks ticker.old) (K.ticks ticker.new)) result }
        ensures source { IsScriptUnder (F.held files.old) self.script (end_of result)
            found.new.script }
        ensures what { OnOk result (IsSome (F.held files.old)
            → IsFoundByRun (names_in (F.held files.old)) self.script found.new.what) }
        ensures cause { CommandCause IsDeliverable (F.load_faults files.old)
            (F.load_faults files.new) result }
        ensures later { K.ticks ticker.old ≤ K.ticks ticker.new }
    {
        match plan_file(alloc, files, &self.script, &mut found.script) {
            Err(status) => Err(status),
            Ok(planned) => {
                self.play_planned(rt, alloc, planned, gate, ticker, played, &mut found.what)
            }
        }
    }
}
