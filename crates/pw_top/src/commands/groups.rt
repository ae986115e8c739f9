//! `groups SCRIPT`: the script is loaded and read, then the files that its lines name; then each of
//! its parts is planned, and all are run at once.
#![tactic(auto, using(crate::proofs::AllowedLemmas::parts))]

ghost use Rattle.std.specs.Prelude.{◌≡◌, ◌≤◌, ℕ, length, None, IsSome, IfOk, OnErr, OnOk};
ghost use Rattle.pw_outside.specs.Files.{names_in};
ghost use Rattle.command_frame.specs.Preparing.{LoadsOnly};
ghost use Rattle.pw_top.specs.working.Ending.{CommandCause, IsDeliverable};
ghost use Rattle.pw_top.specs.Groups.{CanBeGrouped, parts_outcome};
ghost use Rattle.pw_top.specs.GroupsWork.{groups_work, HasGroupsRun, GroupsPlan, IsGroupsAnswer};
ghost use Rattle.pw_top.specs.Playing.{happened, HasNothing, Plays, TellsPlay};
ghost use Rattle.pw_top.specs.RunFound.{parts_found, IsFoundByGroups};
ghost use Rattle.pw_top.specs.ScriptFound.{end_of, IsScriptUnder};

use crate::joined::{all_of, in_order, joined_plan};
use crate::parted::{Parted, parts_file};
use crate::plan_work::sink_stores;
use crate::played::Played;
use cycle_trace::run_text;
use driver_groups::run_parts;
use pw_lists::{Items, Memory, Text};
use pw_outside::{Files, Gate};
use run_results::{Found, Status, What, Work};
use std::alloc::Global;
use std::sync::Wait;
use std::thread::Threads;
use wav_files::Outcome;

/// Runs each part of the script of a file, each by a thread of its own.
#[derive(Drop)]
pub struct Grouping {
    pub script: Text,
}

impl Grouping {
    /// Loads the script and plans its parts, and runs them all. What happened is left in `played`,
    /// and the bytes of the script and what is found of its run in `found`. It may wait. No ticker
    /// is asked, so its count `n` stays.
    pub fn play<R: Threads + Wait + Sync, F: Files, G: Gate + Sync>(
        self,
        rt: &R,
        alloc: Global,
        files: &mut F,
        gate: &G,
        played: &mut Played,
        found: &mut Found,
    ) -> Result<Work, Status>
        requires none { HasNothing played.old }
        requires unread { found.old.script ≡ None }
        ensures files { LoadsOnly (F.held files.old) (F.held files.new) (F.load_faults files.old)
            (F.load_faults files.new) (F.store_faults files.old) (F.store_faults files.new) }
        ensures told { (n : ℕ) → TellsPlay (F.held files.old)
            (IsGroupsAnswer self (happened played.new n n)) (happened played.new n n) result }
        ensures source { IsScriptUnder (F.held files.old) self.script (end_of result)
            found.new.script }
        ensures what { OnOk result (IsSome (F.held files.old)
            → IsFoundByGroups (names_in (F.held files.old)) self.script found.new.what) }
        ensures cause { CommandCause IsDeliverable (F.load_faults files.old)
            (F.load_faults files.new) result }
    {
        match parts_file(alloc, files, &self.script, &mut found.script) {
            Err(status) => Err(status),
            Ok(parted) => play_parts(rt, alloc, parted, gate, played, &mut found.what),
        }
    }
}

// Runs all parts. What happened is left in `played`. It may wait.
fn run_parted<R: Threads + Wait + Sync, G: Gate + Sync>(
    rt: &R,
    alloc: Global,
    parted: &Parted,
    gate: &G,
    played: &mut Played,
) -> Result<Outcome, Memory>
    requires parted { CanBeGrouped parted.now }
    ensures outcome { IfOk result (λ o. o ≡ parts_outcome parted.now) }
    ensures run { IfOk result
        (λ o. (n : ℕ) → HasGroupsRun parted.now (happened played.new n n)) }
    ensures none { OnErr result (played.new ≡ played.old) }
{
    let (outcomes, closed) = run_parts(rt, alloc, &parted.parts.parts, &parted.waves, gate)?;
    let Outcome {
        history,
        sinks,
        peaks,
    } = all_of(alloc, outcomes)?;
    let count = parted.script.names.len() as u32;
    let ordered = in_order(alloc, sinks, peaks.as_slice(), count)?;
    played.history = history;
    played.closed = closed;
    Ok(ordered)
}

// The files of all sinks, and the text. The script, the plan of all parts together and the peaks
// are left in `what`. No refused link is: each part has a driver of its own, and a rehearsal of all
// lines has not.
fn groups_work(
    alloc: Global,
    parted: Parted,
    outcome: Outcome,
    what: &mut What,
) -> Result<Work, Memory>
    requires parted { CanBeGrouped parted }
    requires outcome { outcome ≡ parts_outcome parted }
    ensures work { IfOk result (λ work. work ≡ groups_work parted) }
    ensures what { OnOk result (what.new ≡ parts_found parted) }
{
    let Parted { script, parts, .. } = parted;
    let plan = joined_plan(alloc, &parts, script.names.len() as u32)?;
    let text = run_text(alloc, &plan, None, &outcome)?;
    let Outcome { sinks, peaks, .. } = outcome;
    let stores = sink_stores(alloc, script.lines.as_slice(), sinks)?;
    *what = What::Run {
        script,
        plan,
        peaks,
        refused: Items::new(alloc),
    };
    Ok(Work { stores, text })
}

// Runs all parts, and gives their work. What happened is left in `played`, also where memory is
// short for the work, and what is found in `what`. It may wait.
fn play_parts<R: Threads + Wait + Sync, G: Gate + Sync>(
    rt: &R,
    alloc: Global,
    parted: Parted,
    gate: &G,
    played: &mut Played,
    what: &mut What,
) -> Result<Work, Status>
    requires parted { CanBeGrouped parted }
    requires none { HasNothing played.old }
    ensures done { (n : ℕ) → Plays (GroupsPlan (happened played.new n n) parted)
        (happened played.new n n) result }
    ensures what { OnOk result (what.new ≡ parts_found parted) }
    ensures cause { CommandCause IsDeliverable 0 0 result }
{
    match run_parted(rt, alloc, &parted, gate, played) {
        Err(_memory) => Err(Status::Memory),
        Ok(outcome) => match groups_work(alloc, parted, outcome, what) {
            Err(_memory) => Err(Status::Memory),
            Ok(work) => Ok(work),
        },
    }
}
