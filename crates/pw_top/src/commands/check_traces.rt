//! `check SCRIPT TRACE`: the script is loaded, read and planned as for `run`, then the trace is
//! loaded, and what is found of it is put as text. The trace is read and followed once: the verdict
//! is the place of the reason.
#![tactic(auto, using(crate::proofs::AllowedLemmas::parts))]

ghost use Rattle.std.specs.Prelude.{◌≡◌, ◌+◌, ◌<◌, ◌≤◌, ◌^◌, map, length, None, IsSome, IfOk, OnOk};
ghost use Rattle.pw_graph.specs.SoundPlan.{IsSoundPlan};
ghost use Rattle.pw_outside.specs.Files.{names_in};
ghost use Rattle.cycle_trace.specs.TraceReading.{AreNames};
ghost use Rattle.command_frame.specs.Preparing.{LoadsOnly};
ghost use Rattle.pw_top.specs.Check.{trace_bytes_limit, finding_text, check_work, ChecksTrace, ChecksPlan, IsCheckAnswer};
ghost use Rattle.pw_top.specs.CheckFound.{event_at, IsFoundIn, IsFoundUnder, IsFoundByCheck};
ghost use Rattle.pw_top.specs.ScriptFound.{end_of, IsScriptUnder};
ghost use Rattle.pw_top.specs.working.Ending.{Ends, CommandCause, IsDeliverable, Tells};
ghost use Rattle.pw_top.specs.working.Playable.{IsPlayable};
ghost use Rattle.pw_top.specs.working.Seen.{IsSeenOn, verdict_by, finding_by, what_by};

use crate::planned::{Planned, plan_file};
use command_frame::load_step;
use cycle_trace::{TraceFault, read_events};
use pw_graph::{Event, Plan};
use pw_lists::{Items, Memory, Text, Which, append_decimal};
use pw_outside::Files;
use run_results::{Found, Status, What, Work};
use std::alloc::Global;
use trace_check::{Finding, Reason, Verdict, reason_of};

/// The place of the trace, which is no line of a script.
const TRACE_PLACE: u32 = u32::MAX;

/// The bytes of a trace, at most.
const TRACE_BYTES: u64 = 268_435_456;

/// Checks the trace of this file against the script of that one.
#[derive(Drop)]
pub struct CheckTrace {
    pub script: Text,
    pub trace: Text,
}

impl CheckTrace {
    /// Makes the loads in order. What is found of the trace, and the bytes of the script, are left
    /// in `found`. It stores and puts nothing.
    pub fn find<F: Files>(
        self,
        alloc: Global,
        files: &mut F,
        found: &mut Found,
    ) -> Result<Work, Status>
        requires unread { found.old.script ≡ None }
        ensures files { LoadsOnly (F.held files.old) (F.held files.new) (F.load_faults files.old)
            (F.load_faults files.new) (F.store_faults files.old) (F.store_faults files.new) }
        ensures told { Tells (F.held files.old)
            (λ names. IsCheckAnswer names self.script self.trace) result }
        ensures source { IsScriptUnder (F.held files.old) self.script (end_of result)
            found.new.script }
        ensures what { OnOk result (IsSome (F.held files.old)
            → IsFoundByCheck (names_in (F.held files.old)) self.script self.trace found.new.what) }
        ensures cause { CommandCause IsDeliverable (F.load_faults files.old)
            (F.load_faults files.new) result }
    {
        match plan_file(alloc, files, &self.script, &mut found.script) {
            Err(status) => Err(status),
            Ok(planned) => check_plan(alloc, files, planned, &self.trace, &mut found.what),
        }
    }
}

/// What is seen of a trace: its first line that is of no event, or why its events are no legal
/// history, if they are none, and the event at that place.
#[derive(Clone, Copy, Drop)]
pub(crate) enum Seen {
    Line(u64),
    Events(Option<Reason>, Option<Event>),
}

// The event at the place of a reason, if there is one.
fn event_at(reason: Option<Reason>, events: &[Event]) -> Option<Event>
    ensures { result ≡ event_at reason events.now }
{
    match reason {
        None => None,
        Some(why) => events.get(why.at.saturating_sub(1) as usize).copied(),
    }
}

// Reads a trace, and follows its events.
fn see(alloc: Global, plan: &Plan, names: &Items<Text>, bytes: &[u8]) -> Result<Seen, Memory>
    requires sound { IsSoundPlan plan.now }
    requires names { AreNames names.now }
    requires few { length bytes.now + 1 < 2 ^ 32 }
    ensures { IfOk result (IsSeenOn names.now (map (λ e. e.shape) plan.now.epochs) bytes.now) }
{
    match read_events(alloc, names, bytes) {
        Err(TraceFault::Line(number)) => Ok(Seen::Line(number)),
        Err(TraceFault::Memory) => Err(Memory),
        Ok(events) => match reason_of(alloc, plan, &events) {
            Ok(reason) => Ok(Seen::Events(reason, event_at(reason, events.as_slice()))),
            Err(memory) => Err(memory),
        },
    }
}

// The verdict, which has the place of the reason.
fn verdict_by(reason: Option<Reason>) -> Verdict
    ensures { result ≡ verdict_by reason }
{
    match reason {
        None => Verdict::Legal,
        Some(why) => Verdict::Illegal { at: why.at },
    }
}

// What the text says of it.
fn finding_by(seen: Seen) -> Finding
    ensures { result ≡ finding_by seen }
{
    match seen {
        Seen::Line(number) => Finding::Line(number),
        Seen::Events(reason, _event) => Finding::Events(verdict_by(reason)),
    }
}

// What is said of it beside the text, with the names of the nodes.
fn what_by(names: Items<Text>, seen: Seen) -> What
    ensures { result ≡ what_by names seen }
{
    match seen {
        Seen::Line(number) => What::NoEvent { number },
        Seen::Events(reason, event) => What::Check {
            names,
            reason,
            event,
        },
    }
}

// The line that says what is found.
fn finding_text(alloc: Global, found: Finding) -> Result<Text, Memory>
    ensures { IfOk result (λ text. text ≡ finding_text found) }
{
    let mut text = Items::new(alloc);
    match found {
        Finding::Line(number) => {
            text.extend(b"line ".as_slice())?;
            append_decimal(&mut text, number)?;
        }
        Finding::Events(Verdict::Legal) => text.extend(b"legal".as_slice())?,
        Finding::Events(Verdict::Illegal { at }) => {
            text.extend(b"illegal ".as_slice())?;
            append_decimal(&mut text, u64::from(at))?;
        }
    }
    text.push(b'\n')?;
    Ok(text)
}

// The text of what is found, and nothing to store.
fn check_work(alloc: Global, found: Finding) -> Result<Work, Memory>
    ensures { IfOk result (λ work. work ≡ check_work found) }
{
    let text = finding_text(alloc, found)?;
    Ok(Work {
        stores: Items::new(alloc),
        text,
    })
}

// What a trace gives once it is loaded.
fn check_bytes(
    alloc: Global,
    names: Items<Text>,
    plan: &Plan,
    bytes: &Items<u8>,
    what: &mut What,
) -> Result<Work, Status>
    requires sound { IsSoundPlan plan.now }
    requires names { AreNames names }
    requires small { length bytes.now ≤ trace_bytes_limit }
    ensures done { Ends (ChecksTrace names plan.now bytes.now) result }
    ensures what { OnOk result (IsFoundIn names (map (λ e. e.shape) plan.now.epochs)
        bytes.now what.new) }
    ensures cause { CommandCause IsDeliverable 0 0 result }
{
    match see(alloc, plan, &names, bytes.as_slice()) {
        Err(_memory) => Err(Status::Memory),
        Ok(seen) => {
            *what = what_by(names, seen);
            match check_work(alloc, finding_by(seen)) {
                Err(_memory) => Err(Status::Memory),
                Ok(work) => Ok(work),
            }
        }
    }
}

// The trace, once the plan is there.
fn check_plan<F: Files>(
    alloc: Global,
    files: &mut F,
    planned: Planned,
    trace: &Text,
    what: &mut What,
) -> Result<Work, Status>
    requires planned { IsPlayable planned }
    requires names { AreNames planned.script.names }
    ensures files { LoadsOnly (F.held files.old) (F.held files.new) (F.load_faults files.old)
        (F.load_faults files.new) (F.store_faults files.old) (F.store_faults files.new) }
    ensures told { Tells (F.held files.old)
        (λ names. ChecksPlan names trace.now planned) result }
    ensures what { OnOk result (IsSome (F.held files.old)
        → IsFoundUnder (names_in (F.held files.old)) trace.now planned what.new) }
    ensures cause { CommandCause IsDeliverable (F.load_faults files.old)
        (F.load_faults files.new) result }
{
    let long = Status::Limit {
        place: TRACE_PLACE,
        which: Which::TraceBytes,
    };
    match load_step(alloc, files, TRACE_PLACE, trace, TRACE_BYTES, long) {
        Err(status) => Err(status),
        Ok(bytes) => {
            let Planned { script, plan, .. } = planned;
            check_bytes(alloc, script.names, &plan, &bytes, what)
        }
    }
}
