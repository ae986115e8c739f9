//! What is found of the text of a trace.
ghost use Rattle.std.specs.Prelude.{◌≡◌, ◌+◌, ◌<◌, ◌^◌, List, map, length, IfOk};
ghost use Rattle.pw_graph.specs.declared.event.Event.{Event};
ghost use Rattle.pw_graph.specs.SoundPlan.{IsSoundPlan};
ghost use Rattle.pw_graph.specs.History.{IsLegalHistory};
ghost use Rattle.cycle_trace.specs.TraceReading.{AreNames};
ghost use Rattle.trace_check.specs.declared.checking.Verdict.TheVariants.{Legal};
ghost use Rattle.trace_check.specs.declared.trace.Finding.{Finding};
ghost use Rattle.trace_check.specs.declared.trace.Finding.TheVariants.{Events};
ghost use Rattle.trace_check.specs.Finding.{IsFindingOn, IsPrinted};

use crate::checking::{Verdict, check};
use cycle_trace::{TraceFault, read_events};
use pw_graph::Plan;
use pw_lists::{Items, Memory, Text};
use std::alloc::Global;

/// What is found of a trace.
#[derive(Clone, Copy, PartialEq, Eq, Drop)]
pub enum Finding {
    /// The first line that is no event line, counted from 1.
    Line(u64),
    /// What its events are to the plan.
    Events(Verdict),
}

// What is found, without what follows from it.
fn find(alloc: Global, plan: &Plan, names: &Items<Text>, bytes: &[u8]) -> Result<Finding, Memory>
    requires sound { IsSoundPlan plan.now }
    requires names { AreNames names.now }
    requires few { length bytes.now + 1 < 2 ^ 32 }
    ensures { IfOk result
        (IsFindingOn names.now (map (λ e. e.shape) plan.now.epochs) bytes.now) }
{
    match read_events(alloc, names, bytes) {
        Err(TraceFault::Line(number)) => Ok(Finding::Line(number)),
        Err(TraceFault::Memory) => Err(Memory),
        Ok(events) => match check(alloc, plan, &events) {
            Ok(verdict) => Ok(Finding::Events(verdict)),
            Err(memory) => Err(memory),
        },
    }
}

/// What is found of a trace: its first line that is no event line, or else whether its events are a
/// legal history of the epochs of a plan, and where not.
///
/// `names` are those of the plan's nodes. A wrong line hides each event before it. Takes memory for
/// the events, and time in proportion to the bytes and the names.
pub fn check_trace(
    alloc: Global,
    plan: &Plan,
    names: &Items<Text>,
    bytes: &[u8],
) -> Result<Finding, Memory>
    requires sound { IsSoundPlan plan.now }
    requires names { AreNames names.now }
    requires few { length bytes.now + 1 < 2 ^ 32 }
    ensures found { IfOk result
        (IsFindingOn names.now (map (λ e. e.shape) plan.now.epochs) bytes.now) }

    // There is no other finding, and what is printed of a legal history is legal.
    ensures only { (f : Finding)
        → IsFindingOn names.now (map (λ e. e.shape) plan.now.epochs) bytes.now f
        → IfOk result (λ found. found ≡ f) }
    ensures printed { (history : List Event)
        → IsLegalHistory (map (λ e. e.shape) plan.now.epochs) history
        → IsPrinted names.now history bytes.now
        → IfOk result (λ found. found ≡ Events Legal) }
{
    find(alloc, plan, names, bytes)
}
