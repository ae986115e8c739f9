//! The verdict on the events of a trace.
ghost use Rattle.std.specs.Prelude.{◌≡◌, ◌<◌, ◌≤◌, ◌+◌, ◌^◌, List, map, length, IfOk};
ghost use Rattle.pw_graph.specs.declared.event.Event.{Event};
ghost use Rattle.pw_graph.specs.declared.shape.Shape.{Shape};
ghost use Rattle.pw_graph.specs.History.{cycles_of};
ghost use Rattle.pw_graph.specs.SoundPlan.{IsSoundPlan};
ghost use Rattle.trace_check.specs.declared.checking.Verdict.{Verdict};
ghost use Rattle.trace_check.specs.FirstIllegal.{IsVerdictOn};
ghost use Rattle.trace_check.specs.working.Progress.{progress_length, IsProgressOf};

use crate::following::{Progress, follow_epochs};
use pw_graph::{Event, Plan};
use pw_lists::{Items, Memory};
use std::alloc::Global;

/// What events are to a plan.
#[derive(Clone, Copy, PartialEq, Eq, Drop)]
pub enum Verdict {
    /// A legal history of its epochs.
    Legal,
    /// No legal history; `at` is the number, from 1, of the first event after which no legal
    /// history can follow, or one past the last event if the trace is only too short.
    Illegal { at: u32 },
}

// What a prefix of the events says of them all.
fn verdict_of(progress: Progress, count: usize) -> Verdict
    requires within { progress_length progress ≤ count }
    requires few { count + 1 < 2 ^ 32 }
    ensures { (shapes : List Shape) (events : List Event) → length events ≡ count
        → IsProgressOf (cycles_of shapes) events progress → IsVerdictOn shapes events result }
{
    match progress {
        Progress::Whole(n) => {
            if n == count {
                Verdict::Legal
            } else {
                Verdict::Illegal { at: (n + 1) as u32 }
            }
        }
        Progress::Part(n, _cause) => Verdict::Illegal { at: (n + 1) as u32 },
    }
}

/// Whether events are a legal history of the epochs of a plan: cycle by cycle Begin, one Start and
/// one Finish of each active node, each Start after the Finish of all that precede the node, at
/// most one Tick before the driver's Start, of followers that have not finished, and End. Takes
/// memory for 64 sets of nodes at a time; cost: one look at each event, and for each epoch one look
/// at each of its links for each of 64 numbers.
pub fn check(alloc: Global, plan: &Plan, events: &Items<Event>) -> Result<Verdict, Memory>
    requires sound { IsSoundPlan plan.now }
    requires few { length events.now + 1 < 2 ^ 32 }
    ensures verdict { IfOk result
        (IsVerdictOn (map (λ e. e.shape) plan.now.epochs) events.now) }

    // There is no other verdict.
    ensures only { (v : Verdict)
        → IsVerdictOn (map (λ e. e.shape) plan.now.epochs) events.now v
        → IfOk result (λ verdict. verdict ≡ v) }
{
    let events = events.as_slice();
    let progress = follow_epochs(alloc, plan.epochs.as_slice(), events)?;
    Ok(verdict_of(progress, events.len()))
}
