//! The reason for which events are no legal history.
ghost use Rattle.std.specs.Prelude.{◌≡◌, ◌<◌, ◌≤◌, ◌+◌, ◌^◌, List, map, length, IfOk};
ghost use Rattle.pw_graph.specs.declared.event.Event.{Event};
ghost use Rattle.pw_graph.specs.declared.shape.Shape.{Shape};
ghost use Rattle.pw_graph.specs.History.{cycles_of};
ghost use Rattle.pw_graph.specs.SoundPlan.{IsSoundPlan};
ghost use Rattle.trace_check.specs.Reasons.{IsReasonOn};
ghost use Rattle.trace_check.specs.working.Progress.{progress_length, IsProgressOf};

use crate::causes::Cause;
use crate::following::{Progress, follow_epochs};
use pw_graph::{Event, Plan};
use pw_lists::{Items, Memory};
use std::alloc::Global;

/// Why events are no legal history.
#[derive(Clone, Copy, PartialEq, Eq, Drop)]
pub struct Reason {
    /// The number of the first illegal event, from 1, or one past the last event.
    pub at: u32,
    /// What is wrong with it, or what is missing.
    pub cause: Cause,
}

// What a prefix of the events says of them all.
fn reason_in(progress: Progress, count: usize) -> Option<Reason>
    requires within { progress_length progress ≤ count }
    requires few { count + 1 < 2 ^ 32 }
    ensures { (shapes : List Shape) (events : List Event) → length events ≡ count
        → IsProgressOf (cycles_of shapes) events progress → IsReasonOn shapes events result }
{
    match progress {
        Progress::Whole(n) => {
            if n == count {
                None
            } else {
                Some(Reason {
                    at: (n + 1) as u32,
                    cause: Cause::AllEnded,
                })
            }
        }
        Progress::Part(n, cause) => Some(Reason {
            at: (n + 1) as u32,
            cause,
        }),
    }
}

/// Why events are no legal history of the epochs of a plan: the place that `check` answers, and
/// what is wrong with the event there, or what is missing after the last; `None` where they are a
/// legal history. Of a node that waits for several, the least that has not finished is named. Takes
/// memory and time as `check` does.
pub fn reason_of(
    alloc: Global,
    plan: &Plan,
    events: &Items<Event>,
) -> Result<Option<Reason>, Memory>
    requires sound { IsSoundPlan plan.now }
    requires few { length events.now + 1 < 2 ^ 32 }
    ensures { IfOk result (IsReasonOn (map (λ e. e.shape) plan.now.epochs) events.now) }
{
    let events = events.as_slice();
    let progress = follow_epochs(alloc, plan.epochs.as_slice(), events)?;
    Ok(reason_in(progress, events.len()))
}
