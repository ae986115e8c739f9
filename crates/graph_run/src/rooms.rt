//! The room that a run needs, taken before its first cycle.
ghost use Rattle.std.specs.Prelude.{◌≡◌, IfOk, IfSome};
ghost use Rattle.pw_graph.specs.Layout.{event_count};
ghost use Rattle.pw_graph.specs.PlanSums.{events_of};
ghost use Rattle.graph_run.specs.Rooms.{AreRooms};

use board_rule::Closed;
use pw_graph::{Event, Plan, Shape};
use pw_lists::{Items, Memory, Room};
use std::alloc::Global;
use wav_files::{Kept, Peak};

// The events of an epoch, where their number fits.
fn epoch_events(shape: &Shape) -> Option<usize>
    ensures { IfSome result (λ n. n ≡ event_count shape.now) }
{
    let nodes = 2usize.checked_mul(shape.nodes.len())?;
    (shape.cycles as usize).checked_mul(nodes.checked_add(3)?)
}

// The events of all epochs, where their number fits.
fn all_events(plan: &Plan) -> Option<usize>
    ensures { IfSome result (λ n. n ≡ events_of plan.now) }
{
    let mut sum = 0usize;
    for epoch in plan.epochs.as_slice() {
        sum = sum.checked_add(epoch_events(&epoch.shape)?)?;
    }
    Some(sum)
}

/// Empty lists for what a run answers: the closed boards and all their events, and what the sinks
/// and meters have kept.
#[derive(Drop)]
pub struct Rooms {
    pub(crate) closed: Room<Closed>,
    pub(crate) history: Room<Event>,
    pub(crate) sinks: Room<Kept>,
    pub(crate) peaks: Room<Peak>,
}

/// Rooms for a run of the plan, to be taken before its first cycle. `Memory` also where the number
/// of its events does not fit.
///
/// Memory: all events, a place for each closed board, and one for each node's stream and peak; the
/// samples of the streams are the loops'.
pub fn rooms_for(alloc: Global, plan: &Plan) -> Result<Rooms, Memory>
    ensures { IfOk result (AreRooms plan.now) }
{
    let Some(events) = all_events(plan) else {
        return Err(Memory);
    };
    let closed = Items::new(alloc).into_room(plan.epochs.len())?;
    let history = Items::new(alloc).into_room(events)?;
    let sinks = Items::new(alloc).into_room(plan.nodes.len())?;
    let peaks = Items::new(alloc).into_room(plan.nodes.len())?;
    Ok(Rooms {
        closed,
        history,
        sinks,
        peaks,
    })
}
