//! How far events go on as those of cycles.
ghost use Rattle.std.specs.Prelude.{◌≡◌, ◌+◌, ◌<◌, ◌≤◌, ◌^◌, [], ◌∷◌, length, map, All, IsTrue, ◌↔◌, IfOk};
ghost use Rattle.pw_graph.specs.declared.event.Event.TheVariants as E;
ghost use Rattle.pw_graph.specs.SoundShape.{IsSoundShape};
ghost use Rattle.pw_graph.specs.History.{epoch_cycles, cycles_of};
ghost use Rattle.trace_check.specs.working.Admitting.{IsOrderOf};
ghost use Rattle.trace_check.specs.working.Progress.{progress_length, IsProgressOf, IsProgressInside};

use crate::causes::{Cause, event_cause, missing_cause};
use crate::next_event::may_follow;
use crate::node_sets::is_within;
use crate::order::{Order, order_of};
use crate::so_far::{after_event, nothing_yet};
use pw_graph::{Epoch, Event, Shape};
use pw_lists::Memory;
use std::alloc::Global;

/// A prefix of a row of events.
#[derive(Clone, Copy, Drop)]
pub(crate) enum Progress {
    /// The first n events are all that was looked for.
    Whole(usize),
    /// The first n events can go on, and not one more, or no more are there; and why.
    Part(usize, Cause),
}

// Whether an event is the Begin of a cycle.
fn is_begin_of(event: &Event, in_cycle: u32) -> bool
    ensures { IsTrue result ↔ (event.now ≡ E.Begin in_cycle) }
{
    match event {
        Event::Begin { cycle } => *cycle == in_cycle,
        _ => false,
    }
}

// Whether an event is the End of a cycle.
fn is_end_of(event: &Event, in_cycle: u32) -> bool
    ensures { IsTrue result ↔ (event.now ≡ E.End in_cycle) }
{
    match event {
        Event::End { cycle } => *cycle == in_cycle,
        _ => false,
    }
}

// How far the events after a Begin go on. Cost: one look at each event.
fn follow_inside(order: &Order, shape: &Shape, cycle: u32, events: &[Event]) -> Progress
    requires sound { IsSoundShape shape.now }
    requires order { IsOrderOf shape.now order.now }
    ensures { IsProgressInside shape.now cycle events.now result }
{
    let mut so_far = nothing_yet(cycle);
    for i in 0..events.len() {
        let event = events[i];
        if may_follow(order, shape.driver, cycle, so_far, &event) {
            so_far = after_event(so_far, &event);
        } else if is_end_of(&event, cycle) && is_within(order.active, so_far.finished) {
            return Progress::Whole(i);
        } else {
            return Progress::Part(i, event_cause(order, shape.driver, cycle, so_far, &event));
        }
    }
    Progress::Part(events.len(), missing_cause(order, cycle, so_far))
}

// How far events go on as those of one cycle.
fn follow_cycle(order: &Order, shape: &Shape, cycle: u32, events: &[Event]) -> Progress
    requires sound { IsSoundShape shape.now }
    requires order { IsOrderOf shape.now order.now }
    ensures within { progress_length result ≤ length events.now }
    ensures progress { IsProgressOf ((shape.now, cycle) ∷ []) events.now result }
{
    let Some((first, rest)) = events.split_first() else {
        return Progress::Part(0, Cause::NotBegun { cycle });
    };
    if !is_begin_of(first, cycle) {
        return Progress::Part(0, Cause::NotBegun { cycle });
    }
    match follow_inside(order, shape, cycle, rest) {
        Progress::Whole(n) => Progress::Whole(n + 2),
        Progress::Part(n, cause) => Progress::Part(n + 1, cause),
    }
}

// How far events go on as those of the cycles of an epoch.
fn follow_epoch(alloc: Global, shape: &Shape, events: &[Event]) -> Result<Progress, Memory>
    requires { IsSoundShape shape.now }
    ensures within { IfOk result (λ progress. progress_length progress ≤ length events.now) }
    ensures progress { IfOk result
        (IsProgressOf (epoch_cycles shape.now shape.now.cycles) events.now) }
{
    let order = order_of(alloc, shape)?;
    let mut at: usize = 0;
    for k in 0..shape.cycles {
        let (_before, rest) = events.split_at(at);
        match follow_cycle(&order, shape, shape.first + k, rest) {
            Progress::Whole(n) => at += n,
            Progress::Part(n, cause) => return Ok(Progress::Part(at + n, cause)),
        }
    }
    Ok(Progress::Whole(at))
}

/// How far events go on as those of the cycles of epochs. Takes memory for 64 sets of nodes at a
/// time; cost: one look at each event, and for each epoch one look at each of its links for each of
/// 64 numbers.
pub(crate) fn follow_epochs(
    alloc: Global,
    epochs: &[Epoch],
    events: &[Event],
) -> Result<Progress, Memory>
    requires { All (λ e. IsSoundShape e.shape) epochs.now }
    ensures within { IfOk result (λ progress. progress_length progress ≤ length events.now) }
    ensures progress { IfOk result
        (IsProgressOf (cycles_of (map (λ e. e.shape) epochs.now)) events.now) }
{
    let mut at: usize = 0;
    for epoch in epochs {
        let (_before, rest) = events.split_at(at);
        match follow_epoch(alloc, &epoch.shape, rest)? {
            Progress::Whole(n) => at += n,
            Progress::Part(n, cause) => return Ok(Progress::Part(at + n, cause)),
        }
    }
    Ok(Progress::Whole(at))
}
