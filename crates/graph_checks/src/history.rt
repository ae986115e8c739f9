//! Whether a list of events is a legal history of epochs.
ghost use Rattle.std.specs.Prelude.{◌≡◌, [], ◌∷◌, IsTrue, ◌↔◌, MatchOption, map};
ghost use Rattle.std.specs.List.{position};
ghost use Rattle.pw_graph.specs.History.{IsLegalCycle, epoch_cycles, IsLegalHistory};
ghost use Rattle.pw_graph.specs.working.HistoryFronts.{is_end, LeavesOver, IsNoFront};

use crate::cycle_history::is_legal_inside;
use pw_graph::{Epoch, Event, Shape};

// Whether an event is the Begin of a cycle.
fn is_begin_of(event: &Event, in_cycle: u64) -> bool
    ensures { IsTrue result ↔ (event.now ≡ Event.Begin in_cycle) }
{
    match event {
        Event::Begin { cycle } => u64::from(*cycle) == in_cycle,
        _ => false,
    }
}

// Whether an event is the End of a cycle.
fn is_end_of(event: &Event, in_cycle: u64) -> bool
    ensures { IsTrue result ↔ (event.now ≡ Event.End in_cycle) }
{
    match event {
        Event::End { cycle } => u64::from(*cycle) == in_cycle,
        _ => false,
    }
}

// Whether events are Begin of the cycle, what is legal inside, and End.
fn is_legal_cycle(shape: &Shape, cycle: u64, part: &[Event]) -> bool
    ensures { IsTrue result ↔ IsLegalCycle shape.now cycle part.now }
{
    match part {
        [first, inside @ .., last] => is_begin_of(first, cycle)
            && is_end_of(last, cycle)
            && is_legal_inside(shape, inside, cycle),
        _ => false,
    }
}

// Whether an event is an End.
fn is_end(event: &Event) -> bool
    ensures { result ≡ is_end event.now }
{
    matches!(event, Event::End { .. })
}

// Where the first End is.
fn find_end(events: &[Event]) -> Option<usize>
    ensures { result ≡ position is_end events.now }
{
    events.iter().position(is_end)
}

// What is left after the cycle's part, if that is first and is legal.
fn after_cycle<'a>(shape: &Shape, cycle: u64, events: &'a [Event]) -> Option<&'a [Event]>
    ensures { MatchOption result (IsNoFront ((shape.now, cycle) ∷ []) events.now)
        (λ rest. LeavesOver ((shape.now, cycle) ∷ []) events.now rest.now) }
{
    let n = find_end(events)?;
    let (part, rest) = events.split_at(n + 1);
    if is_legal_cycle(shape, cycle, part) {
        Some(rest)
    } else {
        None
    }
}

// What is left after the parts of the epoch's cycles, if those are first and are legal.
fn after_epoch<'a>(shape: &Shape, events: &'a [Event]) -> Option<&'a [Event]>
    ensures { MatchOption result (IsNoFront (epoch_cycles shape.now shape.now.cycles) events.now)
        (λ rest. LeavesOver (epoch_cycles shape.now shape.now.cycles) events.now rest.now) }
{
    let mut rest = events;
    for k in 0..shape.cycles {
        rest = after_cycle(shape, u64::from(shape.first) + u64::from(k), rest)?;
    }
    Some(rest)
}

/// Whether events are a legal history of epochs: cycle by cycle Begin, one Start and one Finish of
/// each active node, each Start after the Finish of all that precede the node, at most one Tick
/// before the driver's Start, and End.
/// Takes no memory; cost: for each cycle and each pair of its nodes some looks at each of its
/// events.
pub fn is_legal_history(epochs: &[Epoch], events: &[Event]) -> bool
    ensures { IsTrue result ↔ IsLegalHistory (map (λ e. e.shape) epochs.now) events.now }
{
    let mut rest = events;
    for epoch in epochs {
        match after_epoch(&epoch.shape, rest) {
            Some(more) => rest = more,
            None => return false,
        }
    }
    rest.is_empty()
}
