//! Whether the events of one cycle are legal.
ghost use Rattle.std.specs.Prelude.{◌≡◌, ℕ, ◌<◌, ◌≤◌, ◌-◌, IsTrue, ◌↔◌, All, count_by, length, take, IsBitSet};
ghost use Rattle.std.specs.List.{position};
ghost use Rattle.graph_checks.specs.working.Ordered.{IsOrdered, StartsLast, IsRun};
ghost use Rattle.pw_graph.specs.History.{is_start, is_finish, is_tick, start_place, finish_place, tick_place};
ghost use Rattle.pw_graph.specs.History.{IsLate, IsOfCycle, RunsOnce, KeepsOrder, IsLegalInside, IsLegalCycle};

use crate::dependencies::{has_node, is_waiting};
use pw_graph::{Event, Shape, ShapeNode};

// Whether an event is the Start of a node in a cycle.
fn is_start(event: &Event, in_cycle: u64, of_node: u32) -> bool
    ensures { result ≡ is_start in_cycle of_node event.now }
{
    match event {
        Event::Start { cycle, node } => u64::from(*cycle) == in_cycle && *node == of_node,
        _ => false,
    }
}

// Whether an event is the Finish of a node in a cycle.
fn is_finish(event: &Event, in_cycle: u64, of_node: u32) -> bool
    ensures { result ≡ is_finish in_cycle of_node event.now }
{
    match event {
        Event::Finish { cycle, node } => u64::from(*cycle) == in_cycle && *node == of_node,
        _ => false,
    }
}

// Whether an event is a Tick.
fn is_tick(event: &Event) -> bool
    ensures { result ≡ is_tick event.now }
{
    matches!(event, Event::Tick { .. })
}

// Where a node's Start is, if there is one.
fn find_start(events: &[Event], cycle: u64, node: u32) -> Option<usize>
    ensures { result ≡ position (is_start cycle node) events.now }
{
    events.iter().position(|e| is_start(e, cycle, node))
}

// Where a node's Start is; past the end where it has no Start.
#[tactic(auto, using(pw_graph::proofs::HistoryLemmas::place_or_end))]
fn start_place(events: &[Event], cycle: u64, node: u32) -> usize
    ensures { result ≡ start_place events.now cycle node }
{
    find_start(events, cycle, node).unwrap_or(events.len())
}

// Where a node's Finish is, if there is one.
fn find_finish(events: &[Event], cycle: u64, node: u32) -> Option<usize>
    ensures { result ≡ position (is_finish cycle node) events.now }
{
    events.iter().position(|e| is_finish(e, cycle, node))
}

// Where a node's Finish is; past the end where it has no Finish.
#[tactic(auto, using(pw_graph::proofs::HistoryLemmas::place_or_end))]
fn finish_place(events: &[Event], cycle: u64, node: u32) -> usize
    ensures { result ≡ finish_place events.now cycle node }
{
    find_finish(events, cycle, node).unwrap_or(events.len())
}

// Where the Tick is, if there is one.
fn find_tick(events: &[Event]) -> Option<usize>
    ensures { result ≡ position (is_tick) events.now }
{
    events.iter().position(is_tick)
}

// Where the Tick is; past the end where there is no Tick.
#[tactic(auto, using(pw_graph::proofs::HistoryLemmas::place_or_end))]
fn tick_place(events: &[Event]) -> usize
    ensures { result ≡ tick_place events.now }
{
    find_tick(events).unwrap_or(events.len())
}

// Whether a late node is a follower and finishes after the Tick.
fn is_late(shape: &Shape, events: &[Event], cycle: u64, node: u32) -> bool
    ensures { IsTrue result ↔ IsLate shape.now events.now cycle node }
{
    has_node(shape, node)
        && node != shape.driver
        && tick_place(events) < finish_place(events, cycle, node)
}

// Whether a bit of a set is set.
fn has_bit(set: u64, bit: u32) -> bool
    requires { bit < 64 }
    ensures { IsTrue result ↔ IsBitSet set bit }
{
    set & (1 << bit) != 0
}

// Whether each node of the set is late.
fn all_late(shape: &Shape, events: &[Event], cycle: u64, late: u64) -> bool
    ensures { IsTrue result ↔ ((n : ℕ) → n < 64 → IsBitSet late n
        → IsLate shape.now events.now cycle n) }
{
    for n in 0..64 {
        if has_bit(late, n) && !is_late(shape, events, cycle, n) {
            return false;
        }
    }
    true
}

// Whether an event may be between Begin and End.
fn is_of_cycle(shape: &Shape, events: &[Event], in_cycle: u64, event: &Event) -> bool
    ensures { IsTrue result ↔ IsOfCycle shape.now events.now in_cycle event.now }
{
    match event {
        Event::Start { cycle, node } | Event::Finish { cycle, node } => u64::from(*cycle)
            == in_cycle
            && has_node(shape, *node),
        Event::Tick { cycle, late } => {
            u64::from(*cycle) == in_cycle
                && tick_place(events) < start_place(events, in_cycle, shape.driver)
                && all_late(shape, events, in_cycle, *late)
        }
        _ => false,
    }
}

// How many Starts a node has.
fn count_starts(events: &[Event], cycle: u64, node: u32) -> usize
    ensures { result ≡ count_by (is_start cycle node) events.now }
{
    events.iter().filter(|e| is_start(e, cycle, node)).count()
}

// How many Finishes a node has.
fn count_finishes(events: &[Event], cycle: u64, node: u32) -> usize
    ensures { result ≡ count_by (is_finish cycle node) events.now }
{
    events.iter().filter(|e| is_finish(e, cycle, node)).count()
}

// How many Ticks there are.
fn count_ticks(events: &[Event]) -> usize
    ensures { result ≡ count_by is_tick events.now }
{
    events.iter().filter(|e| is_tick(e)).count()
}

// Whether there is at most one Tick.
fn has_few_ticks(events: &[Event]) -> bool
    ensures { IsTrue result ↔ (count_by is_tick events.now ≤ 1) }
{
    count_ticks(events) <= 1
}

#[tactic(auto, unfolding(crate::specs::working::Ordered::IsRun))]
// Whether a node has one Start and one Finish, the Start first.
fn runs_once(events: &[Event], cycle: u64, n: &ShapeNode) -> bool
    ensures { IsTrue result ↔ IsRun events.now cycle n.now }
{
    count_starts(events, cycle, n.node) == 1
        && count_finishes(events, cycle, n.node) == 1
        && start_place(events, cycle, n.node) < finish_place(events, cycle, n.node)
}

#[tactic(auto, unfolding(crate::specs::working::Ordered::IsOrdered))]
// Whether `n` starts after `m` has finished, where it waits for the work of `m`.
fn comes_after(shape: &Shape, events: &[Event], cycle: u64, n: &ShapeNode, m: &ShapeNode) -> bool
    ensures { IsTrue result ↔ IsOrdered shape.now events.now cycle n.now m.now }
{
    m.node == shape.driver
        || !is_waiting(shape, n.node, m.node)
        || finish_place(events, cycle, m.node) < start_place(events, cycle, n.node)
}

#[tactic(auto, unfolding(crate::specs::working::Ordered::StartsLast))]
// Whether a node starts after all that it waits for.
fn starts_last(shape: &Shape, events: &[Event], cycle: u64, n: &ShapeNode) -> bool
    ensures { IsTrue result ↔ StartsLast shape.now events.now cycle n.now }
{
    shape
        .nodes
        .as_slice()
        .iter()
        .all(|m| comes_after(shape, events, cycle, n, m))
}

// Whether each node starts after all that it waits for.
fn all_start_last(shape: &Shape, events: &[Event], cycle: u64) -> bool
    ensures { IsTrue result ↔ All (StartsLast shape.now events.now cycle) shape.now.nodes }
{
    shape
        .nodes
        .as_slice()
        .iter()
        .all(|n| starts_last(shape, events, cycle, n))
}

// Whether each node starts after all that precede it.
fn keeps_order(shape: &Shape, events: &[Event], cycle: u64) -> bool
    ensures { IsTrue result ↔ KeepsOrder shape.now events.now cycle }
{
    all_start_last(shape, events, cycle)
}

// Whether each event may be between Begin and End.
fn all_of_cycle(shape: &Shape, events: &[Event], cycle: u64) -> bool
    ensures { IsTrue result ↔ All (IsOfCycle shape.now events.now cycle) events.now }
{
    events.iter().all(|e| is_of_cycle(shape, events, cycle, e))
}

// Whether each node runs once.
fn all_run_once(shape: &Shape, events: &[Event], cycle: u64) -> bool
    ensures { IsTrue result ↔ All (IsRun events.now cycle) shape.now.nodes }
{
    shape
        .nodes
        .as_slice()
        .iter()
        .all(|n| runs_once(events, cycle, n))
}

#[tactic(auto, unfolding(crate::specs::working::Ordered::IsRun))]
/// Whether events are legal between Begin and End.
pub(crate) fn is_legal_inside(shape: &Shape, events: &[Event], cycle: u64) -> bool
    ensures { IsTrue result ↔ IsLegalInside shape.now events.now cycle }
{
    if !all_of_cycle(shape, events, cycle) || !all_run_once(shape, events, cycle) {
        return false;
    }
    keeps_order(shape, events, cycle) && has_few_ticks(events)
}
