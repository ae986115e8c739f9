//! Why an event cannot come next, or what is missing where none comes.
ghost use Rattle.std.specs.Prelude.{◌≡◌, ℕ, ◌<◌, List, Option, Some, None, length, false, IsTrue, ◌↔◌, IsBitSet, slice_index};
ghost use Rattle.pw_graph.specs.declared.event.Event.{Event};
ghost use Rattle.pw_graph.specs.declared.event.Event.TheVariants as E;
ghost use Rattle.pw_graph.specs.declared.shape.Shape.{Shape};
ghost use Rattle.trace_check.specs.declared.order.Order.{Order};
ghost use Rattle.trace_check.specs.Causes.{IsEventOf, IsEnding, IsCauseInside};
ghost use Rattle.trace_check.specs.working.NodeSets.{IsWithin, AreApart};
ghost use Rattle.trace_check.specs.working.Admitting.{Admits, IsKept};

use crate::node_sets::{difference, first_outside, has, is_within};
use crate::order::Order;
use crate::so_far::SoFar;
use pw_graph::Event;

/// What is wrong with an event, or with its absence.
#[derive(Clone, Copy, PartialEq, Eq, Drop)]
pub enum Cause {
    /// All cycles have ended.
    AllEnded,
    /// This cycle is the next and has not begun.
    NotBegun { cycle: u32 },
    /// This cycle has begun and not ended, and the event is none of its own, or is missing.
    NotEnded { cycle: u32 },
    /// The End of this cycle, or no event, before this node has finished in it.
    NotFinished { cycle: u32, node: u32 },
    /// A Start of a node that is not active in the cycle.
    NotActive,
    /// A Start of a node that has started in the cycle.
    Started,
    /// A Start of a node that waits for this node, which has not finished in the cycle.
    WaitsFor { node: u32 },
    /// A Finish of a node that has not started in the cycle.
    NotStarted,
    /// A Finish of a node that has finished in the cycle.
    Finished,
    /// A Tick after one of the same cycle.
    Ticked,
    /// A Tick after the Start of the driver.
    DriverStarted,
    /// A Tick that calls this node late, which is no follower or has finished.
    NotLate { node: u32 },
}

// Whether a node is active.
fn is_active(order: &Order, node: u32) -> bool
    ensures { IsTrue result ↔ ((node < 64) × IsBitSet order.now.active node) }
{
    node < 64 && has(order.active, node)
}

// Why a node does not start.
fn start_cause(order: &Order, so_far: SoFar, node: u32) -> Cause
    requires numbers { length order.now.before ≡ 64 }
    requires barred { ¬ ((node < 64) × IsBitSet order.now.active node
        × ¬ IsBitSet so_far.started node
        × IsWithin (slice_index order.now.before node) so_far.finished) }
    ensures { (shape : Shape) (cycle : ℕ) (since : List Event)
        → IsKept shape cycle since order.now so_far
        → IsCauseInside shape cycle since (Some (E.Start cycle node)) result }
{
    if !is_active(order, node) {
        return Cause::NotActive;
    }
    if has(so_far.started, node) {
        return Cause::Started;
    }
    let before = order.before.as_slice()[node as usize];
    Cause::WaitsFor {
        node: first_outside(before, so_far.finished),
    }
}

// Whether a node has finished.
fn is_finished(so_far: SoFar, node: u32) -> bool
    ensures { IsTrue result ↔ ((node < 64) × IsBitSet so_far.finished node) }
{
    node < 64 && has(so_far.finished, node)
}

// Why a node does not finish.
fn finish_cause(so_far: SoFar, node: u32) -> Cause
    requires barred { ¬ ((node < 64) × IsBitSet so_far.started node
        × ¬ IsBitSet so_far.finished node) }
    ensures { (shape : Shape) (cycle : ℕ) (since : List Event) (order : Order)
        → IsKept shape cycle since order so_far
        → IsCauseInside shape cycle since (Some (E.Finish cycle node)) result }
{
    if is_finished(so_far, node) {
        Cause::Finished
    } else {
        Cause::NotStarted
    }
}

// Why there is no Tick of these late nodes.
fn tick_cause(order: &Order, driver: u32, so_far: SoFar, late: u64) -> Cause
    requires numbers { length order.now.before ≡ 64 }
    requires driver { driver < 64 }
    requires barred { ¬ ((so_far.ticked ≡ false) × ¬ IsBitSet so_far.started driver
        × IsWithin late (slice_index order.now.before driver) × AreApart late so_far.finished) }
    ensures { (shape : Shape) (cycle : ℕ) (since : List Event)
        → IsKept shape cycle since order.now so_far → driver ≡ shape.driver
        → IsCauseInside shape cycle since (Some (E.Tick cycle late)) result }
{
    if so_far.ticked {
        return Cause::Ticked;
    }
    if has(so_far.started, driver) {
        return Cause::DriverStarted;
    }
    let followers = order.before.as_slice()[driver as usize];
    Cause::NotLate {
        node: first_outside(late, difference(followers, so_far.finished)),
    }
}

// Whether an event is one of a cycle, after its Begin.
fn is_event_of(event: &Event, in_cycle: u32) -> bool
    ensures { IsTrue result ↔ IsEventOf in_cycle event.now }
{
    match event {
        Event::Begin { .. } => false,
        Event::Start { cycle, .. }
        | Event::Finish { cycle, .. }
        | Event::Tick { cycle, .. }
        | Event::End { cycle } => *cycle == in_cycle,
    }
}

// Of a cycle that cannot end: the first node that is left.
fn left_cause(order: &Order, in_cycle: u32, so_far: SoFar) -> Cause
    requires { ¬ IsWithin order.now.active so_far.finished }
    ensures { (shape : Shape) (since : List Event) (next : Option Event)
        → IsKept shape in_cycle since order.now so_far → IsEnding in_cycle next
        → IsCauseInside shape in_cycle since next result }
{
    Cause::NotFinished {
        cycle: in_cycle,
        node: first_outside(order.active, so_far.finished),
    }
}

/// What is missing where the events end in a cycle.
pub(crate) fn missing_cause(order: &Order, in_cycle: u32, so_far: SoFar) -> Cause
    ensures { (shape : Shape) (since : List Event)
        → IsKept shape in_cycle since order.now so_far
        → IsCauseInside shape in_cycle since None result }
{
    if is_within(order.active, so_far.finished) {
        Cause::NotEnded { cycle: in_cycle }
    } else {
        left_cause(order, in_cycle, so_far)
    }
}

/// Why an event cannot come in a cycle that has begun.
pub(crate) fn event_cause(
    order: &Order,
    driver: u32,
    in_cycle: u32,
    so_far: SoFar,
    event: &Event,
) -> Cause
    requires numbers { length order.now.before ≡ 64 }
    requires driver { driver < 64 }
    requires barred { ¬ Admits order.now driver in_cycle so_far event.now }
    requires open { (event.now ≡ E.End in_cycle) → ¬ IsWithin order.now.active so_far.finished }
    ensures { (shape : Shape) (since : List Event)
        → IsKept shape in_cycle since order.now so_far → driver ≡ shape.driver
        → IsCauseInside shape in_cycle since (Some event.now) result }
{
    if !is_event_of(event, in_cycle) {
        return Cause::NotEnded { cycle: in_cycle };
    }
    match event {
        Event::Begin { .. } => Cause::NotEnded { cycle: in_cycle },
        Event::Start { node, .. } => start_cause(order, so_far, *node),
        Event::Finish { node, .. } => finish_cause(so_far, *node),
        Event::Tick { late, .. } => tick_cause(order, driver, so_far, *late),
        Event::End { .. } => left_cause(order, in_cycle, so_far),
    }
}
