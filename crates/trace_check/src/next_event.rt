//! Which event may come next in a cycle.
ghost use Rattle.std.specs.Prelude.{◌≡◌, ◌<◌, false, length, IsTrue, ◌↔◌, IsBitSet, slice_index};
ghost use Rattle.trace_check.specs.working.NodeSets.{IsWithin, AreApart};
ghost use Rattle.trace_check.specs.working.Admitting.{Admits};

use crate::node_sets::{are_apart, has, is_within};
use crate::order::Order;
use crate::so_far::SoFar;
use pw_graph::Event;

// Whether a node may start: it is there, has not started, and all that precede it have finished.
fn may_start(order: &Order, so_far: SoFar, node: u32) -> bool
    requires { length order.now.before ≡ 64 }
    ensures { IsTrue result ↔ ((node < 64) × IsBitSet order.now.active node
        × ¬ IsBitSet so_far.started node
        × IsWithin (slice_index order.now.before node) so_far.finished) }
{
    node < 64
        && has(order.active, node)
        && !has(so_far.started, node)
        && is_within(order.before.as_slice()[node as usize], so_far.finished)
}

// Whether a node may finish: it has started and not finished.
fn may_finish(so_far: SoFar, node: u32) -> bool
    ensures { IsTrue result ↔ ((node < 64) × IsBitSet so_far.started node
        × ¬ IsBitSet so_far.finished node) }
{
    node < 64 && has(so_far.started, node) && !has(so_far.finished, node)
}

// Whether a Tick may come: it is the first, the driver has not started, and the late nodes are
// followers that have not finished.
fn may_tick(order: &Order, driver: u32, so_far: SoFar, late: u64) -> bool
    requires numbers { length order.now.before ≡ 64 }
    requires driver { driver < 64 }
    ensures { IsTrue result ↔ ((so_far.ticked ≡ false) × ¬ IsBitSet so_far.started driver
        × IsWithin late (slice_index order.now.before driver) × AreApart late so_far.finished) }
{
    !so_far.ticked
        && !has(so_far.started, driver)
        && is_within(late, order.before.as_slice()[driver as usize])
        && are_apart(late, so_far.finished)
}

/// Whether an event may come next, between the Begin and the End of a cycle.
pub(crate) fn may_follow(
    order: &Order,
    driver: u32,
    in_cycle: u32,
    so_far: SoFar,
    event: &Event,
) -> bool
    requires numbers { length order.now.before ≡ 64 }
    requires driver { driver < 64 }
    ensures { IsTrue result ↔ Admits order.now driver in_cycle so_far event.now }
{
    match event {
        Event::Start { cycle, node } => *cycle == in_cycle && may_start(order, so_far, *node),
        Event::Finish { cycle, node } => *cycle == in_cycle && may_finish(so_far, *node),
        Event::Tick { cycle, late } => *cycle == in_cycle && may_tick(order, driver, so_far, *late),
        _ => false,
    }
}
