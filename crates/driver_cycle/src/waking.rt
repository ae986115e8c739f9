//! What the driver's thread does with its way to the queues: it sends, and it rests.
ghost use Rattle.std.specs.Prelude.{◌≡◌, ◌<◌, ◌≤◌, true, false};
ghost use Rattle.data_loop.specs.LoopWay.{IsDriverWay};
ghost use Rattle.driver_cycle.specs.Waking.{HasSent, HasRested};

use data_loop::{Way, Ways};
use std::sync::Wait;

/// Sends each node of a set to the queue of its loop, and unparks that loop: bit n of `woke` is
/// node n. A node that is the driver's own is not sent, and one that finds its queue full is found
/// by the scan of its loop. It may wait. Takes no memory.
/// Condition: `way` is the driver's of `ways`.
pub fn send_woken<R: Wait>(rt: &R, ways: &Ways, way: &mut Way, woke: u64)
    requires way { IsDriverWay ways.now way.old }
    ensures sent { HasSent ways.now woke way.old way.new }
    ensures way { IsDriverWay ways.now way.new }
{
    ways.forward(rt, way, woke);
}

/// The end of a round, in which something was done or not: the thread rests until it is unparked
/// where nothing was, and it has adopted fewer loops than `ways` has, so that another thread has
/// something to do. Before it sleeps it looks for some microseconds whether it is called. Else the
/// way is as it was. It may wait. Takes no memory.
/// Condition: `way` is the driver's of `ways`.
pub fn rest_unless<R: Wait>(rt: &R, done: bool, adopted: usize, ways: &Ways, way: &mut Way)
    requires way { IsDriverWay ways.now way.old }
    ensures rested { done ≡ false → adopted < ways.now.loops → HasRested way.old way.new }
    ensures done { done ≡ true → way.new ≡ way.old }
    ensures alone { ways.now.loops ≤ adopted → way.new ≡ way.old }
    ensures way { IsDriverWay ways.now way.new }
{
    if !done && adopted < ways.loops() as usize {
        let _called = ways.is_called_soon(way);
        ways.rest(rt, way);
    }
}
