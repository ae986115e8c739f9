//! How a loop takes a number out of its queue, and how a thread rests.
ghost use Rattle.std.specs.Prelude.{◌≡◌, ◌+◌, ◌-◌, ◌^◌, ◌<◌, ◌≤◌, cond, false, is_some, min};
ghost use Rattle.std.specs.Prelude.{IfSome, IfNone};
ghost use Rattle.ready_queues.specs.AnsweredWith.{IsWayOf};
ghost use Rattle.ready_queues.specs.Ends.{AreEndsOf, received_by};
ghost use Rattle.ready_queues.specs.QueueRule.{IsNodeOf};
ghost use Rattle.ready_queues.specs.Receiving.{HasReceived, AreSameEnds, IsSameThread};
ghost use Rattle.ready_queues.specs.Receiving.{HasRested};
ghost use Rattle.ready_queues.specs.Looking.{IsInVain, spins_limit};

use crate::call::{Call, Look};
use crate::end::End;
use crate::parking::park;
use crate::queue::Pops;
use crate::way::Way;
use crate::ways::Ways;
use std::sync::Wait;

// The count of numbers received, with one more or none.
fn counted(taken: u64, more: bool) -> u64
    ensures { result ≡ min (taken + cond more 1 0) (2 ^ 64 - 1) }
{
    if more { taken.saturating_add(1) } else { taken }
}

impl Ways {
    // The oldest number in the queue of a loop.
    fn pop<R: Wait>(&self, rt: &R, ends: &mut [End], number: usize) -> Option<u32>
        requires ends { AreEndsOf self.now.owner self.now.lanes ends.old }
        requires inside { number < self.now.loops }
        ensures ends { AreEndsOf self.now.owner self.now.lanes ends.new }
        ensures node { IfSome result (λ x. IsNodeOf self.now.owner number x) }
        ensures some { IfSome result (λ x. HasReceived number x ends.old ends.new) }
        ensures none { IfNone result (AreSameEnds ends.old ends.new) }
        ensures count { received_by ends.new ≡ received_by ends.old + cond (is_some result) 1 0 }
    {
        let lane = &self.lanes.as_slice()[number];
        lane.queue.pop_as::<Pops, R>(rt, &mut ends[number].pass)
    }

    /// Takes the oldest number out of the queue of the way's own loop. None only where the queue is
    /// empty: that is tested. May wait for another thread that is in the middle of a push or a pop;
    /// takes no memory.
    /// Condition: a loop's way, which was answered with these ways.
    pub fn receive<R: Wait>(&self, rt: &R, way: &mut Way) -> Option<u32>
        requires answered { IsWayOf self.now way.old }
        requires own { way.old.number < self.now.loops }
        ensures answered { IsWayOf self.now way.new }
        ensures thread { IsSameThread way.old way.new }
        // The number is a node of that loop, and the way knows one receipt more of it.
        ensures node { IfSome result (λ x. IsNodeOf self.now.owner way.old.number x) }
        ensures some { IfSome result (λ x.
            HasReceived way.old.number x way.old.ends.items way.new.ends.items) }
        // No end has pushed or received since: no number is lost.
        ensures none { IfNone result (AreSameEnds way.old.ends.items way.new.ends.items) }
    {
        let number = way.number as usize;
        let node = self.pop(rt, way.ends.as_mut_slice(), number);
        self.call_of(way.number).forget_if(node.is_none());
        way.taken = counted(way.taken, node.is_some());
        node
    }

    // The call of the thread of this number, the driver's where it is that of no loop.
    fn call_of(&self, number: u32) -> &Call {
        match self.lanes.as_slice().get(number as usize) {
            Some(lane) => &lane.call,
            None => &self.call,
        }
    }

    /// Looks for some microseconds whether the way's own thread is called: a loop by who pushes
    /// into its queue, the driver's thread by who has unparked it. A thread that has nothing to do
    /// looks before it rests. It spins between its looks, 256 times at most, and never yields;
    /// where it has looked in vain eight times in a row it does not spin, but for one look in 256.
    /// Whether it was called no clause says: contracts see nothing of calls. Takes no memory, does
    /// not wait.
    pub fn look(&self, way: &Way) -> Look
        ensures most { result.spins ≤ spins_limit }
        ensures vain { result.called ≡ false → IsInVain result.spins }
    {
        self.call_of(way.number).look()
    }

    /// Whether `look` finds the way's own thread called. It has no clause. Takes no memory, does
    /// not wait.
    pub fn is_called_soon(&self, way: &Way) -> bool {
        self.look(way).called
    }

    /// Parks the way's own thread until it is unparked, which may have been before. Takes no
    /// memory.
    /// Condition: the way was answered with these ways.
    pub fn rest<R: Wait>(&self, rt: &R, way: &mut Way)
        requires answered { IsWayOf self.now way.old }
        ensures answered { IsWayOf self.now way.new }
        ensures rested { HasRested way.old way.new }
    {
        park(rt, &way.parker, &mut way.own);
        way.rested = way.rested.saturating_add(1);
        self.call_of(way.number).forget();
    }
}
