//! How nodes are put into the queues of their loops.
ghost use Rattle.std.specs.Prelude.{◌≡◌, ℕ, ◌<◌, cond, false, [], ◌∷◌, length, IsTrue, IfSome, IfNone};
ghost use Rattle.std.specs.Int.{bit_at};
ghost use Rattle.crossbeam_queue.specs.Passes.{ruled_capacity};
ghost use Rattle.ready_queues.specs.AnsweredWith.{IsWayOf};
ghost use Rattle.ready_queues.specs.Ends.{AreEndsOf, IsEndOf, AreSameSights};
ghost use Rattle.ready_queues.specs.Ends.{hand_of, wakes_of, sight_of, received_by};
ghost use Rattle.ready_queues.specs.QueueRule.{IsNodeOf};
ghost use Rattle.ready_queues.specs.Sending.{AreSentNode, HaveSent, IsOfSomeLoop, IsRefused, pushed_on};
ghost use Rattle.ready_queues.specs.ParkingRule.{given_on};
ghost use Rattle.ready_queues.specs.Sending.{is_of, HasSent};
ghost use Rattle.ready_queues.specs.Receiving.{IsSameThread};

use crate::end::End;
use crate::lane::Lane;
use crate::node_bits::{first_below, noted, without};
use crate::parking::wake;
use crate::queue::Pushes;
use crate::way::Way;
use crate::ways::Ways;
use std::sync::Wait;

impl End {
    // One push of a node into the queue of its loop. That loop is unparked, if it shall be. Whether
    // the node came back, as it does where the queue is full: then it was not pushed.
    fn push<R: Wait>(&mut self, rt: &R, lane: &Lane, node: u32, unparks: bool) -> bool
        requires end { IsEndOf (hand_of self.old).owner (hand_of self.old).number lane.now
            self.old }
        requires room { ruled_capacity lane.now.queue ≡ 64 }
        requires node { IsNodeOf (hand_of self.old).owner (hand_of self.old).number node }
        ensures end { IsEndOf (hand_of self.old).owner (hand_of self.old).number lane.now self.new }
        ensures hand { hand_of self.new
            ≡ pushed_on (hand_of self.old) (cond result [] (node ∷ [])) }
        ensures wakes { wakes_of self.new ≡ given_on (wakes_of self.old) (cond unparks 1 0) }
        ensures sight { sight_of self.new ≡ sight_of self.old }
    {
        let full = lane
            .queue
            .push_as::<Pushes, R>(rt, &mut self.pass, node)
            .is_err();
        if unparks {
            lane.call.make();
            wake(&lane.unparker, &mut self.wake);
        }
        full
    }
}

impl Ways {
    // The loop of a node, if it is not the driver's own.
    pub(crate) fn loop_of(&self, node: usize) -> Option<u32>
        requires inside { node < length self.now.owner }
        ensures some { IfSome result (λ l. (l < self.now.loops)
            × IsNodeOf self.now.owner l node) }
        ensures none { IfNone result ((l : ℕ) → l < self.now.loops
            → is_of self.now.owner l node ≡ false) }
    {
        let number = self.owner.as_slice()[node];
        if number != self.loops {
            Some(number)
        } else {
            None
        }
    }

    // One node is sent, if it is not the driver's own. Its loop is unparked, if it is not the
    // spared one. Whether the node came back.
    fn send_node<R: Wait>(&self, rt: &R, ends: &mut [End], node: usize, spared: u32) -> bool
        requires ends { AreEndsOf self.now.owner self.now.lanes ends.old }
        requires inside { node < length self.now.owner }
        ensures ends { AreEndsOf self.now.owner self.now.lanes ends.new }
        ensures sent { AreSentNode self.now.owner spared node result ends.old ends.new }
        ensures sights { AreSameSights ends.old ends.new }
        ensures full { IsTrue result → IsOfSomeLoop self.now.owner self.now.loops node }
        ensures count { received_by ends.new ≡ received_by ends.old }
    {
        match self.loop_of(node) {
            Some(number) => {
                let lane = &self.lanes.as_slice()[number as usize];
                ends[number as usize].push(rt, lane, node as u32, number != spared)
            }
            None => false,
        }
    }

    // All nodes of a set are sent, ascending, and each of their loops but the spared one is
    // unparked. The bits of those that came back.
    fn send_all<R: Wait>(&self, rt: &R, ends: &mut [End], woke: u64, spared: u32) -> u64
        requires ends { AreEndsOf self.now.owner self.now.lanes ends.old }
        ensures ends { AreEndsOf self.now.owner self.now.lanes ends.new }
        ensures sent { HaveSent self.now.owner spared woke result (length self.now.owner)
            ends.old ends.new }
        ensures sights { AreSameSights ends.old ends.new }
        ensures refused { (node : ℕ) → bit_at result node ≡ 1
            → IsRefused self.now.owner self.now.loops woke node }
        ensures count { received_by ends.new ≡ received_by ends.old }
    {
        let mut rest = woke;
        let mut full = 0;
        while let Some(node) = first_below(rest, self.owner.len()) {
            full = noted(full, node, self.send_node(rt, ends, node, spared));
            rest = without(rest, node);
        }
        full
    }

    // As `send_all`, on the ends of a way.
    pub(crate) fn send_sparing<R: Wait>(&self, rt: &R, way: &mut Way, woke: u64, spared: u32) -> u64
        requires answered { IsWayOf self.now way.old }
        ensures answered { IsWayOf self.now way.new }
        ensures thread { IsSameThread way.old way.new }
        ensures sent { HaveSent self.now.owner spared woke result (length self.now.owner)
            way.old.ends.items way.new.ends.items }
        ensures sights { AreSameSights way.old.ends.items way.new.ends.items }
        ensures refused { (node : ℕ) → bit_at result node ≡ 1
            → IsRefused self.now.owner self.now.loops woke node }
    {
        self.send_all(rt, way.ends.as_mut_slice(), woke, spared)
    }

    /// For each node of a set that is not the driver's own, ascending, makes one push into the
    /// queue of that node's loop and unparks that loop. Afterwards it unparks the driver's thread,
    /// also where it made no push. Bit n of the set is node n; a bit that is no node of `owner`, as
    /// 63, is the driver's own. The answer has the bits of the nodes that came back, each a node of
    /// the set and of a loop, and not pushed; of each other such node the way knows one push more.
    /// A node comes back where its queue holds 64 numbers at the push: that is tested.
    ///
    /// May wait for another thread that is in the middle of a push or a pop. Takes no memory; cost:
    /// for each push a few atomic steps, and a call of the system for each thread that sleeps.
    /// Condition: the way was answered with these ways.
    pub fn send<R: Wait>(&self, rt: &R, way: &mut Way, woke: u64) -> u64
        requires answered { IsWayOf self.now way.old }
        ensures answered { IsWayOf self.now way.new }
        ensures sent { HasSent self.now.owner self.now.loops woke result way.old way.new }
    {
        let full = self.send_sparing(rt, way, woke, self.loops);
        wake(&self.driver, &mut way.driver);
        self.call.make();
        full
    }
}
