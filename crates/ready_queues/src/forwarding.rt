//! How nodes are sent so that only who needs it is woken.
ghost use Rattle.std.specs.Prelude.{◌≡◌, ◌<◌, true, false, ℕ};
ghost use Rattle.std.specs.Int.{bit_at};
ghost use Rattle.ready_queues.specs.AnsweredWith.{IsWayOf};
ghost use Rattle.ready_queues.specs.Ends.{AreEndsOf, received_by};
ghost use Rattle.ready_queues.specs.Forwarding.{HasForDriver, HasForwarded};
ghost use Rattle.ready_queues.specs.Receiving.{IsSameThread};
ghost use Rattle.ready_queues.specs.Starting.{IsIdle, HasStarted};
ghost use Rattle.ready_queues.specs.Watching.{IsSeen, IsForDriver, AreLookedAt};

use crate::end::End;
use crate::node_bits::{first_below, without};
use crate::parking::wake;
use crate::way::Way;
use crate::ways::Ways;
use pw_graph::NODES;
use std::sync::Wait;

impl Ways {
    // Whether the driver's thread must see to a node: it is the driver's own, or the thread of its
    // loop was not seen to have started.
    fn is_watched(&self, ends: &mut [End], node: usize) -> bool
        requires ends { AreEndsOf self.now.owner self.now.lanes ends.old }
        ensures ends { AreEndsOf self.now.owner self.now.lanes ends.new }
        ensures looked { AreLookedAt ends.old ends.new }
        ensures yes { result ≡ true
            → IsForDriver self.now.owner self.now.loops ends.old ends.new node }
        ensures no { result ≡ false → IsSeen self.now.owner self.now.loops ends.new node }
        ensures count { received_by ends.new ≡ received_by ends.old }
    {
        if node >= self.owner.len() {
            return true;
        }
        match self.loop_of(node) {
            Some(number) => {
                let lane = &self.lanes.as_slice()[number as usize];
                !lane.started.has_begun(&mut ends[number as usize].sight)
            }
            None => true,
        }
    }

    // Whether the driver's thread must see to a node of a set.
    fn has_watched(&self, ends: &mut [End], woke: u64) -> bool
        requires ends { AreEndsOf self.now.owner self.now.lanes ends.old }
        ensures ends { AreEndsOf self.now.owner self.now.lanes ends.new }
        ensures looked { AreLookedAt ends.old ends.new }
        ensures yes { result ≡ true
            → HasForDriver self.now.owner self.now.loops woke ends.old ends.new }
        ensures no { result ≡ false → (node : ℕ) → bit_at woke node ≡ 1
            → IsSeen self.now.owner self.now.loops ends.new node }
        ensures count { received_by ends.new ≡ received_by ends.old }
    {
        let mut rest = woke;
        while let Some(node) = first_below(rest, NODES) {
            if self.is_watched(ends, node) {
                return true;
            }
            rest = without(rest, node);
        }
        false
    }

    // As `has_watched`, on the ends of a way.
    fn needs_driver(&self, way: &mut Way, woke: u64) -> bool
        requires answered { IsWayOf self.now way.old }
        ensures answered { IsWayOf self.now way.new }
        ensures thread { IsSameThread way.old way.new }
        ensures looked { AreLookedAt way.old.ends.items way.new.ends.items }
        ensures yes { result ≡ true → HasForDriver self.now.owner self.now.loops woke
            way.old.ends.items way.new.ends.items }
        ensures no { result ≡ false → (node : ℕ) → bit_at woke node ≡ 1
            → IsSeen self.now.owner self.now.loops way.new.ends.items node }
    {
        self.has_watched(way.ends.as_mut_slice(), woke)
    }

    /// Says that the way's thread runs its loop from now on, so that who wakes a node of the loop
    /// need not wake the driver's thread. No other call says so: while a way was not started, no
    /// way has seen that its loop runs. One atomic store. Takes no memory, does not wait.
    /// Condition: a loop's way that was not started, and was answered with these ways.
    pub fn start(&self, way: &mut Way)
        requires answered { IsWayOf self.now way.old }
        requires own { way.old.number < self.now.loops }
        requires idle { IsIdle way.old }
        ensures answered { IsWayOf self.now way.new }
        ensures started { HasStarted way.old way.new }
    {
        let lane = &self.lanes.as_slice()[way.number as usize];
        lane.started.begin(&mut way.begins);
    }

    /// As `send`: for each node of a set that is not the driver's own, ascending, makes one push
    /// into the queue of that node's loop, with the same answer. But it wakes only who needs it.
    /// Each such loop is unparked but the way's own, whose thread makes this call. Afterwards the
    /// driver's thread is unparked, unless it makes this call, where the set has a node of the
    /// driver's own, or of a loop whose thread was not seen to have started: the driver's thread
    /// may have adopted it. Where all nodes are of loops that were found to have started, it is
    /// not.
    ///
    /// May wait for another thread that is in the middle of a push or a pop. Takes no memory; cost:
    /// for each push a few atomic steps, and a call of the system for each thread that sleeps.
    /// Condition: the way was answered with these ways.
    pub fn forward<R: Wait>(&self, rt: &R, way: &mut Way, woke: u64) -> u64
        requires answered { IsWayOf self.now way.old }
        ensures answered { IsWayOf self.now way.new }
        ensures sent { HasForwarded self.now.owner self.now.loops woke result way.old way.new }
    {
        let full = self.send_sparing(rt, way, woke, way.number);
        if way.number != self.loops && self.needs_driver(way, woke) {
            wake(&self.driver, &mut way.driver);
            self.call.make();
        }
        full
    }
}
