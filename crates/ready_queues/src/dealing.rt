//! How the ends of one thread's way are dealt to the ways of the others, before any is used.
ghost use Rattle.std.specs.Prelude.{◌≡◌, ℕ, length, IfOk, Some, slice_get};
ghost use Rattle.ready_queues.specs.declared.way.Way.{Way};
ghost use Rattle.ready_queues.specs.Ends.{hand_of, received_by};
ghost use Rattle.ready_queues.specs.Lanes.{unparks};
ghost use Rattle.ready_queues.specs.Opening.{IsFreshEnd, AreFreshEnds, AreBare};

use crate::end::End;
use crate::lane::Lane;
use crate::queue::Dealing;
use crate::way::Way;
use crate::ways::Ways;
use pw_lists::{Items, Memory};
use std::alloc::Global;

impl End {
    // An end for one thread more, to the same loop. Neither has been used.
    fn deal(&mut self, lane: &Lane) -> End
        requires fresh { IsFreshEnd (hand_of self.old).owner (hand_of self.old).number lane.now
            self.old }
        ensures kept { IsFreshEnd (hand_of self.old).owner (hand_of self.old).number lane.now
            self.new }
        ensures dealt { IsFreshEnd (hand_of self.old).owner (hand_of self.old).number lane.now
            result }
    {
        End {
            number: self.number,
            pass: lane.queue.another::<Dealing>(&mut self.pass),
            wake: lane.unparker.pass(),
            sight: lane.started.another(&mut self.sight),
        }
    }
}

impl Way {
    // The way gets its ends.
    fn equip(&mut self, ends: Items<End>)
        requires old { received_by self.old.ends.items ≡ 0 }
        requires new { received_by ends ≡ 0 }
        ensures thread { (self.new.number ≡ self.old.number) × (self.new.own ≡ self.old.own)
            × (self.new.driver ≡ self.old.driver) × (self.new.begins ≡ self.old.begins) }
        ensures ends { self.new.ends.items ≡ ends }
    {
        self.ends = ends.into_vec();
    }
}

impl Ways {
    // Ends for one thread more. None has been used.
    fn deal(&self, alloc: Global, ends: &mut [End]) -> Result<Items<End>, Memory>
        requires fresh { AreFreshEnds self.now.owner self.now.lanes ends.old }
        ensures kept { AreFreshEnds self.now.owner self.now.lanes ends.new }
        ensures dealt { IfOk result (AreFreshEnds self.now.owner self.now.lanes) }
    {
        let mut more = Items::new(alloc);
        for at in 0..self.lanes.len() {
            more.push(ends[at].deal(&self.lanes.as_slice()[at]))?;
        }
        Ok(more)
    }

    // The ways of all loops get their ends.
    pub(crate) fn equip_all(
        &self,
        alloc: Global,
        ends: &mut [End],
        ways: &mut [Way],
    ) -> Result<(), Memory>
        requires count { length ways.old ≡ length self.now.lanes }
        requires fresh { AreFreshEnds self.now.owner self.now.lanes ends.old }
        requires bare { AreBare self.now.lanes (unparks self.now.driver) ways.old }
        ensures kept { AreFreshEnds self.now.owner self.now.lanes ends.new }
        ensures bare { AreBare self.now.lanes (unparks self.now.driver) ways.new }
        ensures ends { IfOk result (λ _. (k : ℕ) (w : Way) → slice_get ways.new k ≡ Some w
            → AreFreshEnds self.now.owner self.now.lanes w.ends.items) }
    {
        for k in 0..ways.len() {
            ways[k].equip(self.deal(alloc, ends)?);
        }
        Ok(())
    }
}
