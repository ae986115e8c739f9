//! The calls on the start word of a loop.
ghost use Rattle.std.specs.Prelude.{◌≡◌, true, false, IfOk};
ghost use Rattle.ready_queues.specs.StartRule.{unstarted, running, sighted, missed, dealt};
ghost use Rattle.ready_queues.specs.Lanes.{start_table};

use crate::start_rule::{Begins, Deals, Looks, StartSeat, StartTable};
use crate::start_word::StartWord;
use pw_lists::Memory;
use std::alloc::Global;

// The word of a loop that no thread runs yet, and the seat of the loop's own way.
pub(crate) fn open_start(alloc: Global) -> Result<(StartWord, StartSeat), Memory>
    ensures table { IfOk result (λ o. o.1.table_id ≡ start_table o.0) }
    ensures idle { IfOk result (λ o. o.1.me.0 ≡ unstarted) }
{
    match StartTable::of_words(alloc, &[0], &()) {
        Ok((table, seat)) => Ok((StartWord { table }, seat)),
        Err(_refused) => Err(Memory),
    }
}

impl StartWord {
    // The loop's own way was started. One atomic store.
    pub(crate) fn begin(&self, seat: &mut StartSeat)
        requires table { seat.old.table_id ≡ start_table self.now }
        requires own { seat.old.me.0.own ≡ true }
        ensures table { seat.new.table_id ≡ seat.old.table_id }
        ensures begun { seat.new.me.0 ≡ running seat.old.me.0 }
    {
        self.table.shared.store::<Begins>(seat, 0, 1);
    }

    // Whether the loop's own way was seen to be started. One atomic load.
    pub(crate) fn has_begun(&self, seat: &mut StartSeat) -> bool
        requires table { seat.old.table_id ≡ start_table self.now }
        ensures table { seat.new.table_id ≡ seat.old.table_id }
        ensures yes { result ≡ true → seat.new.me.0 ≡ sighted seat.old.me.0 }
        ensures no { result ≡ false → seat.new.me.0 ≡ missed seat.old.me.0 }
    {
        self.table.shared.load::<Looks>(seat, 0) == 1
    }

    // A seat for one way more.
    pub(crate) fn another(&self, seat: &mut StartSeat) -> StartSeat
        requires table { seat.old.table_id ≡ start_table self.now }
        ensures kept { (seat.new.table_id ≡ seat.old.table_id) × (seat.new.me ≡ seat.old.me) }
        ensures dealt { (result.table_id ≡ seat.old.table_id)
            × (result.me.0 ≡ dealt seat.old.me.0) }
    {
        self.table.shared.split_seat::<Deals>(seat)
    }
}
