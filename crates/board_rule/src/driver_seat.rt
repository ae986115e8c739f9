//! The driver's seat. Contracts see the table that it belongs to and what it knows.
ghost use Rattle.board_rule.specs.OnBoard.{IsOn, layout};
ghost use Rattle.std.specs.Prelude.{◌≡◌, true};
ghost use Rattle.board_rule.specs.buffers.EndViews.{read_of};
ghost use Rattle.board_rule.specs.buffers.ReaderSteps.{IsReader};
ghost use Rattle.board_rule.specs.Steps.{StoresPending, pending_stored, StoresStatus, status_stored};
ghost use Rattle.board_rule.specs.events.EventSteps.{Looks, looked, StoresLate, late_stored};

use crate::board::Board;
use crate::lead::{
    DriverProgress, Due, lead_draw, lead_event, lead_store, lead_ticket, reset_so_far, told_so_far,
    woke_at_draw,
};
use crate::progress::wake;
use crate::rule::BoardToken;
use crate::seat::BoardSeat;
use crate::steps::statuses::triggered;
use crate::steps::{activation, event, reading};
use crate::view::ReadView;
use pw_graph::io_id_of;
use std::marker::{Brand, Model};

/// The right of the driver's thread to step on a board: it begins, checks and ends each cycle and
/// runs the driver's node. It keeps only the ends of the links into that node, each at its slot.
#[derive(Drop)]
pub struct DriverSeat {
    pub(crate) token: BoardToken,
    pub(crate) lead: DriverProgress,
    pub(crate) reads: Vec<ReadView>,
    pub(crate) woke: u64,
}

impl Model for DriverSeat {
    ghost use Rattle.board_rule.specs.Known.{Known, IsDriverSeat};

    ghost Value = { Known };

    ghost view = { λ s. record { table = s.token.table_id; knows = s.token.me.0 } };

    ghost invariant = { λ s. IsDriverSeat s.token.me.0 s.lead s.reads.items s.woke };
}

impl DriverSeat {
    // The reader's end of a link into the driver's node.
    fn read_at(&self, board: &Board, link: u32) -> ReadView
        requires { IsReader true (layout board.now) self.now.knows link }
        ensures { result ≡ read_of self.now.knows link }
    {
        self.reads[board.read_slot(link)]
    }
}

impl BoardSeat for DriverSeat {
    ghost use Rattle.std.specs.Prelude.{true};

    ghost is_driver = { true };

    ghost table = { λ s. s.table };

    ghost knows = { λ s. s.knows };

    fn ended(&self, board: &Board, _node: u32) -> u32 {
        board.past(self.lead.cycle)
    }

    fn woke(&self) -> u64 {
        self.woke
    }

    fn lower_pending(&mut self, board: &Board, node: u32) -> u64 {
        let at = board.index_of(node);
        let done = self.lead.done;
        let target = board.target(at, done);
        let found = activation::lower::<Brand>(board, &mut self.token, at, target);
        self.lead.done = told_so_far(board.targets_at(at), done + 1, found == 1);
        self.woke = wake(board, self.woke, target, found);
        found
    }

    fn store_triggered(&mut self, board: &Board, node: u32) {
        let at = board.index_of(node);
        let done = self.lead.done;
        let target = board.target(at, done - 1);
        let cycle = board.cycle(self.lead.cycle);
        activation::trigger::<Brand>(board, &mut self.token, at, target, cycle);
        self.lead.done = told_so_far(board.targets_at(at), done, false);
    }

    fn exchange_awake(&mut self, board: &Board, node: u32) -> u64 {
        let at = board.index_of(node);
        let cycle = board.cycle(self.lead.cycle);
        let found = activation::claim::<Brand>(board, &mut self.token, at, cycle);
        if found == triggered(cycle) {
            self.lead.due = Due::Start;
        }
        found
    }

    fn store_finished(&mut self, board: &Board, node: u32) {
        let at = board.index_of(node);
        let cycle = board.cycle(self.lead.cycle);
        activation::finish::<Brand>(board, &mut self.token, at, cycle);
        self.woke = 0;
    }

    fn draw_ticket(&mut self, board: &Board, node: u32) -> u64 {
        let at = board.index_of(node);
        let ticket = event::draw::<Brand>(board, &mut self.token, at);
        self.woke = woke_at_draw(self.lead.due, self.woke);
        lead_draw(&mut self.lead, ticket);
        ticket
    }

    fn store_event(&mut self, board: &Board, node: u32) {
        let at = board.index_of(node);
        let cycle = board.cycle(self.lead.cycle);
        let new = lead_event(self.lead.due, cycle, node);
        let ticket = lead_ticket(self.lead);
        event::store::<Brand>(board, &mut self.token, at, ticket, &new);
        lead_store(&mut self.lead);
    }

    fn loaded(&self, board: &Board, link: u32) -> u32 {
        self.read_at(board, link).id
    }

    #[inline]
    fn load_io_as_reader(&mut self, board: &Board, link: u32) -> u64 {
        let slot = board.read_slot(link);
        let end = self.read_at(board, link);
        let cycle = self.lead.cycle;
        let found = reading::load_area::<Brand>(board, &mut self.token, link, cycle);
        self.reads[slot] = ReadView {
            loaded: cycle + 1,
            lowered: end.lowered,
            stored: end.stored,
            id: io_id_of(found),
        };
        found
    }

    #[inline]
    fn load_sample_at(
        &mut self,
        board: &Board,
        link: u32,
        id: u32,
        place: u32,
        first: usize,
    ) -> u64 {
        let word = board.link_sample_word_at(link, id, place, first);
        reading::load_sample::<Brand>(board, &mut self.token, link, id, place, word)
    }

    #[inline]
    fn lower_readers(&mut self, board: &Board, link: u32, id: u32) -> u64 {
        let slot = board.read_slot(link);
        let end = self.read_at(board, link);
        let cycle = self.lead.cycle;
        let found = reading::lower_readers::<Brand>(board, &mut self.token, link, id);
        self.reads[slot] = ReadView {
            loaded: end.loaded,
            lowered: cycle + 1,
            stored: end.stored,
            id: end.id,
        };
        found
    }

    #[inline]
    fn store_need_data(&mut self, board: &Board, link: u32, id: u32) {
        let slot = board.read_slot(link);
        let end = self.read_at(board, link);
        let cycle = self.lead.cycle;
        reading::store_need::<Brand>(board, &mut self.token, link, cycle, id);
        self.reads[slot] = ReadView {
            loaded: end.loaded,
            lowered: end.lowered,
            stored: cycle + 1,
            id: end.id,
        };
    }
}

impl DriverSeat {
    /// Stores the required count of the node that is reset next in its pending word. No memory, no
    /// wait, no failure.
    pub fn store_pending(&mut self, board: &Board)
        requires table { IsOn board.now self.old.table }
        requires phase { StoresPending (layout board.now) self.old.knows }
        ensures table { self.new.table ≡ self.old.table }
        ensures knows { self.new.knows ≡ pending_stored self.old.knows }
    {
        let at = self.lead.done;
        activation::reset_pending::<Brand>(board, &mut self.token, at);
    }

    /// Stores NOT_TRIGGERED of its cycle in the status word of the node whose pending word is
    /// reset.
    pub fn store_not_triggered(&mut self, board: &Board)
        requires table { IsOn board.now self.old.table }
        requires phase { StoresStatus (layout board.now) self.old.knows }
        ensures table { self.new.table ≡ self.old.table }
        ensures knows { self.new.knows ≡ status_stored (layout board.now) self.old.knows }
    {
        let at = self.lead.done;
        let cycle = board.cycle(self.lead.cycle);
        activation::reset_status::<Brand>(board, &mut self.token, at, cycle);
        self.lead.done = reset_so_far(board.nodes(), at + 1);
    }

    /// Loads the status word of a follower in a check, which has not yet loaded it.
    pub fn load_status(&mut self, board: &Board, node: u32) -> u64
        requires table { IsOn board.now self.old.table }
        requires phase { let p = layout board.now in Looks p self.old.knows (p.index node) }
        ensures table { self.new.table ≡ self.old.table }
        ensures knows { let p = layout board.now in
            self.new.knows ≡ looked p self.old.knows (p.index node) result }
    {
        let at = board.index_of(node);
        event::look::<Brand>(board, &mut self.token, at)
    }

    /// Stores the late set of a check: the followers whose status word was not FINISHED of its
    /// cycle. Bit n is node n.
    pub fn store_late(&mut self, board: &Board, late: u64)
        requires table { IsOn board.now self.old.table }
        requires phase { StoresLate (layout board.now) self.old.knows late }
        ensures table { self.new.table ≡ self.old.table }
        ensures knows { self.new.knows ≡ late_stored self.old.knows }
    {
        let past = board.past(self.lead.cycle) as usize;
        event::store_late::<Brand>(board, &mut self.token, past, late);
    }
}
