//! The seat of a loop. Contracts see the table that it belongs to and what it knows.
ghost use Rattle.std.specs.Prelude.{◌≡◌};
ghost use Rattle.board_rule.specs.OnBoard.{layout};
ghost use Rattle.board_rule.specs.activation.SeatNodes.{Has};
ghost use Rattle.board_rule.specs.working.Slots.{HasReader};
ghost use Rattle.board_rule.specs.View.{node_of};
ghost use Rattle.board_rule.specs.buffers.EndViews.{read_of};
ghost use Rattle.board_rule.specs.working.Progress.{progress_of};

use crate::board::Board;
use crate::progress::{NodeProgress, draw, finish, node_event, settle, ticket_held, wake};
use crate::rule::BoardToken;
use crate::seat::BoardSeat;
use crate::steps::statuses::triggered;
use crate::steps::{activation, event, reading};
use crate::view::{BlockView, ReadView, WriteView};
use pw_graph::io_id_of;
use std::marker::{Brand, Model};

/// The right of one loop to step on a board, for the followers that are its own. It keeps only
/// these, the ends of their links and the blocks that they fill, each at its slot.
#[derive(Drop)]
pub struct LoopSeat {
    pub(crate) token: BoardToken,
    pub(crate) nodes: Vec<NodeProgress>,
    pub(crate) writes: Vec<WriteView>,
    pub(crate) reads: Vec<ReadView>,
    pub(crate) blocks: Vec<BlockView>,
    pub(crate) woke: u64,
}

impl Model for LoopSeat {
    ghost use Rattle.board_rule.specs.Known.{Known, IsLoopSeat};

    ghost Value = { Known };

    ghost view = { λ s. record { table = s.token.table_id; knows = s.token.me.0 } };

    ghost invariant = { λ s. IsLoopSeat s.token.me.0 s.nodes.items s.writes.items s.reads.items
        s.blocks.items
        s.woke };
}

impl LoopSeat {
    // What is kept of one of the seat's followers, by index.
    pub(crate) fn node_at(&self, board: &Board, at: usize) -> NodeProgress
        requires { Has (layout board.now) self.now.knows at }
        ensures { result ≡ progress_of (node_of self.now.knows at) }
    {
        self.nodes[board.node_slot(at)]
    }

    // The reader's end of a link into one of them.
    fn read_at(&self, board: &Board, link: u32) -> ReadView
        requires { HasReader (layout board.now) self.now.knows link }
        ensures { result ≡ read_of self.now.knows link }
    {
        self.reads[board.read_slot(link)]
    }
}

impl BoardSeat for LoopSeat {
    ghost use Rattle.std.specs.Prelude.{false};

    ghost is_driver = { false };

    ghost table = { λ s. s.table };

    ghost knows = { λ s. s.knows };

    fn ended(&self, board: &Board, node: u32) -> u32 {
        let at = board.index_of(node);
        board.past(self.node_at(board, at).next)
    }

    fn woke(&self) -> u64 {
        self.woke
    }

    fn lower_pending(&mut self, board: &Board, node: u32) -> u64 {
        let at = board.index_of(node);
        let slot = board.node_slot(at);
        let told = self.node_at(board, at).told;
        let target = board.target(at, told);
        let found = activation::lower::<Brand>(board, &mut self.token, at, target);
        let kept = &mut self.nodes[slot];
        settle(kept, board.targets_at(at), told + 1, found == 1);
        self.woke = wake(board, self.woke, target, found);
        found
    }

    fn store_triggered(&mut self, board: &Board, node: u32) {
        let at = board.index_of(node);
        let slot = board.node_slot(at);
        let before = self.node_at(board, at);
        let target = board.target(at, before.told - 1);
        let cycle = board.cycle(before.next);
        activation::trigger::<Brand>(board, &mut self.token, at, target, cycle);
        let kept = &mut self.nodes[slot];
        settle(kept, board.targets_at(at), before.told, false);
    }

    fn exchange_awake(&mut self, board: &Board, node: u32) -> u64 {
        let at = board.index_of(node);
        let cycle = board.cycle(self.node_at(board, at).next);
        activation::claim::<Brand>(board, &mut self.token, at, cycle)
    }

    fn store_finished(&mut self, board: &Board, node: u32) {
        let at = board.index_of(node);
        let slot = board.node_slot(at);
        let cycle = board.cycle(self.node_at(board, at).next);
        activation::finish::<Brand>(board, &mut self.token, at, cycle);
        let kept = &mut self.nodes[slot];
        finish(kept);
        self.woke = 0;
    }

    fn draw_ticket(&mut self, board: &Board, node: u32) -> u64 {
        let at = board.index_of(node);
        let slot = board.node_slot(at);
        let ticket = event::draw::<Brand>(board, &mut self.token, at);
        let kept = &mut self.nodes[slot];
        draw(kept, ticket);
        ticket
    }

    fn store_event(&mut self, board: &Board, node: u32) {
        let at = board.index_of(node);
        let before = self.node_at(board, at);
        let new = node_event(before.ends, board.cycle(before.next), node);
        event::store::<Brand>(board, &mut self.token, at, ticket_held(before), &new);
    }

    fn loaded(&self, board: &Board, link: u32) -> u32 {
        self.read_at(board, link).id
    }

    #[inline]
    fn load_io_as_reader(&mut self, board: &Board, link: u32) -> u64 {
        let slot = board.read_slot(link);
        let end = self.read_at(board, link);
        let cycle = self.node_at(board, board.reader(link)).next;
        let found = reading::load_area::<Brand>(board, &mut self.token, link, cycle);
        self.reads[slot] = ReadView {
            loaded: cycle + 1,
            lowered: end.lowered,
            stored: end.stored,
            id: io_id_of(found),
        };
        found
    }

    #[inline]
    fn load_sample_at(
        &mut self,
        board: &Board,
        link: u32,
        id: u32,
        place: u32,
        first: usize,
    ) -> u64 {
        let word = board.link_sample_word_at(link, id, place, first);
        reading::load_sample::<Brand>(board, &mut self.token, link, id, place, word)
    }

    #[inline]
    fn lower_readers(&mut self, board: &Board, link: u32, id: u32) -> u64 {
        let slot = board.read_slot(link);
        let end = self.read_at(board, link);
        let cycle = self.node_at(board, board.reader(link)).next;
        let found = reading::lower_readers::<Brand>(board, &mut self.token, link, id);
        self.reads[slot] = ReadView {
            loaded: end.loaded,
            lowered: cycle + 1,
            stored: end.stored,
            id: end.id,
        };
        found
    }

    #[inline]
    fn store_need_data(&mut self, board: &Board, link: u32, id: u32) {
        let slot = board.read_slot(link);
        let end = self.read_at(board, link);
        let cycle = self.node_at(board, board.reader(link)).next;
        reading::store_need::<Brand>(board, &mut self.token, link, cycle, id);
        self.reads[slot] = ReadView {
            loaded: end.loaded,
            lowered: end.lowered,
            stored: cycle + 1,
            id: end.id,
        };
    }
}
