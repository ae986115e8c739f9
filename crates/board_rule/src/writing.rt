//! The steps on buffers of a loop's seat whose node writes. Each is one sequentially consistent
//! operation on one word; it takes no memory, does not wait and does not fail. Links, pools and
//! blocks are given by number.
ghost use Rattle.board_rule.specs.OnBoard.{IsOn, layout};
ghost use Rattle.std.specs.Prelude.{◌≡◌, ℕ, ◌<◌};
ghost use Rattle.pw_graph.specs.Words.{io_id_in, need_data_word};
ghost use Rattle.pw_graph.specs.Layout.{sample_place};
ghost use Rattle.board_rule.specs.buffers.EndViews.{write_of, pool_at, block_of};
ghost use Rattle.board_rule.specs.buffers.BufferReads.{HasPool, IsFilled, is_filled, IsFirstFilled, older};
ghost use Rattle.board_rule.specs.working.Slots.{HasWriter};
ghost use Rattle.board_rule.specs.buffers.WriterSteps.{LoadsAsWriter, loaded_as_writer, IsGivenBack, StoresHave, have_stored};
ghost use Rattle.board_rule.specs.buffers.BlockSteps.{StoresSample, sample_stored, StoresReaders, readers_stored};
ghost use Rattle.board_rule.specs.buffers.ReclaimSteps.{LoadsReaders, FindsDue, readers_loaded, IsOldestOfAny};

use crate::board::Board;
use crate::loop_seat::LoopSeat;
use crate::steps::writing;
use crate::view::{BlockView, WriteView};
use std::marker::Brand;

impl LoopSeat {
    // The writer's end of a link from one of the seat's followers.
    fn write_at(&self, board: &Board, link: u32) -> WriteView
        requires { HasWriter (layout board.now) self.now.knows link }
        ensures { result ≡ write_of self.now.knows link }
    {
        self.writes[board.write_slot(link)]
    }
}

impl LoopSeat {
    /// Loads the area of a link whose writer works, once in its cycle. The word asks for data; its
    /// number is the one that the reader gave back, and `NO_BLOCK` exactly in the first cycle of
    /// the epoch.
    #[inline]
    pub fn load_io_as_writer(&mut self, board: &Board, link: u32) -> u64
        requires table { IsOn board.now self.old.table }
        requires phase { LoadsAsWriter (layout board.now) self.old.knows link }
        ensures table { self.new.table ≡ self.old.table }
        ensures knows { self.new.knows ≡ loaded_as_writer (layout board.now) self.old.knows link }
        ensures word { result ≡ need_data_word (io_id_in result) }
        ensures given { IsGivenBack (layout board.now) self.old.knows link (io_id_in result) }
    {
        let slot = board.write_slot(link);
        let end = self.write_at(board, link);
        let cycle = self.node_at(board, board.writer(link)).next;
        let found = writing::load_area::<Brand>(board, &mut self.token, link, cycle + 1);
        self.writes[slot] = WriteView {
            loaded: cycle + 1,
            stored: end.stored,
            id: end.id,
            last: end.last,
        };
        found
    }

    /// Stores HAVE_DATA with the number of the block that was announced in this cycle, which ends
    /// the writer's turn.
    #[inline]
    pub fn store_have_data(&mut self, board: &Board, link: u32, id: u32)
        requires table { IsOn board.now self.old.table }
        requires phase { StoresHave (layout board.now) self.old.knows link id }
        ensures table { self.new.table ≡ self.old.table }
        ensures knows { self.new.knows ≡ have_stored (layout board.now) self.old.knows link id }
    {
        let slot = board.write_slot(link);
        let end = self.write_at(board, link);
        let cycle = self.node_at(board, board.writer(link)).next;
        writing::store_have::<Brand>(board, &mut self.token, link, cycle + 1, id);
        self.writes[slot] = WriteView {
            loaded: end.loaded,
            stored: cycle + 1,
            id,
            last: end.id,
        };
    }

    /// Reclaims a pool, once in each cycle of its node but the first, when all its links are
    /// loaded: loads the readers word of the block that has been out longest (`oldest_out`). It was
    /// announced a cycle ago, in a pool with a delayed link two, and the readers gave its number
    /// back. The word is 0, and the block is free then.
    #[inline]
    pub fn load_readers(&mut self, board: &Board, pool: u32, id: u32) -> u64
        requires table { IsOn board.now self.old.table }
        requires phase { LoadsReaders (layout board.now) self.old.knows pool id }
        ensures table { self.new.table ≡ self.old.table }
        ensures knows { self.new.knows
            ≡ readers_loaded (layout board.now) self.old.knows pool id result }
        ensures word { result ≡ 0 }
        ensures due { FindsDue (layout board.now) self.old.knows pool id }
    {
        let at = board.block_slot(pool as usize, id);
        let found = writing::load_readers::<Brand>(board, &mut self.token, pool as usize, id);
        self.blocks[at] = BlockView::Free;
        found
    }

    /// Stores the next sample word of a block, four samples of this cycle. `first` is where the
    /// first sample word of the block is (`Board::first_sample`).
    #[inline]
    pub fn store_sample_at(
        &mut self,
        board: &Board,
        pool: u32,
        id: u32,
        place: u32,
        first: usize,
        word: u64,
    )
        requires table { IsOn board.now self.old.table }
        requires phase { StoresSample (layout board.now) self.old.knows pool id place word }
        requires first { first ≡ sample_place board.now.board_shape.shape pool id 0 }
        ensures table { self.new.table ≡ self.old.table }
        ensures knows { self.new.knows
            ≡ sample_stored (layout board.now) self.old.knows pool id place }
    {
        let at = board.block_slot(pool as usize, id);
        let to = board.sample_word_at(pool as usize, id, place, first);
        writing::store_sample::<Brand>(board, &mut self.token, pool as usize, id, place, to, word);
        self.blocks[at] = BlockView::Filling {
            words: u64::from(place) + 1,
        };
    }

    /// Stores the number of the pool's links in the readers word of a block that is filled whole:
    /// it is announced.
    #[inline]
    pub fn store_readers(&mut self, board: &Board, pool: u32, id: u32)
        requires table { IsOn board.now self.old.table }
        requires phase { StoresReaders (layout board.now) self.old.knows pool id }
        ensures table { self.new.table ≡ self.old.table }
        ensures knows { self.new.knows
            ≡ readers_stored (layout board.now) self.old.knows pool id }
    {
        let at = board.block_slot(pool as usize, id);
        let cycle = self.node_at(board, board.filler(pool as usize)).next;
        writing::store_readers::<Brand>(board, &mut self.token, pool as usize, id);
        self.blocks[at] = BlockView::Out { stamp: cycle + 1 };
    }
}

impl LoopSeat {
    // A block of a pool.
    fn view_of(&self, board: &Board, pool: u32, id: u32) -> BlockView
        requires pool { HasPool (layout board.now) self.now.knows pool }
        requires block { id < (pool_at (layout board.now) pool).blocks }
        ensures { result ≡ block_of (layout board.now) self.now.knows pool id }
    {
        self.blocks[board.block_slot(pool as usize, id)]
    }

    /// The number of the block that was filled whole in this cycle, announced or not. Condition:
    /// there is one.
    pub fn filled(&self, board: &Board, pool: u32) -> u32
        requires pool { HasPool (layout board.now) self.now.knows pool }
        requires some { let p = layout board.now in
            ((b : ℕ) × (b < (pool_at p pool).blocks) × IsFilled p self.now.knows pool b) }
        ensures { IsFirstFilled (layout board.now) self.now.knows pool result }
    {
        let words = board.block_words(pool);
        let stamp = self.node_at(board, board.filler(pool as usize)).next + 1;
        for id in 0..board.block_count(pool) {
            if is_filled(self.view_of(board, pool, id), words, stamp) {
                return id;
            }
        }
        0
    }

    /// The number of the block that has been out longest; 0 where no block is out.
    pub fn oldest_out(&self, board: &Board, pool: u32) -> u32
        requires pool { HasPool (layout board.now) self.now.knows pool }
        ensures inside { result < (pool_at (layout board.now) pool).blocks }
        ensures oldest { IsOldestOfAny (layout board.now) self.now.knows pool result }
    {
        let mut oldest = None;
        for id in 0..board.block_count(pool) {
            oldest = older(oldest, id, self.view_of(board, pool, id));
        }
        match oldest {
            Some((id, _)) => id,
            None => 0,
        }
    }
}

// Whether a block is filled with all its words, or was announced in the cycle before the stamp.
fn is_filled(block: BlockView, words: u32, stamp: u64) -> bool
    ensures { result ≡ is_filled words stamp block }
{
    match block {
        BlockView::Free => false,
        BlockView::Filling { words: filled } => filled == u64::from(words),
        BlockView::Out { stamp: announced } => announced == stamp,
    }
}

// The block that is out longest of those before it and of this one.
fn older(before: Option<(u32, u64)>, id: u32, block: BlockView) -> Option<(u32, u64)>
    ensures { result ≡ older before id block }
{
    let BlockView::Out { stamp } = block else {
        return before;
    };
    match before {
        Some((_, least)) if least <= stamp => before,
        _ => Some((id, stamp)),
    }
}
