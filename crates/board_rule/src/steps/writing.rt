//! The atomic steps of a writer on areas and blocks. Links, pools and blocks are given by number;
//! `C` is what the step gives its seat to know.
ghost use Rattle.board_rule.specs.OnBoard.{IsOn, layout};
ghost use Rattle.std.specs.Prelude.{◌≡◌, ℕ, ◌+◌, ◌<◌, length};
ghost use Rattle.pw_graph.specs.Pools.{pools_of};
ghost use Rattle.pw_graph.specs.Words.{io_id_in, have_data_word, need_data_word};
ghost use Rattle.pw_graph.specs.Layout.{sample_place};
ghost use Rattle.board_rule.specs.buffers.EndViews.{pool_at};
ghost use Rattle.board_rule.specs.buffers.WriterSteps.{write_cycle, LoadsAsWriter, loaded_as_writer, IsGivenBack, StoresHave, have_stored};
ghost use Rattle.board_rule.specs.buffers.BlockSteps.{StoresSample, sample_stored, StoresReaders, readers_stored};
ghost use Rattle.board_rule.specs.buffers.ReclaimSteps.{LoadsReaders, FindsDue, readers_loaded};

use crate::board::Board;
use crate::rule::BoardToken;
use crate::steps::change::{Becomes, Change, Learned};
use pw_graph::{AreaStatus, io_word};

/// Loads the area of a link as its writer.
#[inline]
pub(crate) fn load_area<C: Change>(
    board: &Board,
    token: &mut BoardToken,
    link: u32,
    stamp: u64,
) -> u64
    requires table { IsOn board.now token.old.table_id }
    requires phase { LoadsAsWriter (layout board.now) token.old.me.0 link }
    requires stamp { stamp ≡ write_cycle (layout board.now) token.old.me.0 link + 1 }
    requires inside { link < length board.now.board_shape.shape.links }
    requires after { (found : ℕ)
        → C.after found ≡ loaded_as_writer (layout board.now) token.old.me.0 link }
    requires says { (found : ℕ) → found ≡ need_data_word (io_id_in found)
        → IsGivenBack (layout board.now) token.old.me.0 link (io_id_in found) → C.says found }
    ensures same { (token.new.table_id ≡ token.old.table_id) × (token.new.id ≡ token.old.id)
        × (token.new.me.1 ≡ token.old.me.1) }
    ensures after { token.new.me.0 ≡ C.after result }
    ensures says { C.says result }
{
    let word = board.area_word(link, stamp);
    board.table.shared.load::<Learned<C>>(token, word)
}

/// Stores HAVE_DATA with the number of a block in the area of a link.
#[inline]
pub(crate) fn store_have<C: Change>(
    board: &Board,
    token: &mut BoardToken,
    link: u32,
    stamp: u64,
    id: u32,
)
    requires table { IsOn board.now token.old.table_id }
    requires phase { StoresHave (layout board.now) token.old.me.0 link id }
    requires stamp { stamp ≡ write_cycle (layout board.now) token.old.me.0 link + 1 }
    requires inside { link < length board.now.board_shape.shape.links }
    requires after { (found : ℕ)
        → C.after found ≡ have_stored (layout board.now) token.old.me.0 link id }
    ensures same { (token.new.table_id ≡ token.old.table_id) × (token.new.id ≡ token.old.id)
        × (token.new.me.1 ≡ token.old.me.1) }
    ensures after { token.new.me.0 ≡ C.after (have_data_word id) }
{
    let word = board.area_word(link, stamp);
    let new = io_word(AreaStatus::HaveData.number(), id);
    board.table.shared.store::<Becomes<C>>(token, word, new);
}

/// Loads the readers word of a block.
#[inline]
pub(crate) fn load_readers<C: Change>(
    board: &Board,
    token: &mut BoardToken,
    pool: usize,
    id: u32,
) -> u64
    requires table { IsOn board.now token.old.table_id }
    requires phase { LoadsReaders (layout board.now) token.old.me.0 pool id }
    requires inside { pool < length (pools_of board.now.board_shape.shape) }
    requires block { id < (pool_at (layout board.now) pool).blocks }
    requires after { (found : ℕ) → C.after found
        ≡ readers_loaded (layout board.now) token.old.me.0 pool id found }
    requires says { (found : ℕ) → found ≡ 0
        → FindsDue (layout board.now) token.old.me.0 pool id → C.says found }
    ensures same { (token.new.table_id ≡ token.old.table_id) × (token.new.id ≡ token.old.id)
        × (token.new.me.1 ≡ token.old.me.1) }
    ensures after { token.new.me.0 ≡ C.after result }
    ensures says { C.says result }
{
    let word = board.readers_word(pool, id);
    board.table.shared.load::<Learned<C>>(token, word)
}

/// Stores a sample word of a block.
#[inline]
pub(crate) fn store_sample<C: Change>(
    board: &Board,
    token: &mut BoardToken,
    pool: usize,
    id: u32,
    place: u32,
    word: usize,
    new: u64,
)
    requires table { IsOn board.now token.old.table_id }
    requires phase { StoresSample (layout board.now) token.old.me.0 pool id place new }
    requires inside { pool < length (pools_of board.now.board_shape.shape) }
    requires block { id < (pool_at (layout board.now) pool).blocks }
    requires place { place < (pool_at (layout board.now) pool).words }
    requires word { word ≡ sample_place board.now.board_shape.shape pool id place }
    requires there { word < board.now.table.shared.table_id.words }
    requires after { (found : ℕ) → C.after found
        ≡ sample_stored (layout board.now) token.old.me.0 pool id place }
    ensures same { (token.new.table_id ≡ token.old.table_id) × (token.new.id ≡ token.old.id)
        × (token.new.me.1 ≡ token.old.me.1) }
    ensures after { token.new.me.0 ≡ C.after new }
{
    board.table.shared.store::<Becomes<C>>(token, word, new);
}

/// Stores the number of a pool's links in the readers word of a block.
#[inline]
pub(crate) fn store_readers<C: Change>(board: &Board, token: &mut BoardToken, pool: usize, id: u32)
    requires table { IsOn board.now token.old.table_id }
    requires phase { StoresReaders (layout board.now) token.old.me.0 pool id }
    requires inside { pool < length (pools_of board.now.board_shape.shape) }
    requires block { id < (pool_at (layout board.now) pool).blocks }
    requires after { (found : ℕ) → C.after found
        ≡ readers_stored (layout board.now) token.old.me.0 pool id }
    ensures same { (token.new.table_id ≡ token.old.table_id) × (token.new.id ≡ token.old.id)
        × (token.new.me.1 ≡ token.old.me.1) }
    ensures after { token.new.me.0 ≡ C.after (length (pool_at (layout board.now) pool).links) }
{
    let word = board.readers_word(pool, id);
    let new = board.readers(pool);
    board.table.shared.store::<Becomes<C>>(token, word, new);
}
