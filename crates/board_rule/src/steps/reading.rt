//! The atomic steps of a reader on areas and blocks. Links, pools and blocks are given by number;
//! `C` is what the step gives its seat to know.
ghost use Rattle.board_rule.specs.OnBoard.{IsOn, layout};
ghost use Rattle.std.specs.Prelude.{◌≡◌, ℕ, ◌<◌, length};
ghost use Rattle.pw_graph.specs.Pools.{pools_of};
ghost use Rattle.pw_graph.specs.Words.{need_data_word};
ghost use Rattle.pw_graph.specs.Layout.{sample_place};
ghost use Rattle.board_rule.specs.buffers.SampleWords.{IsTable, packed};
ghost use Rattle.board_rule.specs.buffers.EndViews.{pool_at, pool_of};
ghost use Rattle.board_rule.specs.buffers.ReaderSteps.{read_cycle, LoadsAsReader, loaded_as_reader, IsPublished, LoadsSample, sample_loaded, LowersReaders};
ghost use Rattle.board_rule.specs.buffers.ReaderSteps.{readers_lowered, samples_read};
ghost use Rattle.board_rule.specs.buffers.ReaderSteps.{StoresNeed, need_stored};

use crate::board::Board;
use crate::rule::BoardToken;
use crate::steps::change::{Becomes, Change, Learned};
use pw_graph::{AreaStatus, io_word};

/// Loads the area of a link as its reader.
#[inline]
pub(crate) fn load_area<C: Change>(
    board: &Board,
    token: &mut BoardToken,
    link: u32,
    stamp: u64,
) -> u64
    requires table { IsOn board.now token.old.table_id }
    requires phase { LoadsAsReader C.is_driver (layout board.now) token.old.me.0 link }
    requires stamp { stamp ≡ read_cycle C.is_driver (layout board.now) token.old.me.0 link }
    requires inside { link < length board.now.board_shape.shape.links }
    requires after { (found : ℕ) → C.after found
        ≡ loaded_as_reader C.is_driver (layout board.now) token.old.me.0 link found }
    requires says { (found : ℕ)
        → IsPublished C.is_driver (layout board.now) token.old.me.0 link found
        → C.says found }
    ensures same { (token.new.table_id ≡ token.old.table_id) × (token.new.id ≡ token.old.id)
        × (token.new.me.1 ≡ token.old.me.1) }
    ensures after { token.new.me.0 ≡ C.after result }
    ensures says { C.says result }
{
    let word = board.area_word(link, stamp);
    board.table.shared.load::<Learned<C>>(token, word)
}

/// Loads a sample word of the block that the link's reader has.
#[inline]
pub(crate) fn load_sample<C: Change>(
    board: &Board,
    token: &mut BoardToken,
    link: u32,
    id: u32,
    place: u32,
    word: usize,
) -> u64
    requires table { IsOn board.now token.old.table_id }
    requires phase { LoadsSample C.is_driver (layout board.now) token.old.me.0 link id place }
    requires inside { link < length board.now.board_shape.shape.links }
    requires block { id < (pool_at (layout board.now) (pool_of (layout board.now) link)).blocks }
    requires place { place < (pool_at (layout board.now) (pool_of (layout board.now) link)).words }
    requires word { word ≡ sample_place board.now.board_shape.shape
        (pool_of (layout board.now) link) id place }
    requires there { word < board.now.table.shared.table_id.words }
    requires after { (found : ℕ)
        → C.after found ≡ sample_loaded C.is_driver
        (layout board.now) token.old.me.0 link place }
    requires says { (found : ℕ) → found ≡ packed
        (samples_read C.is_driver (layout board.now) token.old.me.0 link) place
        → IsTable (layout board.now) token.old.me.0.expect → C.says found }
    ensures same { (token.new.table_id ≡ token.old.table_id) × (token.new.id ≡ token.old.id)
        × (token.new.me.1 ≡ token.old.me.1) }
    ensures after { token.new.me.0 ≡ C.after result }
    ensures says { C.says result }
{
    board.table.shared.load::<Learned<C>>(token, word)
}

/// Lowers the readers word of that block.
#[inline]
pub(crate) fn lower_readers<C: Change>(
    board: &Board,
    token: &mut BoardToken,
    link: u32,
    id: u32,
) -> u64
    requires table { IsOn board.now token.old.table_id }
    requires phase { LowersReaders C.is_driver (layout board.now) token.old.me.0 link id }
    requires inside { link < length board.now.board_shape.shape.links }
    requires block { id < (pool_at (layout board.now) (pool_of (layout board.now) link)).blocks }
    requires after { (found : ℕ) → C.after found
        ≡ readers_lowered C.is_driver (layout board.now) token.old.me.0 link }
    requires says { (found : ℕ) → 0 < found → C.says found }
    ensures same { (token.new.table_id ≡ token.old.table_id) × (token.new.id ≡ token.old.id)
        × (token.new.me.1 ≡ token.old.me.1) }
    ensures after { token.new.me.0 ≡ C.after result }
    ensures says { C.says result }
{
    let word = board.link_readers_word(link, id);
    board.table.shared.fetch_sub::<Learned<C>>(token, word, 1)
}

/// Stores NEED_DATA with the number of a block in the area of a link.
#[inline]
pub(crate) fn store_need<C: Change>(
    board: &Board,
    token: &mut BoardToken,
    link: u32,
    stamp: u64,
    id: u32,
)
    requires table { IsOn board.now token.old.table_id }
    requires phase { StoresNeed C.is_driver (layout board.now) token.old.me.0 link id }
    requires stamp { stamp ≡ read_cycle C.is_driver (layout board.now) token.old.me.0 link }
    requires inside { link < length board.now.board_shape.shape.links }
    requires after { (found : ℕ) → C.after found
        ≡ need_stored C.is_driver (layout board.now) token.old.me.0 link }
    ensures same { (token.new.table_id ≡ token.old.table_id) × (token.new.id ≡ token.old.id)
        × (token.new.me.1 ≡ token.old.me.1) }
    ensures after { token.new.me.0 ≡ C.after (need_data_word id) }
{
    let word = board.area_word(link, stamp);
    let new = io_word(AreaStatus::NeedData.number(), id);
    board.table.shared.store::<Becomes<C>>(token, word, new);
}
