//! The calls of a node that reads.
ghost use Rattle.board_rule.specs.OnBoard.{IsOn, layout};
ghost use Rattle.std.specs.Prelude.{◌≡◌, ℕ, ◌+◌, ◌/◌, ◌<◌, length};
ghost use Rattle.pw_graph.specs.Pools.{pools_of};
ghost use Rattle.pw_graph.specs.Layout.{sample_place};
ghost use Rattle.board_rule.specs.buffers.EndViews.{pool_at, pool_of};
ghost use Rattle.board_rule.specs.buffers.ReaderSteps.{LoadsAsReader, IsZeroAtFirst, IsOfThisCycle};
ghost use Rattle.io_areas.specs.Quanta.{quantum_of};
ghost use Rattle.io_areas.specs.Reading.{taken, IsHolding, all_loaded, brought, IsClamped, GivesBack, given_back};

use crate::sample_words::{spread, spread_rest};
use board_rule::{Board, BoardSeat};
use pw_graph::io_id_of;

/// The link's reader takes its turn in this cycle, which it has not yet done: one load of the io
/// area. Answers the number of the block whose reading cycle this is; over a delayed link that is 0
/// in the epoch's first cycle.
#[inline]
pub fn take<S: BoardSeat>(board: &Board, seat: &mut S, link: u32) -> u32
    requires table { IsOn board.now (S.table seat.old) }
    requires phase { LoadsAsReader S.is_driver (layout board.now) (S.knows seat.old) link }
    ensures table { S.table seat.new ≡ S.table seat.old }
    ensures knows { S.knows seat.new
        ≡ taken S.is_driver (layout board.now) (S.knows seat.old) link result }
    ensures inside { let p = layout board.now in result < (pool_at p (pool_of p link)).blocks }
    ensures first { IsZeroAtFirst S.is_driver (layout board.now) (S.knows seat.old) link result }
    ensures cycle { IsOfThisCycle S.is_driver (layout board.now) (S.knows seat.old) link result }
{
    io_id_of(seat.load_io_as_reader(board, link))
}

// How many words a block of the link's pool has: four samples a word.
fn words_of(board: &Board, link: u32) -> u32
    requires { link < length (layout board.now).shape.links }
    ensures is { let p = layout board.now in result ≡ (pool_at p (pool_of p link)).words }
    ensures quantum { let p = layout board.now in
        result ≡ (quantum_of p (pool_of p link) + 3) / 4 }
    ensures some { 0 < result }
    ensures inside { let p = layout board.now in pool_of p link < length (pools_of p.shape) }
{
    let pool = board.link_pool(link);
    board.block_words(pool)
}

// Where the first sample word of a block of the link's pool is.
fn first_of(board: &Board, link: u32, id: u32) -> usize
    requires inside { link < length (layout board.now).shape.links }
    requires block { let p = layout board.now in id < (pool_at p (pool_of p link)).blocks }
    ensures { let p = layout board.now in result ≡ sample_place p.shape (pool_of p link) id 0 }
{
    let pool = board.link_pool(link);
    board.first_sample(pool, id)
}

/// Reads the block that is taken: `to`, which is one quantum of the link's pool long, becomes its
/// samples, frames interleaved.
/// One load a word of four samples, in their order: first the whole words, then the one that is
/// left.
#[inline]
pub fn read<S: BoardSeat>(board: &Board, seat: &mut S, link: u32, to: &mut [i16])
    requires table { IsOn board.now (S.table seat.old) }
    requires phase { IsHolding S.is_driver (layout board.now) (S.knows seat.old) link }
    requires long { let p = layout board.now in length to.old ≡ quantum_of p (pool_of p link) }
    ensures table { S.table seat.new ≡ S.table seat.old }
    ensures knows { S.knows seat.new
        ≡ all_loaded S.is_driver (layout board.now) (S.knows seat.old) link }
    ensures samples { to.new ≡ brought S.is_driver (layout board.now) (S.knows seat.old) link }
    ensures clamped { IsClamped to.new }
{
    let id = seat.loaded(board, link);
    let first = first_of(board, link, id);
    let words = words_of(board, link);
    let whole = (to.len() / 4) as u32;
    for place in 0..whole {
        let word = seat.load_sample_at(board, link, id, place, first);
        spread(word, place, to);
    }
    if whole < words {
        let last = seat.load_sample_at(board, link, id, whole, first);
        spread_rest(last, whole, to);
    }
}

/// Gives the block back, which was read whole: the readers word is lowered by one, and then
/// NEED_DATA is stored with the block's number.
#[inline]
pub fn give_back<S: BoardSeat>(board: &Board, seat: &mut S, link: u32)
    requires table { IsOn board.now (S.table seat.old) }
    requires phase { GivesBack S.is_driver (layout board.now) (S.knows seat.old) link }
    ensures table { S.table seat.new ≡ S.table seat.old }
    ensures knows { S.knows seat.new
        ≡ given_back S.is_driver (layout board.now) (S.knows seat.old) link }
{
    let id = seat.loaded(board, link);
    seat.lower_readers(board, link, id);
    seat.store_need_data(board, link, id);
}
