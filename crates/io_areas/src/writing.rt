//! The calls of a node that writes: it fills one block of each of its pools in a cycle, for all
//! links of the pool.
ghost use Rattle.board_rule.specs.OnBoard.{IsOn, layout};
ghost use Rattle.std.specs.Prelude.{◌≡◌, ℕ, ◌<◌, IfSome, length};
ghost use Rattle.board_rule.specs.buffers.EndViews.{link_at, pool_at, pool_of};
ghost use Rattle.board_rule.specs.buffers.WriterSteps.{LoadsAsWriter, loaded_as_writer};
ghost use Rattle.io_areas.specs.Writing.{number_given, Reclaims, HasReclaimed, Fills, filled_whole, Announces, HasAnnounced, Publishes};
ghost use Rattle.io_areas.specs.Writing.{HasPublished};

use crate::sample_words::pack;
use board_rule::{Board, BoardSeat, LoopSeat};
use pw_graph::io_id_of;

// The node that a link begins at.
fn writer(board: &Board, link: u32) -> u32
    requires { link < length (layout board.now).shape.links }
    ensures { result ≡ (link_at (layout board.now) link).from.node }
{
    board.shape().links.as_slice()[link as usize].from.node
}

/// The link's writer takes its turn in this cycle, which it has not yet done: one load of the io
/// area. None exactly in the first cycle of the epoch, else the number of the block that the reader
/// gave back.
#[inline]
pub fn load_for_write(board: &Board, seat: &mut LoopSeat, link: u32) -> Option<u32>
    requires table { IsOn board.now seat.old.table }
    requires phase { LoadsAsWriter (layout board.now) seat.old.knows link }
    ensures table { seat.new.table ≡ seat.old.table }
    ensures knows { seat.new.knows ≡ loaded_as_writer (layout board.now) seat.old.knows link }
    ensures given { result ≡ number_given (layout board.now) seat.old.knows link }
    ensures inside { let p = layout board.now in
        IfSome result (λ id. id < (pool_at p (pool_of p link)).blocks) }
{
    let node = writer(board, link);
    let past = seat.ended(board, node);
    let word = seat.load_io_as_writer(board, link);
    if past == 0 {
        None
    } else {
        Some(io_id_of(word))
    }
}

/// The pool has a free block again: one load of the readers word of the block that is due, which is
/// 0. None exactly in the first cycle of the epoch, where no word is loaded, else the number of
/// that block, which was announced in the cycle before, in a pool with a delayed link two cycles
/// before; in the second cycle of such a pool it is 0.
#[inline]
pub fn reclaim(board: &Board, seat: &mut LoopSeat, pool: u32) -> Option<u32>
    requires table { IsOn board.now seat.old.table }
    requires phase { Reclaims (layout board.now) seat.old.knows pool }
    ensures table { seat.new.table ≡ seat.old.table }
    ensures reclaimed { HasReclaimed (layout board.now) seat.old.knows pool result seat.new.knows }
{
    let node = board.pool_node(pool);
    let past = seat.ended(board, node);
    if past == 0 {
        return None;
    }
    let id = seat.oldest_out(board, pool);
    seat.load_readers(board, pool, id);
    Some(id)
}

/// Fills a free block with the samples that the pool gives in this cycle, one quantum, frames
/// interleaved: one store a word of four samples, in their order.
#[inline]
pub fn fill(board: &Board, seat: &mut LoopSeat, pool: u32, id: u32, samples: &[i16])
    requires table { IsOn board.now seat.old.table }
    requires phase { Fills (layout board.now) seat.old.knows pool id samples.now }
    ensures table { seat.new.table ≡ seat.old.table }
    ensures knows { seat.new.knows ≡ filled_whole (layout board.now) seat.old.knows pool id }
{
    let first = board.first_sample(pool, id);
    for place in 0..board.block_words(pool) {
        let word = pack(samples, place);
        seat.store_sample_at(board, pool, id, place, first, word);
    }
}

/// Announces the block that was filled in this cycle: one store of the number of the pool's links
/// in its readers word.
#[inline]
pub fn announce(board: &Board, seat: &mut LoopSeat, pool: u32)
    requires table { IsOn board.now seat.old.table }
    requires phase { Announces (layout board.now) seat.old.knows pool }
    ensures table { seat.new.table ≡ seat.old.table }
    ensures announced { HasAnnounced (layout board.now) seat.old.knows pool seat.new.knows }
{
    let id = seat.filled(board, pool);
    seat.store_readers(board, pool, id);
}

/// Publishes the block that was announced in this cycle on a link of its pool: one store of
/// HAVE_DATA with its number.
#[inline]
pub fn publish(board: &Board, seat: &mut LoopSeat, link: u32)
    requires table { IsOn board.now seat.old.table }
    requires phase { Publishes (layout board.now) seat.old.knows link }
    ensures table { seat.new.table ≡ seat.old.table }
    ensures published { HasPublished (layout board.now) seat.old.knows link seat.new.knows }
{
    let pool = board.link_pool(link);
    let id = seat.filled(board, pool);
    seat.store_have_data(board, link, id);
}
