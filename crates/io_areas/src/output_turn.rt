//! The turn of a node on a pool that it fills: one block for all links of the pool.
ghost use Rattle.board_rule.specs.OnBoard.{IsOn, layout};
ghost use Rattle.std.specs.Prelude.{◌≡◌, ◌≢◌, ◌+◌, ◌<◌, All, AllPairs, ◌∷◌, ◌++◌, length, option_to_list};
ghost use Rattle.board_rule.specs.declared.view.BlockView.TheVariants.{Free, Out};
ghost use Rattle.board_rule.specs.buffers.EndViews.{pool_at, block_of, view_block};
ghost use Rattle.board_rule.specs.buffers.SampleWords.{samples_in};
ghost use Rattle.board_rule.specs.buffers.WriterSteps.{LoadsAsWriter, StoresHave};
ghost use Rattle.board_rule.specs.buffers.BlockSteps.{IsWriting, fill_cycle};
ghost use Rattle.io_areas.specs.Writing.{number_given, IsAtPool, IsUnfilled, Reclaims, HasReclaimed};
ghost use Rattle.io_areas.specs.PooledBoard.{IsPooledBoard};
ghost use Rattle.io_areas.specs.FreeBlocks.{FreeBlocks};
ghost use Rattle.io_areas.specs.OutputTurn.{MayWriteOutput, HasWrittenOutput};
ghost use Rattle.io_areas.specs.working.OutputSteps.{AreMade, IsLoadedNow, IsPublishedNow};
ghost use Rattle.io_areas.specs.OutputAnswer.{last_of, AnswersTurn};

use crate::pool::Pool;
use crate::writing::{fill, load_for_write, reclaim};
use board_rule::{Board, LoopSeat};

/// What a turn found and used.
#[derive(Clone, Copy, Drop)]
pub struct OutputWritten {
    /// The number that the reader of the last link gave back. None exactly in the first cycle.
    pub given: Option<u32>,
    /// The block that came back and is free again: the one of the cycle before, in a pool with a
    /// delayed link of two cycles before. None exactly in the first cycle of the epoch.
    pub reclaimed: Option<u32>,
    /// The block that was filled, announced and published.
    pub used: u32,
}

// Each of the links is loaded. Answers what the reader of the last one gave back.
fn load_all(board: &Board, seat: &mut LoopSeat, links: &[u32]) -> Option<u32>
    requires table { IsOn board.now seat.old.table }
    requires some { 0 < length links.now }
    requires once { AllPairs (λ k l. k ≢ l) links.now }
    requires phase { All (LoadsAsWriter (layout board.now) seat.old.knows) links.now }
    ensures table { seat.new.table ≡ seat.old.table }
    ensures ends { let p = layout board.now in
        AreMade (IsLoadedNow p seat.old.knows) seat.old.knows links.now seat.new.knows }
    ensures given { result ≡ number_given (layout board.now) seat.old.knows (last_of links.now) }
{
    let mut given = None;
    for link in links {
        given = load_for_write(board, seat, *link);
    }
    given
}

// The block that is due comes back to the list of free ones. Answers it, and the one that was free
// longest, which leaves the list.
fn obtain(board: &Board, seat: &mut LoopSeat, pool: u32, free: &mut Pool) -> (Option<u32>, u32)
    requires table { IsOn board.now seat.old.table }
    requires phase { Reclaims (layout board.now) seat.old.knows pool }
    requires blocks { let p = layout board.now in
        FreeBlocks p seat.old.knows pool (fill_cycle p seat.old.knows pool) free.old }
    ensures table { seat.new.table ≡ seat.old.table }
    ensures reclaimed { let p = layout board.now in
        HasReclaimed p seat.old.knows pool result.0 seat.new.knows }
    ensures queue { free.old.free ++ option_to_list result.0 ≡ result.1 ∷ free.new.free }
    ensures size { free.new.blocks ≡ free.old.blocks }
{
    let reclaimed = reclaim(board, seat, pool);
    if let Some(id) = reclaimed {
        free.recycle(id);
    }
    (reclaimed, free.next())
}

// A free block of a pool of which no block is due or of this cycle is filled and announced.
fn emit(board: &Board, seat: &mut LoopSeat, pool: u32, id: u32, samples: &[i16])
    requires table { IsOn board.now seat.old.table }
    requires phase { let p = layout board.now in
        IsAtPool p seat.old.knows pool × IsWriting p seat.old.knows pool }
    requires unfilled { let p = layout board.now in
        IsUnfilled p seat.old.knows pool (fill_cycle p seat.old.knows pool) }
    requires free { let p = layout board.now in
        (id < (pool_at p pool).blocks) × (block_of p seat.old.knows pool id ≡ Free) }
    requires samples { let p = layout board.now in
        samples.now ≡ samples_in p seat.old.knows.expect (fill_cycle p seat.old.knows pool) pool }
    ensures table { seat.new.table ≡ seat.old.table }
    ensures knows { let p = layout board.now in let n = fill_cycle p seat.old.knows pool + 1 in
        seat.new.knows ≡ view_block p seat.old.knows pool id (Out n) }
{
    fill(board, seat, pool, id, samples);
    seat.store_readers(board, pool, id);
}

// The block that was announced is published on each of the links: one store of HAVE_DATA with its
// number.
fn publish_all(board: &Board, seat: &mut LoopSeat, links: &[u32], id: u32)
    requires table { IsOn board.now seat.old.table }
    requires once { AllPairs (λ k l. k ≢ l) links.now }
    requires phase { All (λ l. StoresHave (layout board.now) seat.old.knows l id) links.now }
    ensures table { seat.new.table ≡ seat.old.table }
    ensures ends { let p = layout board.now in
        AreMade (IsPublishedNow p seat.old.knows id) seat.old.knows links.now seat.new.knows }
{
    for link in links {
        seat.store_have_data(board, *link, id);
    }
}

/// The node of a pool, which works, takes its turn on it: `links`, all links of the pool in the
/// order of the shape, are loaded; the block that is due comes back to the list of free ones; and
/// the one that was free longest is filled with `samples`, one quantum, frames interleaved,
/// announced, and published on all links. The links are gone over twice, and the samples once.
/// Takes no memory.
pub fn write_output(
    board: &Board,
    seat: &mut LoopSeat,
    pool: u32,
    links: &[u32],
    free: &mut Pool,
    samples: &[i16],
) -> OutputWritten
    requires board { IsPooledBoard (layout board.now) }
    requires table { IsOn board.now seat.old.table }
    requires phase { MayWriteOutput (layout board.now) seat.old.knows pool }
    requires links { links.now ≡ (pool_at (layout board.now) pool).links }
    requires blocks { let p = layout board.now in
        FreeBlocks p seat.old.knows pool (fill_cycle p seat.old.knows pool) free.old }
    requires samples { let p = layout board.now in
        samples.now ≡ samples_in p seat.old.knows.expect (fill_cycle p seat.old.knows pool) pool }
    ensures table { seat.new.table ≡ seat.old.table }
    ensures knows { HasWrittenOutput (layout board.now) seat.old.knows pool seat.new.knows }
    ensures blocks { let p = layout board.now in
        FreeBlocks p seat.new.knows pool (fill_cycle p seat.old.knows pool + 1) free.new }
    ensures answer { let p = layout board.now in
        AnswersTurn p seat.old.knows pool free.old.free seat.new.knows free.new.free result }
{
    let given = load_all(board, seat, links);
    let (reclaimed, used) = obtain(board, seat, pool, free);
    emit(board, seat, pool, used, samples);
    publish_all(board, seat, links, used);
    OutputWritten {
        given,
        reclaimed,
        used,
    }
}
