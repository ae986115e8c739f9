//! The turn of a node on a link that it reads.
ghost use Rattle.board_rule.specs.OnBoard.{IsOn, layout};
ghost use Rattle.std.specs.Prelude.{◌≡◌, length};
ghost use Rattle.board_rule.specs.buffers.EndViews.{pool_of};
ghost use Rattle.io_areas.specs.Quanta.{quantum_of};
ghost use Rattle.io_areas.specs.Reading.{brought, IsClamped};
ghost use Rattle.io_areas.specs.InputTurn.{MayReadInput, HasReadInput};

use crate::reading::{give_back, read, take};
use board_rule::{Board, BoardSeat};

/// The node takes the block that the link brings in this cycle, reads its quantum, frames
/// interleaved, and gives it back.
/// Over a delayed link it gets what was written in the cycle before, and zeros in the epoch's first
/// cycle.
pub fn read_input<S: BoardSeat>(board: &Board, seat: &mut S, link: u32, to: &mut [i16])
    requires table { IsOn board.now (S.table seat.old) }
    requires phase { MayReadInput S.is_driver (layout board.now) (S.knows seat.old) link }
    requires long { let p = layout board.now in length to.old ≡ quantum_of p (pool_of p link) }
    ensures table { S.table seat.new ≡ S.table seat.old }
    ensures knows { HasReadInput S.is_driver (layout board.now) (S.knows seat.old) link
        (S.knows seat.new) }
    ensures samples { to.new ≡ brought S.is_driver (layout board.now) (S.knows seat.old) link }
    ensures clamped { IsClamped to.new }
{
    take(board, seat, link);
    read(board, seat, link, to);
    give_back(board, seat, link);
}
