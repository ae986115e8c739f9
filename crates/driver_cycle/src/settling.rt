//! The end of an epoch, as the loops of the driver's thread see it.
ghost use Rattle.std.specs.Prelude.{All};
ghost use Rattle.board_rule.specs.OnBoard.{layout, table_of};
ghost use Rattle.data_loop.specs.LoopsOnBoards.{IsOnBoard};
ghost use Rattle.driver_cycle.specs.Settling.{HasSettled, AreEach};

use board_rule::Board;
use data_loop::LoopState;
pub use data_loop::settle;
use pw_outside::Gate;
use std::sync::Wait;

/// Settles each of the loops, one after the other. It may wait. Takes no memory.
pub(crate) fn settle_all<R: Wait, G: Gate>(
    rt: &R,
    board: &Board,
    states: &mut [LoopState],
    gate: &G,
)
    requires stand { All (IsOnBoard (layout board.now) (table_of board.now)) states.old }
    ensures settled { AreEach (HasSettled (layout board.now) (table_of board.now))
        states.old states.new }
{
    for k in 0..states.len() {
        settle(rt, board, &mut states[k], gate);
    }
}
