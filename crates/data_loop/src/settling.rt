//! The end of an epoch, as a loop sees it.
ghost use Rattle.std.specs.Prelude.{IsTrue};
ghost use Rattle.board_rule.specs.OnBoard.{layout, table_of};
ghost use Rattle.data_loop.specs.LoopsOnBoards.{IsOnBoard};
ghost use Rattle.data_loop.specs.Settling.{HasHadTurns, HasSettled};

use crate::did::Did;
use crate::loop_state::LoopState;
use board_rule::Board;
use pw_outside::Gate;
use std::sync::Wait;

// One turn: whether it found that no follower has cycles left.
fn is_settled<G: Gate>(board: &Board, state: &mut LoopState, gate: &G) -> bool
    requires stands { IsOnBoard (layout board.now) (table_of board.now) state.old }
    ensures turned { HasHadTurns (layout board.now) (table_of board.now) state.old state.new }
    ensures settled { IsTrue result
        → HasSettled (layout board.now) (table_of board.now) state.old state.new }
{
    match state.turn(board, gate) {
        Did::Ran { .. } => false,
        Did::Idle => state.found().len() == 0,
    }
}

/// Gives a loop turns on the board of its epoch until one is Idle and found no try too early: then
/// no follower of it has cycles left. It may wait. Takes no memory.
pub fn settle<R: Wait, G: Gate>(rt: &R, board: &Board, state: &mut LoopState, gate: &G)
    requires stands { IsOnBoard (layout board.now) (table_of board.now) state.old }
    ensures settled { HasSettled (layout board.now) (table_of board.now) state.old state.new }
{
    for _ in rt.forever() {
        if is_settled(board, state, gate) {
            break;
        }
    }
}
