//! One step of a cell on its way through the boards of a run.
ghost use Rattle.std.specs.Prelude.{◌<◌, length, IfSome, IfNone};
ghost use Rattle.board_rule.specs.OnBoard.{layout, table_of};
ghost use Rattle.data_loop.specs.Loops.{plan_of};
ghost use Rattle.data_loop.specs.LoopsOnBoards.{IsOnBoard};
ghost use Rattle.data_loop.specs.LoopWay.{HasNoDriver, IsUnderWay};
ghost use Rattle.data_loop.specs.Settling.{HasHadTurns, HasSettled};
ghost use Rattle.steal_shelf.specs.working.CellSteps.{HasStepped};
ghost use Rattle.steal_loops.specs.working.Steps.{HasMade, HasTurnedSo};

use board_rule::Board;
use data_loop::{Did, LoopState};
use pw_lists::Items;
use pw_outside::Gate;

/// What one step of a cell did.
#[derive(Clone, Copy, Drop)]
pub(crate) enum Step {
    /// Its node ran.
    Ran,
    /// The try of its node was too early.
    Early,
    /// It had no cycles left in its epoch, and is in the next.
    Passed,
}

// One turn of a cell: what it did, or None where it has no cycles left in its epoch.
fn turn_cell<G: Gate>(board: &Board, state: &mut LoopState, gate: &G) -> Option<Step>
    requires stands { IsOnBoard (layout board.now) (table_of board.now) state.old }
    ensures turned { HasHadTurns (layout board.now) (table_of board.now) state.old state.new }
    ensures made { IfSome result (λ did. HasTurnedSo (layout board.now) did state.old state.new) }
    ensures settled { IfNone result
        (HasSettled (layout board.now) (table_of board.now) state.old state.new) }
{
    match state.turn(board, gate) {
        Did::Ran { .. } => Some(Step::Ran),
        Did::Idle => {
            if state.found().len() == 0 {
                return None;
            }
            Some(Step::Early)
        }
    }
}

/// One turn of a cell on the board of its epoch, or the way into the next epoch where it has no
/// cycles left in this one. What it woke is in the cell. Takes no memory, does not wait.
/// Condition: the cell is under way on these boards, has epochs left, and none of its nodes
/// drives.
pub(crate) fn step_cell<G: Gate>(boards: &Items<Board>, state: &mut LoopState, gate: &G) -> Step
    requires under_way { IsUnderWay boards.now state.old }
    requires left { state.old.epoch < length (plan_of state.old).epochs }
    requires none { HasNoDriver state.old }
    ensures stepped { HasStepped boards.now state.old state.new }
    ensures made { HasMade boards.now result state.old state.new }
{
    let board = &boards.as_slice()[state.epoch() as usize];
    match turn_cell(board, state, gate) {
        Some(did) => did,
        None => {
            state.next_epoch();
            Step::Passed
        }
    }
}
