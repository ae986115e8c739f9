//! Turns of the loops of the driver's thread, after which what they woke is sent.
ghost use Rattle.std.specs.Prelude.{◌≡◌, All, length, true, false};
ghost use Rattle.board_rule.specs.OnBoard.{layout, table_of};
ghost use Rattle.data_loop.specs.LoopWay.{IsDriverWay};
ghost use Rattle.data_loop.specs.LoopsOnBoards.{IsOnBoard};
ghost use Rattle.driver_cycle.specs.Settling.{HasHadTurns, AreEach};
ghost use Rattle.driver_cycle.specs.Stands.{HaveTakenTurns};
ghost use Rattle.driver_cycle.specs.Waking.{HasTakenTurn, HasTurnedIdle};
ghost use Rattle.driver_cycle.specs.working.Resting.{HasNotRested, HasOneRan};

use crate::site::Site;
use crate::waking::send_woken;
use board_rule::Board;
use data_loop::{Did, LoopState, Way, Ways};
use pw_outside::Gate;
use std::sync::Wait;

/// One turn of a loop of the driver's thread, by `turn`; where a node ran, what it woke is sent to
/// the queues of `ways` by `send_woken`. Whether one ran: where no node did, the way is as it was.
/// Sending may wait. Takes no memory.
/// Condition: the loop stands on this board, and `way` is the driver's of `ways`.
pub fn turn_one<R: Wait, G: Gate>(
    rt: &R,
    board: &Board,
    state: &mut LoopState,
    ways: &Ways,
    way: &mut Way,
    gate: &G,
) -> bool
    requires stands { IsOnBoard (layout board.now) (table_of board.now) state.old }
    requires way { IsDriverWay ways.now way.old }
    ensures turned { HasHadTurns (layout board.now) (table_of board.now) state.old state.new }
    ensures took { HasTakenTurn result (layout board.now) ways.now state.old way.old
        state.new way.new }
    ensures way { IsDriverWay ways.now way.new }
{
    match state.turn(board, gate) {
        Did::Ran { .. } => {
            send_woken(rt, ways, way, state.woke());
            true
        }
        Did::Idle => false,
    }
}

/// One turn of each of the loops, in order. Whether a node of any of them ran: where no node did,
/// the way is as it was. Sending may wait. Takes no memory.
pub(crate) fn turn_all<R: Wait, G: Gate>(
    at: &Site<'_, R, G>,
    states: &mut [LoopState],
    way: &mut Way,
) -> bool
    requires stand { All (IsOnBoard (layout at.now.board.now) (table_of at.now.board.now))
        states.old }
    requires way { IsDriverWay at.now.ways.now way.old }
    ensures turned { AreEach
        (HasHadTurns (layout at.now.board.now) (table_of at.now.board.now))
        states.old states.new }
    ensures idle { result ≡ false
        → AreEach (HasTurnedIdle (layout at.now.board.now)) states.old states.new }
    ensures ran { result ≡ true → HasOneRan (layout at.now.board.now) states.old states.new }
    ensures quiet { result ≡ false → way.new ≡ way.old }
    ensures took { HaveTakenTurns (layout at.now.board.now) at.now.ways.now states.old states.new
        way.old (length states.old) way.new }
    ensures still { HasNotRested way.old way.new }
    ensures way { IsDriverWay at.now.ways.now way.new }
{
    let mut ran = false;
    for k in 0..states.len() {
        ran |= turn_one(at.rt, at.board, &mut states[k], at.ways, way, at.gate);
    }
    ran
}
