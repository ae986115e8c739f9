//! A loop that is started: all its epochs.
ghost use Rattle.std.specs.Prelude.{◌≡◌, ◌+◌, ◌<◌, length, IsTrue};
ghost use Rattle.board_rule.specs.OnBoard.{layout, table_of};
ghost use Rattle.data_loop.specs.Loops.{plan_of};
ghost use Rattle.data_loop.specs.LoopKept.{IsDone};
ghost use Rattle.data_loop.specs.LoopsOnBoards.{IsOnBoard};
ghost use Rattle.ready_queues.specs.AnsweredWith.{IsWayOf};
ghost use Rattle.ready_queues.specs.Starting.{IsIdle, IsStarted, HasStarted};
ghost use Rattle.data_loop.specs.LoopTries.{HasTurnedAt, HasWoken};
ghost use Rattle.data_loop.specs.LoopWay.{HasNoDriver, IsUnderWay, IsSameLoop, IsWayFor, RestsAtMost};
ghost use Rattle.data_loop.specs.PassingOn.{PassesOn, HasTriedAll};
ghost use Rattle.data_loop.specs.Rounds.{IsRound, HasMadeRounds};
ghost use Rattle.data_loop.specs.Courses.{HasGoneThrough, HasRunAll};
ghost use Rattle.data_loop.specs.Settling.{HasHadTurns, HasSettled};

use crate::did::Did;
use crate::loop_state::LoopState;
use board_rule::Board;
use pw_lists::Items;
use pw_outside::Gate;
use ready_queues::{Way, Ways};
use std::sync::Wait;

// What the turn or the try before has woken is passed on, where a node ran.
fn pass_on<R: Wait>(rt: &R, did: Did, state: &LoopState, ways: &Ways, way: &mut Way)
    requires way { IsWayFor ways.now state.now way.old }
    requires started { IsStarted way.old }
    ensures passed { PassesOn ways.now did state.now way.old way.new }
    ensures way { IsWayFor ways.now state.now way.new }
    ensures started { IsStarted way.new }
{
    match did {
        Did::Ran { .. } => {
            ways.forward(rt, way, state.woke());
        }
        Did::Idle => (),
    }
}

// One try of a node that the loop's queue gave; where it ran, what it woke is passed on.
fn try_given<R: Wait, G: Gate>(
    rt: &R,
    board: &Board,
    node: u32,
    state: &mut LoopState,
    ways: &Ways,
    way: &mut Way,
    gate: &G,
) -> Did
    requires stands { IsOnBoard (layout board.now) (table_of board.now) state.old }
    requires way { IsWayFor ways.now state.old way.old }
    requires started { IsStarted way.old }
    ensures turned { HasHadTurns (layout board.now) (table_of board.now) state.old state.new }
    ensures did { HasTurnedAt (layout board.now) node state.old result state.new }
    ensures woken { HasWoken result state.new }
    ensures passed { PassesOn ways.now result state.new way.old way.new }
    ensures way { IsWayFor ways.now state.new way.new }
    ensures started { IsStarted way.new }
{
    let did = state.turn_at(board, node, gate);
    pass_on(rt, did, state, ways, way);
    did
}

/// How a loop waits: its thread looks for some microseconds whether the loop is called, and rests
/// where it is not. Takes no memory.
/// Condition: the way was answered with these ways.
pub fn rest_unless_called<R: Wait>(rt: &R, ways: &Ways, way: &mut Way)
    requires answered { IsWayOf ways.now way.old }
    ensures answered { IsWayOf ways.now way.new }
    ensures number { way.new.number ≡ way.old.number }
    ensures rested { RestsAtMost way.old way.new }
{
    if !ways.is_called_soon(way) {
        ways.rest(rt, way);
    }
}

// One turn; where a node ran, what it woke is passed on, and where no node was awake, the thread
// rests, unless its loop is called soon. Whether it found that no follower has cycles left, and
// then there is no rest.
fn try_all<R: Wait, G: Gate>(
    rt: &R,
    board: &Board,
    state: &mut LoopState,
    ways: &Ways,
    way: &mut Way,
    gate: &G,
) -> bool
    requires stands { IsOnBoard (layout board.now) (table_of board.now) state.old }
    requires way { IsWayFor ways.now state.old way.old }
    requires started { IsStarted way.old }
    ensures turned { HasHadTurns (layout board.now) (table_of board.now) state.old state.new }
    ensures tried { HasTriedAll result (layout board.now) ways.now state.old way.old
        state.new way.new }
    ensures settled { IsTrue result
        → HasSettled (layout board.now) (table_of board.now) state.old state.new }
    ensures way { IsWayFor ways.now state.new way.new }
    ensures started { IsStarted way.new }
{
    match state.turn(board, gate) {
        Did::Ran { .. } => {
            ways.forward(rt, way, state.woke());
            false
        }
        Did::Idle => {
            if state.found().len() == 0 {
                return true;
            }
            rest_unless_called(rt, ways, way);
            false
        }
    }
}

// One round on the board of the loop's epoch: of the number that its queue gives, or one turn where
// it gives none. Whether it found that no follower has cycles left.
fn go_once<R: Wait, G: Gate>(
    rt: &R,
    board: &Board,
    state: &mut LoopState,
    ways: &Ways,
    way: &mut Way,
    gate: &G,
) -> bool
    requires stands { IsOnBoard (layout board.now) (table_of board.now) state.old }
    requires way { IsWayFor ways.now state.old way.old }
    requires started { IsStarted way.old }
    ensures turned { HasHadTurns (layout board.now) (table_of board.now) state.old state.new }
    ensures settled { IsTrue result
        → HasSettled (layout board.now) (table_of board.now) state.old state.new }
    ensures round { IsRound result (layout board.now) ways.now state.old way.old
        state.new way.new }
    ensures way { IsWayFor ways.now state.new way.new }
    ensures started { IsStarted way.new }
{
    match ways.receive(rt, way) {
        Some(node) => {
            let _did = try_given(rt, board, node, state, ways, way, gate);
            false
        }
        None => try_all(rt, board, state, ways, way, gate),
    }
}

// The rounds on the board of the loop's epoch, until no follower has cycles left.
fn go_round<R: Wait, G: Gate>(
    rt: &R,
    board: &Board,
    state: &mut LoopState,
    ways: &Ways,
    way: &mut Way,
    gate: &G,
)
    requires stands { IsOnBoard (layout board.now) (table_of board.now) state.old }
    requires way { IsWayFor ways.now state.old way.old }
    requires started { IsStarted way.old }
    ensures settled { HasSettled (layout board.now) (table_of board.now) state.old state.new }
    ensures rounds { HasMadeRounds (layout board.now) ways.now state.old way.old
        state.new way.new }
    ensures way { IsWayFor ways.now state.new way.new }
    ensures started { IsStarted way.new }
{
    for _ in rt.forever() {
        if go_once(rt, board, state, ways, way, gate) {
            break;
        }
    }
}

// The epoch that the loop is in, and the way into the next one.
fn go_through<R: Wait, G: Gate>(
    rt: &R,
    boards: &Items<Board>,
    state: &mut LoopState,
    ways: &Ways,
    way: &mut Way,
    gate: &G,
)
    requires under_way { IsUnderWay boards.now state.old }
    requires left { state.old.epoch < length (plan_of state.old).epochs }
    requires none { HasNoDriver state.old }
    requires way { IsWayFor ways.now state.old way.old }
    requires started { IsStarted way.old }
    ensures under_way { IsUnderWay boards.now state.new }
    ensures same { IsSameLoop state.old state.new }
    ensures next { state.new.epoch ≡ state.old.epoch + 1 }
    ensures through { HasGoneThrough boards.now ways.now state.old way.old state.new way.new }
    ensures way { IsWayFor ways.now state.new way.new }
    ensures started { IsStarted way.new }
{
    let board = &boards.as_slice()[state.epoch() as usize];
    go_round(rt, board, state, ways, way, gate);
    state.next_epoch();
}

// The way of a loop, once it was said that its thread runs the loop from now on.
fn started(ways: &Ways, way: Way) -> Way
    requires answered { IsWayOf ways.now way }
    requires own { way.number < ways.now.loops }
    requires idle { IsIdle way }
    ensures answered { IsWayOf ways.now result }
    ensures started { HasStarted way result }
{
    let mut way = way;
    ways.start(&mut way);
    way
}

/// Turns until all epochs are done: numbers that its queue gives are tried first, and where it
/// gives none there is a turn; where no node is awake, the thread rests, unless its loop is called
/// within some microseconds. It may wait. Takes no memory.
///
/// First its way is started: from then on who wakes a node of the loop need not wake the driver's
/// thread. In each epoch the loop goes in rounds. Either its queue gave a number: then the node of
/// that very number was tried, and what it woke was passed on. Or the queue gave none: then there
/// was one turn, and what it woke was passed on; only after such a turn, in which no node was awake
/// and some had cycles left, may the thread have rested.
/// Condition: there is one board an epoch, in order, on which the loop has its seats; none of its
/// nodes drives; the way is that of a loop whose nodes are those of the state, and was not started.
pub fn run_all<R: Wait, G: Gate>(
    rt: &R,
    state: LoopState,
    boards: &Items<Board>,
    ways: &Ways,
    way: Way,
    gate: &G,
) -> (LoopState, Way)
    requires under_way { IsUnderWay boards.now state }
    requires none { HasNoDriver state }
    requires way { IsWayFor ways.now state way }
    requires idle { IsIdle way }
    ensures done { IsDone result.0 }
    ensures under_way { IsUnderWay boards.now result.0 }
    ensures same { IsSameLoop state result.0 }
    ensures gone { HasRunAll boards.now ways.now state way result.0 result.1 }
    ensures way { IsWayFor ways.now result.0 result.1 }
    ensures started { IsStarted result.1 }
{
    let mut state = state;
    let mut way = started(ways, way);
    while !state.at_end() {
        go_through(rt, boards, &mut state, ways, &mut way, gate);
    }
    (state, way)
}
