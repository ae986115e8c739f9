//! All cycles of an epoch, by the driver's thread.
ghost use Rattle.std.specs.Prelude.{◌≡◌, ◌+◌, ℕ, All, false};
ghost use Rattle.board_rule.specs.Layout.{last};
ghost use Rattle.board_rule.specs.OnBoard.{IsOn, layout, table_of};
ghost use Rattle.node_progress.specs.declared.run_model.RunModel.{RunModel};
ghost use Rattle.data_loop.specs.LoopWay.{IsDriverWay};
ghost use Rattle.data_loop.specs.LoopsOnBoards.{IsOnBoard, IsAtEnd, IsSameBut};
ghost use Rattle.data_loop.specs.LoopDriver.{DrivesFrom, HasLedSoFar};
ghost use Rattle.driver_cycle.specs.Leading.{IsLeading, IsBetween, IsWaiting, IsDriving, HasEndedAll};
ghost use Rattle.driver_cycle.specs.Rounds.{BeginsNext, HasLooked};
ghost use Rattle.driver_cycle.specs.Settling.{HasSettled, AreEach};
ghost use Rattle.driver_cycle.specs.Asking.{IsAskedBy};
ghost use Rattle.driver_cycle.specs.Epochs.{IsThread, HasGoneOn, HasGoneRound};
ghost use Rattle.driver_cycle.specs.Courses.{HasMadeRound, HasMadeCycle, HaveMadeCycles, HasMadeAll};
ghost use Rattle.driver_cycle.specs.Stands.{stand};
ghost use Rattle.driver_cycle.specs.Waking.{SendsBegun};
ghost use Rattle.driver_cycle.specs.working.Resting.{EndsRound};

use crate::leading::lead_once;
use crate::rounds::begin_next;
use crate::settling::{settle, settle_all};
use crate::site::Site;
use crate::turning::{turn_all, turn_one};
use crate::waking::{rest_unless, send_woken};
use board_rule::{Board, BoardSeat, DriverSeat};
use data_loop::{LoopState, Way, Ways};
use pw_outside::{Gate, Ticker};
use std::sync::Wait;

// One round: a turn of the own loop, one of each adopted loop, and one claim of the driver's node;
// where all this did nothing, a rest. Whether the cycle has ended.
fn go_round<R: Wait, G: Gate, K: Ticker>(
    at: &Site<'_, R, G>,
    seat: &mut DriverSeat,
    own: &mut LoopState,
    adopted: &mut [LoopState],
    checked: &mut bool,
    way: &mut Way,
    ticker: &mut K,
) -> bool
    requires thread { IsThread at.now.board.now seat.old own.old adopted.old }
    requires waits { IsWaiting (layout at.now.board.now) seat.old.knows }
    requires checked { checked.old ≡ seat.old.knows.lead.checked }
    requires way { IsDriverWay at.now.ways.now way.old }
    ensures gone { HasGoneOn at.now.board.now seat.old own.old adopted.old (K.ticks ticker.old)
        seat.new own.new adopted.new (K.ticks ticker.new) }
    ensures round { HasGoneRound result (layout at.now.board.now) seat.old.knows checked.new
        seat.new.knows }
    ensures asked { IsAskedBy K.answers result checked.old ticker.old ticker.new }
    ensures made { HasMadeRound K.ticks K.answers (layout at.now.board.now) at.now.ways.now result
        (stand seat.old own.old adopted.old way.old ticker.old)
        (stand seat.new own.new adopted.new way.new ticker.new) }
    // The thread rests only where nothing was done, and then where another thread has a loop.
    ensures rest { EndsRound result (layout at.now.board.now) at.now.ways.now.loops own.old
        adopted.old adopted.new way.old way.new }
    ensures way { IsDriverWay at.now.ways.now way.new }
{
    let own_ran = turn_one(at.rt, at.board, own, at.ways, way, at.gate);
    let another_ran = turn_all(at, adopted, way);
    let ended = lead_once(at.board, seat, own, checked, ticker, at.gate);
    let done = own_ran | another_ran | ended;
    rest_unless(at.rt, done, adopted.len(), at.ways, way);
    ended
}

// The rounds of a cycle that is begun.
fn run_cycle<R: Wait, G: Gate, K: Ticker>(
    at: &Site<'_, R, G>,
    seat: &mut DriverSeat,
    own: &mut LoopState,
    adopted: &mut [LoopState],
    way: &mut Way,
    ticker: &mut K,
)
    requires thread { IsThread at.now.board.now seat.old own.old adopted.old }
    requires waits { IsWaiting (layout at.now.board.now) seat.old.knows }
    requires unchecked { seat.old.knows.lead.checked ≡ false }
    requires way { IsDriverWay at.now.ways.now way.old }
    ensures gone { HasGoneOn at.now.board.now seat.old own.old adopted.old (K.ticks ticker.old)
        seat.new own.new adopted.new (K.ticks ticker.new) }
    ensures between { IsBetween (layout at.now.board.now) seat.new.knows }
    ensures cycle { seat.new.knows.lead.cycle ≡ seat.old.knows.lead.cycle + 1 }
    ensures rounds { HasMadeCycle K.ticks K.answers (layout at.now.board.now) at.now.ways.now
        (stand seat.old own.old adopted.old way.old ticker.old)
        (stand seat.new own.new adopted.new way.new ticker.new) }
    ensures way { IsDriverWay at.now.ways.now way.new }
{
    let mut checked = false;
    for _ in at.rt.forever() {
        if go_round(at, seat, own, adopted, &mut checked, way, ticker) {
            break;
        }
    }
}

// Begins the next cycle, if one is left, and sends what the beginning woke.
fn begin_sent<R: Wait, G>(at: &Site<'_, R, G>, seat: &mut DriverSeat, way: &mut Way) -> bool
    requires table { IsOn at.now.board.now seat.old.table }
    requires between { IsBetween (layout at.now.board.now) seat.old.knows }
    requires way { IsDriverWay at.now.ways.now way.old }
    ensures begun { BeginsNext (layout at.now.board.now) seat.old.knows result seat.new.knows }
    ensures sent { SendsBegun result at.now.ways.now seat.new.knows way.old way.new }
    ensures driving { IsDriving (layout at.now.board.now) seat.new.knows result }
    ensures unchecked { seat.new.knows.lead.checked ≡ false }
    ensures table { seat.new.table ≡ seat.old.table }
    ensures leads { (run_model : RunModel) (k : ℕ) → IsLeading run_model k at.now.board.now seat.old
        → IsLeading run_model k at.now.board.now seat.new }
    ensures way { IsDriverWay at.now.ways.now way.new }
{
    if !begin_next(at.board, seat) {
        return false;
    }
    send_woken(at.rt, at.ways, way, seat.woke());
    true
}

// The cycles that are left of the epoch.
fn run_cycles<R: Wait, G: Gate, K: Ticker>(
    at: &Site<'_, R, G>,
    seat: &mut DriverSeat,
    own: &mut LoopState,
    adopted: &mut [LoopState],
    way: &mut Way,
    ticker: &mut K,
)
    requires thread { IsThread at.now.board.now seat.old own.old adopted.old }
    requires between { IsBetween (layout at.now.board.now) seat.old.knows }
    requires way { IsDriverWay at.now.ways.now way.old }
    ensures gone { HasGoneOn at.now.board.now seat.old own.old adopted.old (K.ticks ticker.old)
        seat.new own.new adopted.new (K.ticks ticker.new) }
    ensures ended { HasEndedAll (layout at.now.board.now) seat.new.knows }
    ensures cycles { HaveMadeCycles K.ticks K.answers (layout at.now.board.now) at.now.ways.now
        (stand seat.old own.old adopted.old way.old ticker.old)
        (stand seat.new own.new adopted.new way.new ticker.new) }
    ensures way { IsDriverWay at.now.ways.now way.new }
{
    while begin_sent(at, seat, way) {
        run_cycle(at, seat, own, adopted, way, ticker);
    }
}

/// All cycles of one epoch, by the driver's thread: `own` has the driver, unless that is 63, and
/// `adopted` are the other loops that this thread runs. After a cycle has begun, the thread goes in
/// rounds: a turn of `own`, one of each adopted loop in order, and one claim of the driver's node,
/// which ends the cycle where the node is awake. What the beginning woke, and what each turn woke,
/// is sent to the queues of `ways`. Where a round did nothing, and `adopted` has fewer loops than
/// `ways`, the thread rests until it is unparked; meanwhile it does not ask the ticker. Once no
/// cycle is left, it gives `own`, and then each adopted loop, turns until none of its followers has
/// cycles left. Each cycle makes at most one check, where the ticker says so. It may wait. Takes no
/// memory.
/// Condition: this is the board of the current epoch of all these loops, the seat is between two of
/// its cycles, `run_driver` on `own` has run the driver in each earlier cycle of the epoch, and
/// `way` is the driver's of `ways`.
pub fn run_epoch<R: Wait, G: Gate, K: Ticker>(
    rt: &R,
    board: &Board,
    seat: &mut DriverSeat,
    own: &mut LoopState,
    adopted: &mut [LoopState],
    ways: &Ways,
    way: &mut Way,
    ticker: &mut K,
    gate: &G,
)
    requires leads { IsLeading own.old.run_model own.old.epoch board.now seat.old }
    requires between { IsBetween (layout board.now) seat.old.knows }
    requires stands { IsOnBoard (layout board.now) (table_of board.now) own.old }
    requires driver { DrivesFrom (layout board.now) own.old }
    requires led_so_far { HasLedSoFar (layout board.now) own.old seat.old.knows }
    requires adopted { All (IsOnBoard (layout board.now) (table_of board.now)) adopted.old }
    requires way { IsDriverWay ways.now way.old }
    ensures ended { HasEndedAll (layout board.now) seat.new.knows }
    ensures leads { IsLeading own.old.run_model own.old.epoch board.now seat.new }
    ensures table { seat.new.table ≡ seat.old.table }
    ensures expect { seat.new.knows.expect ≡ seat.old.knows.expect }
    ensures end { IsAtEnd (layout board.now) (table_of board.now) own.new }
    ensures same { IsSameBut own.old own.new }
    ensures adopted { AreEach (HasSettled (layout board.now) (table_of board.now))
        adopted.old adopted.new }
    ensures looked { HasLooked seat.old seat.new (K.ticks ticker.old) (K.ticks ticker.new) }
    ensures made { HasMadeAll K.ticks K.answers board.now ways.now
        (stand seat.old own.old adopted.old way.old ticker.old)
        (stand seat.new own.new adopted.new way.new ticker.new) }
    ensures way { IsDriverWay ways.now way.new }
{
    let at = Site {
        rt,
        gate,
        board,
        ways,
    };
    run_cycles(&at, seat, own, adopted, way, ticker);
    settle(rt, board, own, gate);
    settle_all(rt, board, adopted, gate);
}
