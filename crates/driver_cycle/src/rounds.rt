//! The calls of the driver's thread that no loop is needed for.
ghost use Rattle.std.specs.Prelude.{◌≡◌, ℕ, false, is_some};
ghost use Rattle.board_rule.specs.OnBoard.{IsOn, layout};
ghost use Rattle.node_progress.specs.declared.run_model.RunModel.{RunModel};
ghost use Rattle.driver_cycle.specs.Leading.{IsLeading, IsBetween, IsWaiting, IsDriving};
ghost use Rattle.driver_cycle.specs.Rounds.{BeginsNext, IsLook, HasLooked};

use activation_words::{begin, check_late};
use board_rule::{Board, BoardSeat, DriverSeat};
use pw_outside::Ticker;

/// Begins the next cycle of the epoch; the seat then waits for the driver's node. False exactly
/// where all cycles have ended, and then nothing is done. Takes no memory, does not wait.
/// Condition: the seat is between two cycles.
pub fn begin_next(board: &Board, seat: &mut DriverSeat) -> bool
    requires table { IsOn board.now seat.old.table }
    requires between { IsBetween (layout board.now) seat.old.knows }
    ensures begun { BeginsNext (layout board.now) seat.old.knows result seat.new.knows }
    ensures driving { IsDriving (layout board.now) seat.new.knows result }
    ensures unchecked { seat.new.knows.lead.checked ≡ false }
    ensures table { seat.new.table ≡ seat.old.table }
    ensures leads { (run_model : RunModel) (k : ℕ) → IsLeading run_model k board.now seat.old
        → IsLeading run_model k board.now seat.new }
{
    let driver = board.shape().driver;
    if seat.ended(board, driver) == board.shape().cycles {
        return false;
    }
    begin(board, seat);
    true
}

/// Asks the ticker once, and where a check is due looks which followers have not finished the
/// cycle: bit n of the answer is set where node n has not, and this is stored as a Tick. None where
/// no check is due, and then nothing is done. Takes no memory, does not wait.
/// Condition: the seat waits for the driver's node, and has made no check in this cycle.
pub fn look<K: Ticker>(board: &Board, seat: &mut DriverSeat, ticker: &mut K) -> Option<u64>
    requires table { IsOn board.now seat.old.table }
    requires waits { IsWaiting (layout board.now) seat.old.knows }
    requires unchecked { seat.old.knows.lead.checked ≡ false }
    ensures look { let p = layout board.now in
        IsLook p seat.old.knows (K.ticks ticker.old) (K.ticks ticker.new) result seat.new.knows }
    ensures looked { HasLooked seat.old seat.new (K.ticks ticker.old) (K.ticks ticker.new) }
    // So the ticker was asked, and once.
    ensures asked { K.answers ticker.old (is_some result) ticker.new }
    ensures waits { IsWaiting (layout board.now) seat.new.knows }
    ensures table { seat.new.table ≡ seat.old.table }
    ensures leads { (run_model : RunModel) (k : ℕ) → IsLeading run_model k board.now seat.old
        → IsLeading run_model k board.now seat.new }
{
    if ticker.due() {
        Some(check_late(board, seat))
    } else {
        None
    }
}
