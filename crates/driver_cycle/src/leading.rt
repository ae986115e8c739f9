//! One claim of the driver's node.
ghost use Rattle.std.specs.Prelude.{◌≡◌, ℕ, not};
ghost use Rattle.board_rule.specs.OnBoard.{IsOn, layout, table_of};
ghost use Rattle.node_progress.specs.declared.run_model.RunModel.{RunModel};
ghost use Rattle.data_loop.specs.Driving.{MayDrive};
ghost use Rattle.data_loop.specs.LoopsOnBoards.{IsOnBoard, IsSameBut};
ghost use Rattle.data_loop.specs.LoopDriver.{DrivesFrom, HasLedSoFar};
ghost use Rattle.driver_cycle.specs.Leading.{IsLeading, IsBetween, IsWaiting, IsDriving};
ghost use Rattle.driver_cycle.specs.Asking.{AsksOnce, IsAskedBy};
ghost use Rattle.driver_cycle.specs.Rounds.{HasLooked};
ghost use Rattle.driver_cycle.specs.Concluding.{HasConcluded, LooksOnce, IsClaimed};

use crate::rounds::look;
use activation_words::{Claim, claim_driver, end};
use board_rule::{Board, DriverSeat};
use data_loop::LoopState;
use pw_outside::{Gate, Ticker};

// The turn of the driver's node, which is awake, and the end of the cycle.
fn conclude<G: Gate>(board: &Board, seat: &mut DriverSeat, own: &mut LoopState, gate: &G)
    requires leads { IsLeading own.old.run_model own.old.epoch board.now seat.old }
    requires awake { MayDrive (layout board.now) seat.old.knows seat.old.knows.lead.cycle }
    requires stands { IsOnBoard (layout board.now) (table_of board.now) own.old }
    requires driver { DrivesFrom (layout board.now) own.old }
    requires led_so_far { HasLedSoFar (layout board.now) own.old seat.old.knows }
    ensures leads { IsLeading own.old.run_model own.old.epoch board.now seat.new }
    ensures concluded { HasConcluded (layout board.now) seat.old.knows seat.new.knows }
    ensures between { IsBetween (layout board.now) seat.new.knows }
    ensures stands { IsOnBoard (layout board.now) (table_of board.now) own.new }
    ensures same { IsSameBut own.old own.new }
    ensures led_so_far { HasLedSoFar (layout board.now) own.new seat.new.knows }
{
    own.run_driver(board, seat, gate);
    end(board, seat);
}

// After a claim that was too early: a look, unless this cycle has had its check.
fn look_once<K: Ticker>(board: &Board, seat: &mut DriverSeat, checked: &mut bool, ticker: &mut K)
    requires table { IsOn board.now seat.old.table }
    requires waits { IsWaiting (layout board.now) seat.old.knows }
    requires checked { checked.old ≡ seat.old.knows.lead.checked }
    ensures look { LooksOnce checked.old (layout board.now) seat.old.knows
        (K.ticks ticker.old) (K.ticks ticker.new) seat.new.knows }
    ensures looked { HasLooked seat.old seat.new (K.ticks ticker.old) (K.ticks ticker.new) }
    ensures asked { AsksOnce K.answers checked.old ticker.old ticker.new }
    ensures waits { IsWaiting (layout board.now) seat.new.knows }
    ensures checked { checked.new ≡ seat.new.knows.lead.checked }
    ensures cycle { seat.new.knows.lead.cycle ≡ seat.old.knows.lead.cycle }
    ensures table { seat.new.table ≡ seat.old.table }
    ensures leads { (run_model : RunModel) (k : ℕ) → IsLeading run_model k board.now seat.old
        → IsLeading run_model k board.now seat.new }
{
    if *checked {
        return;
    }
    if let Some(_late) = look(board, seat, ticker) {
        *checked = true;
    }
}

/// One claim of the driver's node. Where it is awake, its turn by `run_driver` of the loop `own`,
/// and the end of the cycle: true. Where the claim was too early, the ticker is asked once, unless
/// this cycle has had its check, and makes the check where one is due: false. `checked` is whether
/// the cycle has had its check. Takes no memory, does not wait.
/// Condition: the seat waits for the driver's node, and what `run_driver` asks for.
pub fn lead_once<G: Gate, K: Ticker>(
    board: &Board,
    seat: &mut DriverSeat,
    own: &mut LoopState,
    checked: &mut bool,
    ticker: &mut K,
    gate: &G,
) -> bool
    requires leads { IsLeading own.old.run_model own.old.epoch board.now seat.old }
    requires waits { IsWaiting (layout board.now) seat.old.knows }
    requires stands { IsOnBoard (layout board.now) (table_of board.now) own.old }
    requires driver { DrivesFrom (layout board.now) own.old }
    requires led_so_far { HasLedSoFar (layout board.now) own.old seat.old.knows }
    requires checked { checked.old ≡ seat.old.knows.lead.checked }
    ensures claimed { IsClaimed result (layout board.now) seat.old.knows
        (K.ticks ticker.old) (K.ticks ticker.new) seat.new.knows }
    ensures leads { IsLeading own.old.run_model own.old.epoch board.now seat.new }
    ensures driving { IsDriving (layout board.now) seat.new.knows (not result) }
    ensures stands { IsOnBoard (layout board.now) (table_of board.now) own.new }
    ensures same { IsSameBut own.old own.new }
    ensures led_so_far { HasLedSoFar (layout board.now) own.new seat.new.knows }
    ensures checked { checked.new ≡ seat.new.knows.lead.checked }
    ensures looked { HasLooked seat.old seat.new (K.ticks ticker.old) (K.ticks ticker.new) }
    ensures asked { IsAskedBy K.answers result checked.old ticker.old ticker.new }
{
    match claim_driver(board, seat) {
        Claim::Awake { .. } => {
            conclude(board, seat, own, gate);
            *checked = false;
            true
        }
        Claim::NotYet { .. } => {
            look_once(board, seat, checked, ticker);
            false
        }
    }
}
