//! The end of a cycle.
ghost use Rattle.board_rule.specs.OnBoard.{IsOn, layout};
ghost use Rattle.std.specs.Prelude.{◌≡◌, true};
ghost use Rattle.board_rule.specs.declared.view.DriverPhase.TheVariants.{FinishStored};
ghost use Rattle.board_rule.specs.Steps.{HasNode};
ghost use Rattle.activation_words.specs.CycleCalls.{HasEnded};

use board_rule::{Board, BoardSeat, DriverSeat};

/// Ends the cycle after the driver's Finish: the ticket of End is drawn, and the event stored. The
/// seat is then between this cycle and the next.
pub fn end(board: &Board, seat: &mut DriverSeat)
    requires table { IsOn board.now seat.old.table }
    requires node { let p = layout board.now in HasNode true p seat.old.knows p.driver }
    requires finished { seat.old.knows.lead.drive ≡ FinishStored }
    ensures table { seat.new.table ≡ seat.old.table }
    ensures knows { HasEnded (layout board.now) seat.old.knows seat.new.knows }
{
    let driver = board.shape().driver;
    seat.draw_ticket(board, driver);
    seat.store_event(board, driver);
}
