//! The beginning of a cycle.
ghost use Rattle.board_rule.specs.OnBoard.{IsOn, layout};
ghost use Rattle.std.specs.Prelude.{◌≡◌, true, ℕ, ◌<◌};
ghost use Rattle.pw_graph.specs.Layout.{event_count};
ghost use Rattle.board_rule.specs.declared.view.DriverPhase.TheVariants.{Between, Reset};
ghost use Rattle.board_rule.specs.View.{view_lead};
ghost use Rattle.board_rule.specs.Layout.{nodes};
ghost use Rattle.board_rule.specs.Steps.{HasNode, StoresPending};
ghost use Rattle.activation_words.specs.Told.{IsTelling, HasTold, HasWoken};
ghost use Rattle.activation_words.specs.CycleCalls.{HasBegun, begin_stored, reset_one, all_reset};

use crate::telling::tell_all;
use board_rule::{Board, BoardSeat, DriverSeat};

// The ticket of Begin is drawn, and the event stored.
fn announce(board: &Board, seat: &mut DriverSeat)
    requires table { IsOn board.now seat.old.table }
    requires node { let p = layout board.now in HasNode true p seat.old.knows p.driver }
    requires between { seat.old.knows.lead.drive ≡ Between }
    ensures table { seat.new.table ≡ seat.old.table }
    ensures knows { let p = layout board.now in
        ((ticket : ℕ) × (ticket < event_count p.shape)
        × (seat.new.knows ≡ begin_stored seat.old.knows ticket)) }
{
    let driver = board.shape().driver;
    seat.draw_ticket(board, driver);
    seat.store_event(board, driver);
}

// The next node is reset: its pending word, then its status word.
fn reset_next(board: &Board, seat: &mut DriverSeat)
    requires table { IsOn board.now seat.old.table }
    requires phase { StoresPending (layout board.now) seat.old.knows }
    ensures table { seat.new.table ≡ seat.old.table }
    ensures knows { seat.new.knows ≡ reset_one (layout board.now) seat.old.knows }
{
    seat.store_pending(board);
    seat.store_not_triggered(board);
}

// All nodes are reset, in their order.
fn reset_all(board: &Board, seat: &mut DriverSeat)
    requires table { IsOn board.now seat.old.table }
    requires node { let p = layout board.now in HasNode true p seat.old.knows p.driver }
    requires phase { seat.old.knows.lead.drive ≡ Reset 0 }
    ensures table { seat.new.table ≡ seat.old.table }
    ensures knows { seat.new.knows ≡ all_reset seat.old.knows }
{
    for done in 0..board.shape().nodes.len() {
        reset_next(board, seat);
    }
}

// All targets of the driver are lowered, in their order.
fn kick_all(board: &Board, seat: &mut DriverSeat)
    requires table { IsOn board.now seat.old.table }
    requires node { let p = layout board.now in HasNode true p seat.old.knows p.driver }
    requires phase { let p = layout board.now in
        IsTelling true p seat.old.knows p.driver 0 seat.old.knows }
    ensures table { seat.new.table ≡ seat.old.table }
    ensures knows { let p = layout board.now in
        HasTold true p seat.old.knows p.driver seat.new.knows }
{
    let driver = board.shape().driver;
    tell_all(board, seat, driver);
}

/// Begins a cycle: the event Begin is stored, then each node is reset to its required count and
/// NOT_TRIGGERED of this cycle, and only then the driver lowers each of its targets, and triggers
/// each that nobody else has to lower.
/// Condition: the seat is between two cycles, with cycles left. The seat then waits for its own
/// node, and its `woke` has the bits of the targets whose pending word this call took to 0.
pub fn begin(board: &Board, seat: &mut DriverSeat)
    requires table { IsOn board.now seat.old.table }
    requires node { let p = layout board.now in HasNode true p seat.old.knows p.driver }
    requires between { seat.old.knows.lead.drive ≡ Between }
    ensures table { seat.new.table ≡ seat.old.table }
    ensures knows { HasBegun (layout board.now) seat.old.knows seat.new.knows }
    ensures woke { HasWoken seat.new.knows }
{
    announce(board, seat);
    reset_all(board, seat);
    kick_all(board, seat);
}
