//! A node enters and leaves its work.
ghost use Rattle.board_rule.specs.OnBoard.{IsOn, layout};
ghost use Rattle.std.specs.Prelude.{◌≡◌, ℕ, ◌<◌, false};
ghost use Rattle.pw_graph.specs.Layout.{event_count};
ghost use Rattle.board_rule.specs.Steps.{HasNode, IsReadyToFinish};
ghost use Rattle.activation_words.specs.Calls.{IsAwake, started, worked, HasStarted, HasFinished};
ghost use Rattle.activation_words.specs.Told.{HasWoken};

use crate::telling::tell_all;
use board_rule::{Board, BoardSeat};

/// The node begins its work in the cycle that it is awake in: the ticket of its Start is drawn, and
/// the event stored.
pub fn start<S: BoardSeat>(board: &Board, seat: &mut S, node: u32)
    requires table { IsOn board.now (S.table seat.old) }
    requires node { let p = layout board.now in
        HasNode S.is_driver p (S.knows seat.old) (p.index node) }
    requires awake { let p = layout board.now in
        IsAwake S.is_driver (S.knows seat.old) (p.index node) }
    ensures table { S.table seat.new ≡ S.table seat.old }
    ensures knows { let p = layout board.now in
        HasStarted S.is_driver p (S.knows seat.old) (p.index node) (S.knows seat.new) }
{
    seat.draw_ticket(board, node);
    seat.store_event(board, node);
}

// The node ends its work: FINISHED, the ticket of its Finish, the event.
fn end_work<S: BoardSeat>(board: &Board, seat: &mut S, node: u32)
    requires table { IsOn board.now (S.table seat.old) }
    requires ready { let p = layout board.now in
        IsReadyToFinish S.is_driver p (S.knows seat.old) (p.index node) }
    ensures table { S.table seat.new ≡ S.table seat.old }
    ensures knows { let p = layout board.now in
        ((ticket : ℕ) × (ticket < event_count p.shape)
        × (S.knows seat.new ≡ worked S.is_driver (S.knows seat.old) (p.index node) ticket)) }
{
    seat.store_finished(board, node);
    seat.draw_ticket(board, node);
    seat.store_event(board, node);
}

/// The node has done its work, with all its outputs published and inputs returned. FINISHED is
/// stored, then its Finish, and then a follower lowers each of its targets, and triggers each that
/// it was the last to lower: the seat's `woke` has the bits of these. The driver's node lowers
/// none, since `begin` did so for the driver, and `woke` is then 0.
pub fn finish<S: BoardSeat>(board: &Board, seat: &mut S, node: u32)
    requires table { IsOn board.now (S.table seat.old) }
    requires ready { let p = layout board.now in
        IsReadyToFinish S.is_driver p (S.knows seat.old) (p.index node) }
    ensures table { S.table seat.new ≡ S.table seat.old }
    ensures knows { let p = layout board.now in
        HasFinished S.is_driver p (S.knows seat.old) (p.index node) (S.knows seat.new) }
    ensures woke { HasWoken (S.knows seat.new) }
{
    end_work(board, seat, node);
    if node != board.shape().driver {
        tell_all(board, seat, node);
    }
}
