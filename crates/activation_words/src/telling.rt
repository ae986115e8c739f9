//! A node lowers its targets, and triggers each that it was the last to lower.
ghost use Rattle.board_rule.specs.OnBoard.{IsOn, layout};
ghost use Rattle.std.specs.Prelude.{◌≡◌, ℕ, ◌+◌, ◌<◌, false, length};
ghost use Rattle.board_rule.specs.Steps.{HasNode, taken, Lowers, target_of, told_trail, settles};
ghost use Rattle.activation_words.specs.Told.{HasTold, IsTelling};

use board_rule::{Board, BoardSeat};

// The next target is lowered, and triggered where this was the last decrement.
fn tell_next<S: BoardSeat>(board: &Board, seat: &mut S, node: u32)
    requires table { IsOn board.now (S.table seat.old) }
    requires phase { let p = layout board.now in
        Lowers S.is_driver p (S.knows seat.old) (p.index node) }
    ensures table { S.table seat.new ≡ S.table seat.old }
    ensures knows { let p = layout board.now in let m = p.index node in let v = S.knows seat.old in
        ((found : ℕ) × (S.knows seat.new
        ≡ settles S.is_driver p v m (taken S.is_driver v m + 1) false
        (told_trail v.trail (target_of S.is_driver p v m) found))) }
{
    let found = seat.lower_pending(board, node);
    if found == 1 {
        seat.store_triggered(board, node);
    }
}

/// All targets of the node are lowered, in their order.
pub(crate) fn tell_all<S: BoardSeat>(board: &Board, seat: &mut S, node: u32)
    requires table { IsOn board.now (S.table seat.old) }
    requires node { let p = layout board.now in
        HasNode S.is_driver p (S.knows seat.old) (p.index node) }
    requires phase { let p = layout board.now in
        IsTelling S.is_driver p (S.knows seat.old) (p.index node) 0 (S.knows seat.old) }
    ensures table { S.table seat.new ≡ S.table seat.old }
    ensures knows { let p = layout board.now in
        HasTold S.is_driver p (S.knows seat.old) (p.index node) (S.knows seat.new) }
{
    for told in 0..board.target_count(node) {
        tell_next(board, seat, node);
    }
}
