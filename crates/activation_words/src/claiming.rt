//! Claims: one try to wake a node.
ghost use Rattle.board_rule.specs.OnBoard.{IsOn, layout};
ghost use Rattle.std.specs.Prelude.{◌≡◌, true, false};
ghost use Rattle.board_rule.specs.Steps.{Claims};
ghost use Rattle.activation_words.specs.Calls.{IsClaim};

use crate::answer::Claim;
use board_rule::{Board, BoardSeat, DriverSeat, LoopSeat};
use pw_graph::{ActivationStatus, status_word};

// One exchange of TRIGGERED of the node's next cycle for AWAKE.
fn try_once<S: BoardSeat>(board: &Board, seat: &mut S, node: u32) -> Claim
    requires table { IsOn board.now (S.table seat.old) }
    requires phase { let p = layout board.now in
        Claims S.is_driver p (S.knows seat.old) (p.index node) }
    ensures table { S.table seat.new ≡ S.table seat.old }
    ensures claim { let p = layout board.now in
        IsClaim S.is_driver p (S.knows seat.old) (p.index node) result (S.knows seat.new) }
{
    let cycle = board.shape().first + seat.ended(board, node);
    let found = seat.exchange_awake(board, node);
    if found == status_word(ActivationStatus::Triggered.number(), cycle) {
        Claim::Awake { cycle }
    } else {
        Claim::NotYet { found }
    }
}

/// One try to wake a follower of the seat that waits with cycles left. `NotYet` carries the word
/// that the one exchange of this call found, and the seat then remembers one more try with it.
pub fn claim(board: &Board, seat: &mut LoopSeat, node: u32) -> Claim
    requires table { IsOn board.now seat.old.table }
    requires phase { let p = layout board.now in Claims false p seat.old.knows (p.index node) }
    ensures table { seat.new.table ≡ seat.old.table }
    ensures claim { let p = layout board.now in
        IsClaim false p seat.old.knows (p.index node) result seat.new.knows }
{
    try_once(board, seat, node)
}

/// As `claim`, for the driver's node, when the driver's seat waits.
pub fn claim_driver(board: &Board, seat: &mut DriverSeat) -> Claim
    requires table { IsOn board.now seat.old.table }
    requires phase { let p = layout board.now in Claims true p seat.old.knows p.driver }
    ensures table { seat.new.table ≡ seat.old.table }
    ensures claim { let p = layout board.now in
        IsClaim true p seat.old.knows p.driver result seat.new.knows }
{
    let driver = board.shape().driver;
    try_once(board, seat, driver)
}
