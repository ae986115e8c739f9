//! The late check: which followers have not finished the cycle when the driver's seat looks.
ghost use Rattle.board_rule.specs.OnBoard.{IsOn, layout};
ghost use Rattle.pw_lists.specs.Limits.{dummy_node};
ghost use Rattle.std.specs.Prelude.{◌≡◌, ◌≢◌, true, false, ℕ, ◌+◌, ◌<◌, ◌≤◌, cond, eqb, slice_index};
ghost use Rattle.pw_graph.specs.Layout.{event_count};
ghost use Rattle.pw_graph.specs.Words.{finished_word};
ghost use Rattle.pw_graph.specs.Dependencies.{nodes_of};
ghost use Rattle.board_rule.specs.declared.view.DriverPhase.TheVariants.{Waiting, Checking};
ghost use Rattle.board_rule.specs.events.Bits.{with_bit};
ghost use Rattle.board_rule.specs.Layout.{nodes};
ghost use Rattle.board_rule.specs.Steps.{HasNode};
ghost use Rattle.board_rule.specs.events.EventSteps.{Looks, looked};
ghost use Rattle.activation_words.specs.CycleCalls.{HasChecked};
ghost use Rattle.activation_words.specs.working.Checks.{tick_drawn, LooksAt, IsLooking};

use board_rule::{Board, BoardSeat, DriverSeat};
use pw_graph::{ActivationStatus, status_word};

// The late set with one node more where its word was not FINISHED of the cycle.
fn late_with(late: u64, node: u32, found: u64, cycle: u32) -> u64
    requires { node ≤ dummy_node }
    ensures { result ≡ cond (eqb found (finished_word cycle)) late (with_bit late node) }
{
    if found == status_word(ActivationStatus::Finished.number(), cycle) {
        late
    } else {
        late | 1 << node
    }
}

// The ticket of a Tick is drawn.
fn draw_tick(board: &Board, seat: &mut DriverSeat)
    requires table { IsOn board.now seat.old.table }
    requires node { let p = layout board.now in HasNode true p seat.old.knows p.driver }
    requires waits { seat.old.knows.lead.drive ≡ Waiting }
    requires unchecked { seat.old.knows.lead.checked ≡ false }
    ensures table { seat.new.table ≡ seat.old.table }
    ensures knows { let p = layout board.now in
        ((ticket : ℕ) × (ticket < event_count p.shape)
        × (seat.new.knows ≡ tick_drawn seat.old.knows ticket)) }
{
    let driver = board.shape().driver;
    seat.draw_ticket(board, driver);
}

// The number of the node at an index.
fn node_at(board: &Board, at: usize) -> u32
    requires { at < nodes (layout board.now) }
    ensures { result ≡ (layout board.now).number at }
{
    board.shape().nodes.as_slice()[at].node
}

// The status word of the follower at an index is loaded.
fn look_at(board: &Board, seat: &mut DriverSeat, at: usize, late: u64, cycle: u32) -> u64
    requires table { IsOn board.now seat.old.table }
    requires inside { at < nodes (layout board.now) }
    requires phase { at ≢ (layout board.now).driver
        → Looks (layout board.now) seat.old.knows at }
    requires cycle { cycle ≡ seat.old.knows.lead.cycle }
    ensures table { seat.new.table ≡ seat.old.table }
    ensures knows { let p = layout board.now in
        LooksAt p seat.old.knows at late cycle seat.new.knows result }
{
    let node = node_at(board, at);
    if node == board.shape().driver {
        return late;
    }
    let found = seat.load_status(board, node);
    late_with(late, node, found, cycle)
}

// The status word of each follower is loaded, in their order.
fn look_at_all(board: &Board, seat: &mut DriverSeat) -> u64
    requires table { IsOn board.now seat.old.table }
    requires node { let p = layout board.now in HasNode true p seat.old.knows p.driver }
    requires phase { IsLooking (layout board.now) seat.old.knows 0 0 seat.old.knows }
    requires checking { seat.old.knows.lead.drive ≡ Checking }
    ensures table { seat.new.table ≡ seat.old.table }
    ensures knows { let p = layout board.now in
        IsLooking p seat.old.knows (nodes p) result seat.new.knows }
{
    let driver = board.shape().driver;
    let cycle = board.shape().first + seat.ended(board, driver);
    let mut late = 0;
    for at in 0..board.shape().nodes.len() {
        late = look_at(board, seat, at, late, cycle);
    }
    late
}

/// Looks which followers have not finished this cycle, and stores them as a Tick. A bit of the
/// answer is set exactly where this call's load of that follower's status word found another word
/// than FINISHED of this cycle; bit n is node n.
/// Condition: the seat waits for its own node, and has made no check in this cycle. It starts no
/// cycle and wakes nobody.
pub fn check_late(board: &Board, seat: &mut DriverSeat) -> u64
    requires table { IsOn board.now seat.old.table }
    requires node { let p = layout board.now in HasNode true p seat.old.knows p.driver }
    requires waits { seat.old.knows.lead.drive ≡ Waiting }
    requires unchecked { seat.old.knows.lead.checked ≡ false }
    ensures table { seat.new.table ≡ seat.old.table }
    ensures knows { HasChecked (layout board.now) seat.old.knows result seat.new.knows }
{
    draw_tick(board, seat);
    let late = look_at_all(board, seat);
    seat.store_late(board, late);
    let driver = board.shape().driver;
    seat.store_event(board, driver);
    late
}
