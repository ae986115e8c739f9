//! The words of a board after the beginning of a cycle of four nodes in a row, what claims find,
//! and a check.
ghost use Rattle.board_rule.specs.OnBoard.{IsOn, layout};
ghost use Rattle.std.specs.Prelude.{◌≡◌, ◌≤◌, length, slice_get, Some, [], ◌∷◌, slice_index, false, IsTrue, IsFalse, IfSome, IfOk};
ghost use Rattle.board_rule.specs.Layout.{layout_of};
ghost use Rattle.activation_words.specs.Members.{IsResting, AllRest, IsBetween, IsWaiting};

use activation_words::{Claim, begin, check_late, claim};
use board_rule::{Board, BoardSeat, DriverSeat, LoopSeat, index_in};
use graph_checks::is_pooled_shape;
use pw_graph::{PortId, Shape, ShapeLink, ShapeNode};
use pw_lists::{Items, Memory};
use std::alloc::Global;
use std::marker::Brand;
use std::test::Fail;

/// The nodes of a source 0, a split 1, a mixer 2 and a sink 3 in a row: their required counts and
/// targets.
const NODES: [(u32, u32, &'static [u32]); 4] = [
    (0, 1, &[1, 3]),
    (1, 2, &[2, 3]),
    (2, 2, &[3]),
    (3, 4, &[0, 1, 2, 3]),
];

/// Their links, each of one channel from a port to a port.
const LINKS: [((u32, u32), (u32, u32)); 4] = [
    ((0, 0), (1, 0)),
    ((1, 1), (2, 0)),
    ((1, 2), (2, 1)),
    ((2, 2), (3, 0)),
];

// The row for one cycle. The sink drives.
fn row(alloc: Global) -> Result<Shape, Memory> {
    let mut nodes = Items::new(alloc);
    for (node, required, targets) in NODES.as_slice() {
        nodes.push(ShapeNode {
            node: *node,
            required: *required,
            targets: Items::from_slice(alloc, targets)?,
        })?;
    }
    let mut links = Items::new(alloc);
    for (from, to) in LINKS.as_slice() {
        links.push(ShapeLink {
            from: PortId {
                node: from.0,
                port: from.1,
            },
            to: PortId {
                node: to.0,
                port: to.1,
            },
            channels: 1,
            buffers: 2,
            delayed: false,
        })?;
    }
    Ok(Shape {
        quantum: 4,
        first: 0,
        cycles: 1,
        driver: 3,
        nodes,
        links,
    })
}

// The two seats of a board for two loops, in their order.
fn both(loops: Items<LoopSeat>) -> Option<(LoopSeat, LoopSeat)>
    requires { length loops ≡ 2 }
    ensures { IfSome result (λ t. (slice_get loops 0 ≡ Some t.0) × (slice_get loops 1 ≡ Some t.1)) }
{
    let mut loops = loops;
    let two = loops.pop()?;
    let one = loops.pop()?;
    Some((one, two))
}

// Nodes 0 and 2 belong to the first loop, node 1 to the second.
fn seats_of_row(alloc: Global) -> Result<Items<u32>, Memory>
    ensures { IfOk result (λ seats. seats ≡ 0 ∷ 1 ∷ 0 ∷ 0 ∷ []) }
{
    Items::from_slice(alloc, &[0, 1, 0, 0])
}

// A board for a shape of four nodes, with a seat for each of two loops. None for another shape, or
// one that is not pooled.
fn opened(
    alloc: Global,
    shape: &Shape,
) -> Result<Option<(Board, DriverSeat, LoopSeat, LoopSeat)>, Memory>
    ensures { IfOk result (λ o. IfSome o (λ t. (t.0.board_shape.shape ≡ shape.now)
        × IsOn t.0 t.1.table × IsOn t.0 t.2.table
        × IsOn t.0 t.3.table × (t.0.board_shape.seat_of ≡ 0 ∷ 1 ∷ 0 ∷ 0 ∷ [])
        × (let p = layout_of t.0.board_shape in IsBetween p t.1.knows × AllRest p 0 t.2.knows × AllRest p 1 t.3.knows))) }
{
    if !is_pooled_shape(shape) || shape.nodes.len() != 4 {
        return Ok(None);
    }
    let seat_of = seats_of_row(alloc)?;
    let (board, driver, loops) = Board::new::<Brand>(alloc, shape, &seat_of, 2)?;
    match both(loops) {
        Some((one, two)) => Ok(Some((board, driver, one, two))),
        None => Ok(None),
    }
}

// The seat of each index, as the board has it.
fn seat_at(at: usize) -> u32
    ensures { result ≡ slice_index (0 ∷ 1 ∷ 0 ∷ 0 ∷ []) at }
{
    if at == 1 { 1 } else { 0 }
}

// One try of a follower, without its work. None where it has no cycles left.
fn look(board: &Board, seat: &mut LoopSeat, node: u32) -> Option<Claim>
    requires table { IsOn board.now seat.old.table }
    requires rests { let p = layout board.now in IsResting p seat.old.knows (p.index node) }
{
    if seat.ended(board, node) == board.shape().cycles {
        return None;
    }
    Some(claim(board, seat, node))
}

// The same by the seat of a loop. None also where the node is not the loop's.
fn claim_follower(board: &Board, seat: &mut LoopSeat, of_loop: u32, node: u32) -> Option<Claim>
    requires table { IsOn board.now seat.old.table }
    requires row { board.now.board_shape.seat_of ≡ 0 ∷ 1 ∷ 0 ∷ 0 ∷ [] }
    requires rests { AllRest (layout board.now) of_loop seat.old.knows }
{
    let shape = board.shape();
    let at = index_in(shape, node);
    if at == shape.nodes.len() || at == index_in(shape, shape.driver) {
        return None;
    }
    if at > shape.nodes.len() || seat_at(at) != of_loop {
        return None;
    }
    look(board, seat, node)
}

// Begins the next cycle, if there is one.
fn begin_next(board: &Board, seat: &mut DriverSeat) -> bool
    requires table { IsOn board.now seat.old.table }
    requires between { IsBetween (layout board.now) seat.old.knows }
    ensures table { seat.new.table ≡ seat.old.table }
    ensures begun { IsTrue result → IsWaiting (layout board.now) seat.new.knows
        × (seat.new.knows.lead.checked ≡ false) }
    ensures none { IsFalse result → IsBetween (layout board.now) seat.new.knows }
{
    let driver = board.shape().driver;
    if seat.ended(board, driver) == board.shape().cycles {
        return false;
    }
    begin(board, seat);
    true
}

// Whether the pending and the status words of four nodes are these.
fn is_at(board: &Board, pending: (u64, u64, u64, u64), status: (u64, u64, u64, u64)) -> bool {
    board.shape().nodes.len() == 4
        && board.peek(1) == pending.0
        && board.peek(2) == pending.1
        && board.peek(3) == pending.2
        && board.peek(4) == pending.3
        && board.peek(5) == status.0
        && board.peek(6) == status.1
        && board.peek(7) == status.2
        && board.peek(8) == status.3
}

// On a board of the row: whether a check right after the begin names the unfinished, or else the
// words are those of a begin, and of what claims find then.
fn begins_so(alloc: Global, checked: bool) -> bool {
    let Ok(shape) = row(alloc) else {
        return false;
    };
    match opened(alloc, &shape) {
        Ok(Some((board, mut driver, mut one, mut two))) => {
            if !begin_next(&board, &mut driver) {
                return false;
            }
            if checked {
                return check_late(&board, &mut driver) == 7;
            }
            is_at(&board, (0, 1, 1, 3), (1, 0, 0, 0))
                && driver.woke() == 1
                && claim_follower(&board, &mut two, 1, 1) == Some(Claim::NotYet { found: 0 })
                && claim_follower(&board, &mut one, 0, 0) == Some(Claim::Awake { cycle: 0 })
                && is_at(&board, (0, 1, 1, 3), (2, 0, 0, 0))
        }
        _ => false,
    }
}

#[test]
fn a_begin_and_two_claims_write_their_words(rt: HostRuntime) -> Result<(), Fail> {
    assert!(rt; begins_so(rt.alloc(), false));
    Ok(())
}

#[test]
fn a_check_names_the_unfinished(rt: HostRuntime) -> Result<(), Fail> {
    assert!(rt; begins_so(rt.alloc(), true));
    Ok(())
}
