//! What the row of a split and a mixer wakes, and how that is sent to the queues of its two loops.
ghost use Rattle.std.specs.Prelude.{◌≡◌, IfSome};
ghost use Rattle.data_loop.specs.LoopWay.{IsDriverWay};
ghost use Rattle.ready_queues.specs.AnsweredWith.{IsWayOf};
ghost use Rattle.loop_tests.specs.Crew.{IsCrewOn};

use crate::crew::Crew;
use crate::stepping::try_at;
use crate::steps::{ROW, crew_by};
use board_rule::{Board, BoardSeat};
use data_loop::{Tried, Way, Ways};
use pw_lists::Items;
use pw_outside::Open;
use std::alloc::Global;
use std::sync::Wait;
use std::test::Fail;

// The ways of the row: the driver's, which has the sink, and those of loop 0, which has the nodes 0
// and 2, and of loop 1, which has node 1.
pub(crate) fn row_ways(alloc: Global) -> Option<(Ways, Way, Way, Way)>
    ensures loops { IfSome result (λ t. t.0.loops ≡ 2) }
    ensures driver { IfSome result (λ t. IsDriverWay t.0 t.1) }
    ensures first { IfSome result (λ t. IsWayOf t.0 t.2 × (t.2.number ≡ 0)) }
    ensures second { IfSome result (λ t. IsWayOf t.0 t.3 × (t.3.number ≡ 1)) }
{
    let Ok(owner) = Items::from_slice(alloc, &[0, 1, 0, 2]) else {
        return None;
    };
    let Ok((ways, driver, mut others)) = Ways::new(alloc, &owner, 2) else {
        return None;
    };
    let Some(second) = others.pop() else {
        return None;
    };
    let Some(first) = others.pop() else {
        return None;
    };
    Some((ways, driver, first, second))
}

// What the beginning of a cycle wakes, and what the turn of the source wakes then. None where no
// cycle is left, or the source is not awake.
fn woken(board: &Board, crew: &mut Crew) -> Option<(u64, u64)>
    requires on { IsCrewOn board.now crew.old }
{
    if !crew.begin(board) {
        return None;
    }
    let begun = crew.seat.woke();
    match try_at(board, crew, 0, 0, &Open::new()) {
        Tried::Ran => Some((begun, crew.woke(0))),
        _ => None,
    }
}

// The next number of each of the two loops.
fn received<R: Wait>(rt: &R, ways: &Ways, first: &mut Way, second: &mut Way) -> [Option<u32>; 2]
    requires loops { ways.now.loops ≡ 2 }
    requires first { IsWayOf ways.now first.old × (first.old.number ≡ 0) }
    requires second { IsWayOf ways.now second.old × (second.old.number ≡ 1) }
    ensures first { IsWayOf ways.now first.new × (first.new.number ≡ 0) }
    ensures second { IsWayOf ways.now second.new × (second.new.number ≡ 1) }
{
    [ways.receive(rt, first), ways.receive(rt, second)]
}

// Whether what was begun is sent only to the first loop, and then what the source's turn woke only
// to the second.
fn numbers_come<R: Wait>(
    rt: &R,
    ways: &Ways,
    way: &mut Way,
    first: &mut Way,
    second: &mut Way,
    woke: (u64, u64),
) -> bool
    requires loops { ways.now.loops ≡ 2 }
    requires driver { IsDriverWay ways.now way.old }
    requires first { IsWayOf ways.now first.old × (first.old.number ≡ 0) }
    requires second { IsWayOf ways.now second.old × (second.old.number ≡ 1) }
{
    let sent = ways.send(rt, way, woke.0);
    let early = received(rt, ways, first, second);
    let forwarded = ways.forward(rt, first, woke.1);
    let late = received(rt, ways, first, second);
    (sent, forwarded) == (0, 0) && early == [Some(0), None] && late == [None, Some(1)]
}

// Whether the row wakes the source and then the split, and their numbers are sent to their loops.
// None where it is not made, or the source is not awake.
fn row_wakes<R: Wait>(rt: &R, alloc: Global) -> Option<bool> {
    let (board, mut crew) = crew_by(alloc, ROW, 2)?;
    let woke = woken(&board, &mut crew)?;
    let (ways, mut way, mut first, mut second) = row_ways(alloc)?;
    let come = numbers_come(rt, &ways, &mut way, &mut first, &mut second, woke);
    Some(woke == (1, 2) && come)
}

#[test]
fn what_is_woken_goes_to_its_loop(rt: HostRuntime) -> Result<(), Fail> {
    assert_eq!(rt; row_wakes(&rt, rt.alloc()), Some(true));
    Ok(())
}
