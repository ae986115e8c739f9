//! Two loops and the driver's thread: what is sent is received, and what sleeps is woken.
ghost use Rattle.std.specs.Prelude.{◌≡◌, ◌<◌, IfOk, IfSome};
ghost use Rattle.ready_queues.specs.AnsweredWith.{IsWayOf};
ghost use Rattle.ready_queues.specs.Starting.{IsIdle};

use pw_lists::{Items, Memory};
use ready_queues::{Way, Ways};
use std::alloc::Global;
use std::sync::Wait;
use std::test::Fail;
use std::thread::{Threads, join};

// The ways of two loops: nodes 0 and 1 are of loop 0, node 2 of loop 1, node 3 the driver's own.
fn two_loops(alloc: Global) -> Result<Option<(Ways, Way, Way, Way)>, Memory>
    ensures ways { IfOk result (λ o. IfSome o (λ t. t.0.loops ≡ 2)) }
    ensures driver { IfOk result (λ o. IfSome o (λ t. IsWayOf t.0 t.1)) }
    ensures first { IfOk result (λ o. IfSome o (λ t. IsWayOf t.0 t.2 × (t.2.number ≡ 0))) }
    ensures second { IfOk result (λ o. IfSome o (λ t. IsWayOf t.0 t.3 × (t.3.number ≡ 1))) }
    ensures idle { IfOk result (λ o. IfSome o (λ t. IsIdle t.2 × IsIdle t.3)) }
{
    let owner = Items::from_slice(alloc, &[0, 0, 1, 2])?;
    let (ways, driver, mut others) = Ways::new(alloc, &owner, 2)?;
    let Some(second) = others.pop() else {
        return Ok(None);
    };
    let Some(first) = others.pop() else {
        return Ok(None);
    };
    Ok(Some((ways, driver, first, second)))
}

// Sends a set so often: how often the answer was `full`.
fn send_often<R: Wait>(rt: &R, ways: &Ways, way: &mut Way, woke: u64, often: u32, full: u64) -> u32
    requires answered { IsWayOf ways.now way.old }
    ensures answered { IsWayOf ways.now way.new }
{
    let mut count = 0u32;
    for _ in 0..often {
        if ways.send(rt, way, woke) == full {
            count = count.saturating_add(1);
        }
    }
    count
}

// Receives so often, or until it is another node: how often it was this one before.
fn receive_all<R: Wait>(rt: &R, ways: &Ways, way: &mut Way, most: u32, node: u32) -> u32
    requires answered { IsWayOf ways.now way.old }
    requires own { way.old.number < ways.now.loops }
    ensures answered { IsWayOf ways.now way.new }
    ensures number { way.new.number ≡ way.old.number }
{
    let mut count = 0u32;
    for _ in 0..most {
        if ways.receive(rt, way) != Some(node) {
            break;
        }
        count = count.saturating_add(1);
    }
    count
}

// The woken node is received. What was unparked before does not sleep.
fn woken_is_received<R: Wait>(
    rt: &R,
    ways: &Ways,
    driver: &mut Way,
    first: &mut Way,
    second: &mut Way,
) -> bool
    requires loops { ways.now.loops ≡ 2 }
    requires driver { IsWayOf ways.now driver.old }
    requires first { IsWayOf ways.now first.old × (first.old.number ≡ 0) }
    requires second { IsWayOf ways.now second.old × (second.old.number ≡ 1) }
{
    let sent = ways.send(rt, driver, 1);
    let received = [ways.receive(rt, first), ways.receive(rt, second)];
    ways.rest(rt, first);
    ways.rest(rt, driver);
    ways.loops() == 2
        && sent == 0
        && received == [Some(0), None]
        && (first.taken(), second.taken(), driver.taken()) == (1, 0, 0)
}

// Nodes go to their loops; node 3 and node 63 are the driver's own.
fn nodes_go_to_their_loops<R: Wait>(rt: &R, ways: &Ways, first: &mut Way, second: &mut Way) -> bool
    requires loops { ways.now.loops ≡ 2 }
    requires first { IsWayOf ways.now first.old × (first.old.number ≡ 0) }
    requires second { IsWayOf ways.now second.old × (second.old.number ≡ 1) }
{
    let sent = ways.send(rt, second, 15 | 1 << 63);
    let firsts = [
        ways.receive(rt, first),
        ways.receive(rt, first),
        ways.receive(rt, first),
    ];
    let seconds = [ways.receive(rt, second), ways.receive(rt, second)];
    sent == 0
        && firsts == [Some(0), Some(1), None]
        && seconds == [Some(2), None]
        && (first.taken(), second.taken()) == (2, 1)
}

// A full queue loses nothing: 64 pushes are taken, those after them come back as their bits, and
// all 64 are then received.
fn full_queue_loses_nothing<R: Wait>(
    rt: &R,
    ways: &Ways,
    driver: &mut Way,
    first: &mut Way,
    second: &mut Way,
) -> bool
    requires loops { ways.now.loops ≡ 2 }
    requires driver { IsWayOf ways.now driver.old }
    requires first { IsWayOf ways.now first.old × (first.old.number ≡ 0) }
    requires second { IsWayOf ways.now second.old × (second.old.number ≡ 1) }
{
    let sent = send_often(rt, ways, driver, 2, 64, 0);
    let refused = [ways.send(rt, driver, 2), ways.send(rt, second, 7)];
    let taken = receive_all(rt, ways, first, 64, 1);
    let rest = [ways.receive(rt, first), ways.receive(rt, second)];
    sent == 64
        && refused == [2, 3]
        && taken == 64
        && rest == [None, Some(2)]
        && (first.taken(), second.taken()) == (64, 1)
}

// A receive finds nothing only where nothing is left: after 0, 1, 2 .. 64 pushes each is received
// before the first None. So the numbers go round the queue 32 times.
fn none_only_of_an_empty_queue<R: Wait>(
    rt: &R,
    ways: &Ways,
    driver: &mut Way,
    first: &mut Way,
) -> bool
    requires loops { ways.now.loops ≡ 2 }
    requires driver { IsWayOf ways.now driver.old }
    requires first { IsWayOf ways.now first.old × (first.old.number ≡ 0) }
{
    for pushes in 0..65 {
        let sent = send_often(rt, ways, driver, 2, pushes, 0);
        if sent != pushes || receive_all(rt, ways, first, 66, 1) != pushes {
            return false;
        }
    }
    first.taken() == 2080 && ways.receive(rt, first).is_none()
}

// What is forwarded wakes others: both nodes of its own loop, that of the other, and the driver's.
// A bit that is no node is the driver's own. What was unparked before does not sleep.
fn forwarded_wakes_others<R: Wait>(
    rt: &R,
    ways: &Ways,
    driver: &mut Way,
    first: &mut Way,
    second: &mut Way,
) -> bool
    requires loops { ways.now.loops ≡ 2 }
    requires driver { IsWayOf ways.now driver.old }
    requires first { IsWayOf ways.now first.old × (first.old.number ≡ 0) }
    requires second { IsWayOf ways.now second.old × (second.old.number ≡ 1) }
    requires idle { IsIdle first.old × IsIdle second.old }
{
    ways.start(first);
    ways.start(second);
    let sent = ways.forward(rt, first, 15);
    let firsts = [
        ways.receive(rt, first),
        ways.receive(rt, first),
        ways.receive(rt, first),
    ];
    let seconds = [ways.receive(rt, second), ways.receive(rt, second)];
    ways.rest(rt, second);
    ways.rest(rt, driver);
    let other = ways.forward(rt, second, 1 << 63);
    ways.rest(rt, driver);
    let own = ways.forward(rt, driver, 15);
    ways.rest(rt, first);
    ways.rest(rt, second);
    [sent, other, own] == [0, 0, 0]
        && firsts == [Some(0), Some(1), None]
        && seconds == [Some(2), None]
        && (first.taken(), second.taken(), driver.taken()) == (2, 1, 0)
}

// The driver is woken for a loop that has not started.
fn driver_is_woken<R: Wait>(
    rt: &R,
    ways: &Ways,
    driver: &mut Way,
    first: &Way,
    second: &mut Way,
) -> bool
    requires loops { ways.now.loops ≡ 2 }
    requires driver { IsWayOf ways.now driver.old }
    requires second { IsWayOf ways.now second.old × (second.old.number ≡ 1) }
    requires idle { IsIdle second.old }
{
    ways.start(second);
    let sent = ways.forward(rt, second, 1);
    ways.rest(rt, driver);
    sent == 0 && (first.taken(), second.taken()) == (0, 0)
}

// A start is seen: before it the driver is called for a node of the loop, and after it no more.
fn start_is_seen<R: Wait>(
    rt: &R,
    ways: &Ways,
    driver: &mut Way,
    first: &mut Way,
    second: &mut Way,
) -> bool
    requires loops { ways.now.loops ≡ 2 }
    requires driver { IsWayOf ways.now driver.old }
    requires first { IsWayOf ways.now first.old }
    requires second { IsWayOf ways.now second.old × (second.old.number ≡ 1) }
    requires idle { IsIdle second.old }
{
    let before = ways.forward(rt, first, 4);
    let called = ways.is_called_soon(driver);
    ways.rest(rt, driver);
    ways.start(second);
    let after = ways.forward(rt, first, 4);
    let spared = !ways.is_called_soon(driver);
    [before, after] == [0, 0] && called && spared
}

// Who is called sees it: the loop of a pushed node until it finds its queue empty, and the driver's
// thread until it rests. Nobody else is called.
fn calls_are_seen<R: Wait>(
    rt: &R,
    ways: &Ways,
    driver: &mut Way,
    first: &mut Way,
    second: &mut Way,
) -> bool
    requires loops { ways.now.loops ≡ 2 }
    requires driver { IsWayOf ways.now driver.old }
    requires first { IsWayOf ways.now first.old × (first.old.number ≡ 0) }
    requires second { IsWayOf ways.now second.old × (second.old.number ≡ 1) }
    requires idle { IsIdle first.old }
{
    ways.start(first);
    let before = [ways.is_called_soon(first), ways.is_called_soon(driver)];
    let sent = ways.forward(rt, second, 9);
    let called = [
        ways.is_called_soon(first),
        ways.is_called_soon(driver),
        ways.is_called_soon(second),
    ];
    let firsts = [ways.receive(rt, first), ways.receive(rt, first)];
    ways.rest(rt, driver);
    let after = [ways.is_called_soon(first), ways.is_called_soon(driver)];
    sent == 0
        && before == [false, false]
        && called == [true, true, false]
        && firsts == [Some(0), None]
        && after == [false, false]
        && (first.number(), second.number(), driver.number()) == (0, 1, 2)
}

// One of these eight, by its number.
fn goes<R: Wait>(
    rt: &R,
    which: u32,
    ways: &Ways,
    driver: &mut Way,
    first: &mut Way,
    second: &mut Way,
) -> bool
    requires loops { ways.now.loops ≡ 2 }
    requires driver { IsWayOf ways.now driver.old }
    requires first { IsWayOf ways.now first.old × (first.old.number ≡ 0) }
    requires second { IsWayOf ways.now second.old × (second.old.number ≡ 1) }
    requires idle { IsIdle first.old × IsIdle second.old }
{
    match which {
        0 => woken_is_received(rt, ways, driver, first, second),
        1 => nodes_go_to_their_loops(rt, ways, first, second),
        2 => full_queue_loses_nothing(rt, ways, driver, first, second),
        3 => forwarded_wakes_others(rt, ways, driver, first, second),
        4 => driver_is_woken(rt, ways, driver, first, second),
        5 => calls_are_seen(rt, ways, driver, first, second),
        6 => none_only_of_an_empty_queue(rt, ways, driver, first),
        7 => start_is_seen(rt, ways, driver, first, second),
        _ => false,
    }
}

#[test]
fn numbers_go_to_their_loops(rt: HostRuntime) -> Result<(), Fail> {
    for which in 0..8 {
        let went = match two_loops(rt.alloc()) {
            Ok(Some((ways, mut driver, mut first, mut second))) => {
                goes(&rt, which, &ways, &mut driver, &mut first, &mut second)
            }
            _ => false,
        };
        assert_eq!(rt; (which, went), (which, true));
    }
    Ok(())
}

// Forwards a node until it was taken so often, and rests where the queue is full.
fn feed<R: Wait>(rt: &R, ways: &Ways, mut way: Way, woke: u64, often: u32)
    requires answered { IsWayOf ways.now way }
{
    let mut sent = 0u32;
    for _ in rt.forever() {
        if sent >= often {
            return;
        }
        if ways.forward(rt, &mut way, woke) == 0 {
            sent += 1;
        } else {
            ways.rest(rt, &mut way);
        }
    }
}

// Receives `often` numbers, and rests where the queue is empty.
fn eat<R: Wait>(rt: &R, ways: &Ways, mut way: Way, often: u64) -> u64
    requires answered { IsWayOf ways.now way }
    requires own { way.number < ways.now.loops }
{
    for _ in rt.forever() {
        if way.taken() >= often {
            break;
        }
        match ways.receive(rt, &mut way) {
            Some(_) => {
                ways.send(rt, &mut way, 0);
            }
            None => ways.rest(rt, &mut way),
        }
    }
    way.taken()
}

// One thread forwards 1000 numbers, another receives them.
fn feed_and_eat<R: Threads + Wait + Sync>(rt: &R, ways: &Ways, driver: Way, own: Way) -> u64
    requires driver { IsWayOf ways.now driver }
    requires answered { IsWayOf ways.now own }
    requires own { own.number < ways.now.loops }
{
    let (_, taken) = join(
        rt,
        move ||
            requires { IsWayOf ways.now driver }
        { feed(rt, ways, driver, 1, 1000) },
        move ||
            requires { IsWayOf ways.now own × (own.number < ways.now.loops) }
        { eat(rt, ways, own, 1000) },
    );
    taken
}

#[test]
fn a_thousand_numbers_cross(rt: HostRuntime) -> Result<(), Fail> {
    let taken = match two_loops(rt.alloc()) {
        Ok(Some((ways, driver, first, _second))) => feed_and_eat(&rt, &ways, driver, first),
        _ => 0,
    };
    assert_eq!(rt; taken, 1000);
    Ok(())
}
