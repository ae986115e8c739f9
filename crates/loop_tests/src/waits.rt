//! How threads wait, by counts: one that is not called spins while it looks, and then rests once;
//! one that is called before it looks does not spin.
ghost use Rattle.data_loop.specs.LoopWay.{IsDriverWay};
ghost use Rattle.ready_queues.specs.AnsweredWith.{IsWayOf};

use crate::queues::row_ways;
use data_loop::{Way, Ways, rest_unless_called};
use driver_cycle::rest_unless;
use std::alloc::Global;
use std::sync::Wait;
use std::test::Fail;

// A look of a loop and then its wait: whether the look saw a call, how often it spun, and how often
// the loop's thread has rested then.
fn waited<R: Wait>(rt: &R, ways: &Ways, way: &mut Way) -> (bool, u32, u64)
    requires { IsWayOf ways.now way.old }
{
    let look = ways.look(way);
    rest_unless_called(rt, ways, way);
    (look.called, look.spins, way.rested())
}

// The same of the driver's thread, which rests in any case: its token is there where it was called.
fn driver_waited<R: Wait>(rt: &R, ways: &Ways, way: &mut Way) -> (bool, u32, u64)
    requires { IsDriverWay ways.now way.old }
{
    let look = ways.look(way);
    rest_unless(rt, false, 0, ways, way);
    (look.called, look.spins, way.rested())
}

// The wait of a loop that is called before it looks; where it takes its number first, its token is
// all that is there.
fn called<R: Wait>(rt: &R, alloc: Global, takes: bool) -> Option<(bool, u32, u64)> {
    let (ways, mut driver, mut first, _second) = row_ways(alloc)?;
    ways.forward(rt, &mut driver, 1);
    if takes {
        let taken = [ways.receive(rt, &mut first), ways.receive(rt, &mut first)];
        if taken != [Some(0), None] {
            return None;
        }
    }
    Some(waited(rt, &ways, &mut first))
}

// The wait of the driver's thread that is called before it looks.
fn driver_called<R: Wait>(rt: &R, alloc: Global) -> Option<(bool, u32, u64)> {
    let (ways, mut driver, mut first, _second) = row_ways(alloc)?;
    ways.forward(rt, &mut first, 8);
    Some(driver_waited(rt, &ways, &mut driver))
}

#[test]
fn who_is_not_called_rests_once(rt: HostRuntime) -> Result<(), Fail> {
    assert_eq!(rt; called(&rt, rt.alloc(), true), Some((false, 256, 1)));
    assert_eq!(rt; called(&rt, rt.alloc(), false), Some((true, 0, 0)));
    assert_eq!(rt; driver_called(&rt, rt.alloc()), Some((true, 0, 1)));
    Ok(())
}

// A look of a loop that was called and has rested since, with its number still in its queue.
fn rested<R: Wait>(rt: &R, alloc: Global) -> Option<(bool, u32)> {
    let (ways, mut driver, mut first, _second) = row_ways(alloc)?;
    ways.forward(rt, &mut driver, 1);
    ways.rest(rt, &mut first);
    let look = ways.look(&first);
    Some((look.called, look.spins))
}

#[test]
fn who_has_rested_is_called_no_more(rt: HostRuntime) -> Result<(), Fail> {
    assert_eq!(rt; rested(&rt, rt.alloc()), Some((false, 256)));
    Ok(())
}

// How many of so many looks of a loop that nobody calls spun.
fn spun(alloc: Global, looks: u32) -> Option<u32> {
    let (ways, _driver, first, _second) = row_ways(alloc)?;
    let mut count = 0u32;
    for _ in 0..looks {
        if ways.look(&first).spins > 0 {
            count = count.saturating_add(1);
        }
    }
    Some(count)
}

// The first eight looks in vain spin, and then each 256th.
#[test]
fn who_looks_in_vain_spins_seldom(rt: HostRuntime) -> Result<(), Fail> {
    for (looks, wanted) in [(1, 1), (8, 8), (256, 8), (257, 9), (512, 9), (513, 10)] {
        assert_eq!(rt; spun(rt.alloc(), looks), Some(wanted));
    }
    Ok(())
}
