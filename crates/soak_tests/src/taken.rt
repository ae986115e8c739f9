//! A run by loops in threads, of which each counts how many numbers it took out of its queue.
ghost use Rattle.std.specs.Prelude.{◌≡◌, ◌≤◌, All, IfOk, IfSome, length, map};
ghost use Rattle.ready_queues.specs.Lanes.{loops_limit};
ghost use Rattle.soak_tests.specs.Threads.{CanStart, CanDrive};
ghost use Rattle.plan_support.specs.Work.{CanRun};

use crate::work::{Work, work_of};
use board_rule::{Board, DriverSeat};
use data_loop::{LoopState, Way, Ways, run_all};
use graph_run::{Course, boards_of, loop_seating, loops_of, run_epochs, ways_of};
use pw_lists::{Items, Memory};
use pw_outside::{Every, Open};
use std::alloc::Global;
use std::process::Abort;
use std::sync::Wait;
use std::sync::atomic::{AtomicU64, Ordering};
use std::test::Fail;
use std::thread;
use std::thread::{Scope, Threads};

// Each loop with its way.
fn paired(
    alloc: Global,
    states: Items<LoopState>,
    ways: Items<Way>,
) -> Result<Items<(LoopState, Way)>, Memory>
    requires { length ways ≡ length states }
    ensures states { IfOk result (λ all. map (λ x. x.0) all ≡ states) }
    ensures ways { IfOk result (λ all. map (λ x. x.1) all ≡ ways) }
{
    let mut all = Items::new(alloc);
    let mut rest = ways.into_vec().into_iter();
    for state in states.into_vec() {
        if let Some(way) = rest.next() {
            all.push((state, way))?;
        }
    }
    Ok(all)
}

// What the threads of a run share: the boards, the queues, and how many numbers were taken.
#[derive(Drop)]
struct Common {
    boards: Items<Board>,
    ways: Ways,
    taken: AtomicU64,
}

// What a run begins with: what its threads share, the loops with their ways, and what the driver's
// thread has.
#[derive(Drop)]
struct Begun {
    common: Common,
    loops: Items<(LoopState, Way)>,
    own: LoopState,
    drivers: Items<DriverSeat>,
    way: Way,
}

fn begin_run(alloc: Global, work: &Work, loops: u32) -> Result<Option<Begun>, Memory>
    requires work { CanRun work.now.plan work.now.waves }
    requires few { loops ≤ loops_limit }
    ensures loops { IfOk result (λ o. IfSome o (λ b.
        All (CanStart b.common.boards b.common.ways) b.loops)) }
    ensures driver { IfOk result (λ o. IfSome o (λ b.
        CanDrive b.common.boards b.common.ways b.own b.drivers b.way)) }
{
    let plan = &work.plan;
    let seating = loop_seating(alloc, plan, loops)?;
    let all = boards_of(alloc, plan, &work.waves, &seating)?;
    let mut states = loops_of(alloc, plan, &work.waves, &seating, all.seats)?;
    let (ways, way, others) = ways_of(alloc, plan, loops)?;
    let Some(own) = states.pop() else {
        return Ok(None);
    };
    let loops = paired(alloc, states, others)?;
    Ok(Some(Begun {
        common: Common {
            boards: all.boards,
            ways,
            taken: AtomicU64::new(0),
        },
        loops,
        own,
        drivers: all.drivers,
        way,
    }))
}

// All epochs of a loop. How many numbers it took is added.
fn go<R: Wait>(rt: &R, common: &Common, one: (LoopState, Way))
    requires { CanStart common.now.boards common.now.ways one }
{
    let (state, way) = one;
    let (_state, way) = run_all(rt, state, &common.boards, &common.ways, way, &Open::new());
    common.taken.fetch_add(way.taken(), Ordering::SeqCst);
}

// Starts a loop in a thread of its own. Whether there is one.
fn start_one<'s, E, R: Threads + Wait + Sync>(
    rt: &'s R,
    scope: &Scope<'s, E>,
    common: &'s Common,
    one: (LoopState, Way),
) -> bool
    requires { CanStart common.now.boards common.now.ways one }
{
    match scope.spawn(move || go(rt, common, one)) {
        Ok(_handle) => true,
        Err(_refused) => false,
    }
}

// Starts each loop in a thread of its own. Where a start is refused the run would not end, so the
// process does.
fn start_all<'s, E, R: Threads + Wait + Sync + Abort>(
    rt: &'s R,
    scope: &Scope<'s, E>,
    common: &'s Common,
    loops: Items<(LoopState, Way)>,
)
    requires { All (CanStart common.now.boards common.now.ways) loops }
{
    for one in loops.into_vec() {
        assert!(rt; start_one(rt, scope, common, one));
    }
}

// All epochs of the driver's own loop.
fn drive<R: Wait>(rt: &R, common: &Common, own: LoopState, drivers: Items<DriverSeat>, way: Way)
    requires { CanDrive common.now.boards common.now.ways own drivers way }
{
    let mut own = own;
    let mut drivers = drivers;
    let mut way = way;
    let mut ticker = Every::new(2);
    let gate = Open::new();
    let course = Course {
        boards: &common.boards,
        ways: &common.ways,
        gate: &gate,
    };
    run_epochs(
        rt,
        &course,
        drivers.as_mut_slice(),
        &mut own,
        &mut [],
        &mut way,
        &mut ticker,
    );
}

// The run within a scope: it starts the loops, and drives.
fn run_within<R: Threads + Wait + Sync + Abort>(
    rt: &R,
    common: &Common,
    loops: Items<(LoopState, Way)>,
    own: LoopState,
    drivers: Items<DriverSeat>,
    way: Way,
)
    requires loops { All (CanStart common.now.boards common.now.ways) loops }
    requires driver { CanDrive common.now.boards common.now.ways own drivers way }
{
    thread::scope(
        thread::scope_env(),
        rt,
        move |scope|
            requires loops { All (CanStart common.now.boards common.now.ways) loops }
            requires driver { CanDrive common.now.boards common.now.ways own drivers way }
        {
            start_all(rt, scope, common, loops);
            drive(rt, common, own, drivers, way);
        },
    )
}

// How many numbers the loops of a run took.
fn taken_in<R: Threads + Wait + Sync + Abort>(
    rt: &R,
    alloc: Global,
    work: &Work,
    loops: u32,
) -> Option<u64>
    requires work { CanRun work.now.plan work.now.waves }
    requires few { loops ≤ loops_limit }
{
    match begin_run(alloc, work, loops) {
        Ok(Some(begun)) => {
            let Begun {
                common,
                loops,
                own,
                drivers,
                way,
            } = begun;
            run_within(rt, &common, loops, own, drivers, way);
            Some(common.taken.load(Ordering::SeqCst))
        }
        _ => None,
    }
}

// The same of the graph of a number. None where it has no plan.
fn taken_by<R: Threads + Wait + Sync + Abort>(
    rt: &R,
    alloc: Global,
    number: u32,
    loops: u32,
) -> Option<u64>
    requires few { loops ≤ loops_limit }
{
    match work_of(alloc, number) {
        Ok(Some(work)) => taken_in(rt, alloc, &work, loops),
        _ => None,
    }
}

// All nodes are woken by others, so that their loops need not find them by a scan.
#[test]
fn loops_take_numbers_from_their_queues(rt: HostRuntime) -> Result<(), Fail> {
    assert!(rt; taken_by(&rt, rt.alloc(), 7, 4).unwrap_or(0) > 0);
    Ok(())
}
