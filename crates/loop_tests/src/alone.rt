//! All epochs of a plan by one thread: its own loop, and those that it adopted.
ghost use Rattle.std.specs.Prelude.{◌≡◌, ◌≤◌, All, IfOk, length};
ghost use Rattle.data_loop.specs.LoopWay.{IsDriverWay};
ghost use Rattle.data_loop.specs.Loops.{IsLoop, plan_of};
ghost use Rattle.ready_queues.specs.Lanes.{loops_limit};
ghost use Rattle.graph_run.specs.LoopsOnPlan.{IsReady, HasDrivers, HasNoDriver, AreFirstLeads, HasCome};
ghost use Rattle.graph_run.specs.Seating.{holder_of, nodes_of_loop};
ghost use Rattle.plan_support.specs.Work.{CanRun};

use crate::runs::has_one;
use crate::threads::{BOTH, TWO_SQUARES};
use board_rule::{Board, DriverSeat};
use data_loop::{LoopState, Way, Ways};
use graph_run::{
    Course, Seating, boards_of, finish_run, loop_seating, loops_of, prepare_alone, run_alone,
    run_epochs,
};
use plan_support::{Work, WorkRow, work_of};
use pw_graph::{Kind, Plan};
use pw_lists::{Items, Memory};
use pw_outside::{Every, Open};
use std::alloc::Global;
use std::sync::Wait;
use std::test::Fail;

// All epochs, with a look in every second cycle and a gate that lets each node through.
fn run_open<R: Wait>(
    rt: &R,
    boards: &Items<Board>,
    drivers: &mut [DriverSeat],
    own: &mut LoopState,
    adopted: &mut [LoopState],
    ways: &Ways,
    way: &mut Way,
)
    requires own { IsReady boards.now own.old }
    requires has { HasDrivers own.old }
    requires adopted { All (IsReady boards.now) adopted.old }
    requires none { All HasNoDriver adopted.old }
    requires drivers { AreFirstLeads own.old.run_model boards.now drivers.old }
    requires way { IsDriverWay ways.now way.old }
    ensures own { HasCome (length boards.now) own.old own.new }
{
    let mut ticker = Every::new(2);
    let gate = Open::new();
    let course = Course {
        boards,
        ways,
        gate: &gate,
    };
    run_epochs(rt, &course, drivers, own, adopted, way, &mut ticker);
}

// The ways of a run whose nodes all belong to the driver's thread.
fn ways_of(alloc: Global, loops: u32) -> Result<(Ways, Way), Memory>
    requires few { loops ≤ loops_limit }
    ensures { IfOk result (λ t. IsDriverWay t.0 t.1) }
{
    let (ways, way, _others) = Ways::new(alloc, &Items::new(alloc), loops)?;
    Ok((ways, way))
}

// Whether a node is a sink of the driver's own loop, and has kept these samples.
fn has_kept(plan: &Plan, seating: &Seating, own: &LoopState, node: u32, wanted: &[i16]) -> bool
    requires whole { IsLoop own.now }
    requires plan_is { plan_of own.now ≡ plan.now }
    requires nodes_are { own.now.nodes
        ≡ nodes_of_loop (holder_of seating.now) plan.now seating.now.loops }
{
    let Some(it) = plan.nodes.as_slice().get(node as usize) else {
        return false;
    };
    if seating.holder(node) != seating.loops() {
        return false;
    }
    match it.kind {
        Kind::Sink => own.kept(node) == wanted,
        _ => false,
    }
}

// Whether a sink that drives keeps these samples in all epochs by one thread, which adopts `loops`
// loops.
fn keeps_by<R: Wait>(
    rt: &R,
    alloc: Global,
    work: &Work,
    loops: u32,
    ways: &Ways,
    way: &mut Way,
    node: u32,
    wanted: &[i16],
) -> bool
    requires work { CanRun work.now.plan work.now.waves }
    requires few { loops ≤ loops_limit }
    requires way { IsDriverWay ways.now way.old }
{
    let plan = &work.plan;
    let Ok(seating) = loop_seating(alloc, plan, loops) else {
        return false;
    };
    let Ok(all) = boards_of(alloc, plan, &work.waves, &seating) else {
        return false;
    };
    let boards = all.boards;
    let mut drivers = all.drivers;
    let Ok(mut states) = loops_of(alloc, plan, &work.waves, &seating, all.seats) else {
        return false;
    };
    let Some(mut own) = states.pop() else {
        return false;
    };
    run_open(
        rt,
        &boards,
        drivers.as_mut_slice(),
        &mut own,
        states.as_mut_slice(),
        ways,
        way,
    );
    has_kept(plan, &seating, &own, node, wanted)
}

// The same with new ways.
fn keeps_anew<R: Wait>(
    rt: &R,
    alloc: Global,
    work: &Work,
    loops: u32,
    node: u32,
    wanted: &[i16],
) -> bool
    requires work { CanRun work.now.plan work.now.waves }
    requires few { loops ≤ loops_limit }
{
    match ways_of(alloc, loops) {
        Ok((ways, mut way)) => keeps_by(rt, alloc, work, loops, &ways, &mut way, node, wanted),
        Err(_memory) => false,
    }
}

// The same of a whole run in three pieces: all memory, all epochs, and the end.
fn keeps_in_pieces<R: Wait>(rt: &R, alloc: Global, work: &Work, wanted: &[i16]) -> bool
    requires work { CanRun work.now.plan work.now.waves }
{
    let Ok(run) = prepare_alone(alloc, &work.plan, &work.waves) else {
        return false;
    };
    let ended = run_alone(rt, alloc, &Open::new(), run);
    let (outcome, closed) = finish_run(alloc, &work.plan, &work.waves, ended);
    closed.len() == work.plan.epochs.len() && has_one(&outcome, wanted)
}

/// A work, its sink that drives, and what this keeps.
type AloneRow = (WorkRow<'static>, u32, &'static [i16]);

const ROWS: [AloneRow; 5] = [
    // The left channel, and half of the right one.
    (
        WorkRow {
            text: "quantum 2\nsource s s.wav\nsplit x\nloop x 1\nmix2 m 256 128\nsink o o.wav\ndriver o 1\n\
                link s.out x.in\nlink x.left m.a\nlink x.right m.b\nlink m.out o.in\ncycles 1\ncycles 1\n",
            channels: 2,
            samples: &[1, 10, 2, 20, 3, 30, 4, 40],
        },
        3,
        &[6, 12, 18, 24],
    ),
    // A source that was off goes on where it stopped.
    (
        WorkRow {
            text: "quantum 2\nsource s s.wav\nsink o o.wav\ndriver o 1\nlink s.out o.in\ncycles 1\noff s\n\
                cycles 1\non s\ncycles 1\n",
            channels: 1,
            samples: &[1, 2, 3, 4, 5, 6],
        },
        1,
        &[1, 2, 0, 0, 3, 4],
    ),
    // The delay holds 2 when it is unlinked, and gives 0 when it begins anew.
    (
        WorkRow {
            text: "quantum 2\nsource s s.wav\ndelay d 1\nloop d 1\nsink o o.wav\ndriver o 1\nlink s.out d.in\n\
                link d.out o.in\ncycles 1\nunlink s.out d.in\nunlink d.out o.in\nlink s.out d.in\n\
                link d.out o.in\ncycles 1\n",
            channels: 1,
            samples: &[1, 2, 3, 4],
        },
        2,
        &[0, 1, 0, 3],
    ),
    // What the mixer gives is fed back half as loud, two cycles later.
    (
        WorkRow {
            text: "quantum 1\nsource s s.wav\nmix2 m 256 128\ngain g 256\nloop g 1\nasync g\nsink o o.wav\n\
                driver o 1\nlink s.out m.a\nlink m.out g.in\nlink g.out m.b\nlink m.out o.in\ncycles 5\n",
            channels: 1,
            samples: &[8],
        },
        3,
        &[8, 0, 4, 0, 2],
    ),
    // Two squares of 100, whose loops have the numbers 0 and 5.
    (TWO_SQUARES, 2, &BOTH),
];

// Whether the sink of a row keeps its samples, with no loop adopted, with two, and in pieces.
fn keeps<R: Wait>(rt: &R, alloc: Global, row: AloneRow) -> bool {
    let (row, node, wanted) = row;
    match work_of(alloc, row) {
        Some(work) => {
            keeps_anew(rt, alloc, &work, 0, node, wanted)
                && keeps_anew(rt, alloc, &work, 2, node, wanted)
                && keeps_in_pieces(rt, alloc, &work, wanted)
        }
        None => false,
    }
}

#[test]
fn one_thread_runs_all_epochs_and_loops(rt: HostRuntime) -> Result<(), Fail> {
    let rows = ROWS.as_slice();
    for at in 0..rows.len() {
        assert_eq!(rt; (at, keeps(&rt, rt.alloc(), rows[at])), (at, true));
    }
    Ok(())
}
