//! The words of a board from step to step: pending and status, io areas, and the first block.
//!
//! A status word is four times the cycle and 0 for NOT_TRIGGERED, 1 for TRIGGERED, 2 for AWAKE, 3
//! for FINISHED. The word of an area is the number of its block times 2^32, and 1 for NEED_DATA, 2
//! for HAVE_DATA. The word of four samples has the first in its lowest 16 bits.
ghost use Rattle.std.specs.Prelude.{◌≤◌, IfSome};
ghost use Rattle.ready_queues.specs.Lanes.{loops_limit};
ghost use Rattle.loop_tests.specs.Crew.{IsCrewOn};

use crate::crew::Crew;
use crate::stepping::{crew_of, settle_at, try_at};
use crate::words::{Inside, areas_are, block_is, nodes_are};
use board_rule::Board;
use data_loop::Tried;
use plan_support::{WorkRow, work_of};
use pw_graph::Event;
use pw_outside::Open;
use std::alloc::Global;
use std::sync::Wait;
use std::test::Fail;

/// Three loops have a source and two sinks that read it; a third sink drives.
const FAN: WorkRow<'static> = WorkRow {
    text: "quantum 4\nsource s s.wav\nsink a a.wav\nloop a 1\nsink b b.wav\nloop b 2\nsink o o.wav\n\
        driver o 1\nlink s.out a.in\nlink s.out b.in\nlink s.out o.in\ncycles 2\n",
    channels: 1,
    samples: &SAMPLES,
};

/// The same for three cycles, with a late second reader.
const LATE_FAN: WorkRow<'static> = WorkRow {
    text: "quantum 4\nsource s s.wav\nsink a a.wav\nloop a 1\nsink b b.wav\nloop b 2\nasync b\nsink o o.wav\n\
        driver o 1\nlink s.out a.in\nlink s.out b.in\nlink s.out o.in\ncycles 3\n",
    ..FAN
};

/// A source, a split and a mixer in a row; loop 0 has the source and the mixer, loop 1 the split.
pub(crate) const ROW: WorkRow<'static> = WorkRow {
    text: "quantum 4\nsource s s.wav\nsplit x\nloop x 1\nmix2 m 256 256\nsink o o.wav\ndriver o 1\n\
        link s.out x.in\nlink x.left m.a\nlink x.right m.b\nlink m.out o.in\ncycles 1\n",
    channels: 2,
    samples: &SAMPLES,
};

// The samples of three cycles, and the words of the even and the odd ones: 0xfffe_0002_ffff_0001
// and 0xfffc_0004_fffd_0003.
const SAMPLES: [i16; 12] = [1, -1, 2, -2, 3, -3, 4, -4, 1, -1, 2, -2];

const EVEN: u64 = 18446181136640966657;

const ODD: u64 = 18445618195277348867;

// NEED_DATA without a block, whose number is 2^32 - 1.
const NO_BLOCK: u64 = 18446744069414584321;

// NEED_DATA and HAVE_DATA with block 1.
const NEED_1: u64 = 4294967297;

const HAVE_1: u64 = 4294967298;

// What a step does, or what the words are after it. Nodes are tried by the loop of the first
// number.
#[derive(Clone, Copy, Drop)]
enum Step {
    // A cycle begins.
    Begins,
    // A loop tries a node too early, and finds this word.
    Waits(usize, u32, u64),
    // A loop runs a node.
    Runs(usize, u32),
    // The same; in its turn the pending and the status words are these.
    RunsIn(usize, u32, [u64; 4], [u64; 4]),
    // A check names these nodes, by bits.
    Late(u64),
    // A claim of the driver's node is too early.
    DriverWaits,
    // The driver's node runs, and the cycle ends.
    Ends,
    // No cycle is left.
    Done,
    // The pending and the status words.
    Nodes([u64; 4], [u64; 4]),
    // The words of the first three io areas, and the readers and the samples of the first block.
    Block([u64; 3], u64, u64),
}

/// The crew of a work on its board.
pub(crate) fn crew_by(alloc: Global, row: WorkRow<'_>, loops: u32) -> Option<(Board, Crew)>
    requires few { loops ≤ loops_limit }
    ensures { IfSome result (λ t. IsCrewOn t.0 t.1) }
{
    match work_of(alloc, row) {
        Some(work) => crew_of(alloc, &work, loops),
        None => None,
    }
}

// One try in whose turn the words are these.
fn runs_in(
    board: &Board,
    crew: &mut Crew,
    which: usize,
    node: u32,
    pending: [u64; 4],
    status: [u64; 4],
) -> bool
    requires on { IsCrewOn board.now crew.old }
    ensures on { IsCrewOn board.now crew.new }
{
    let inside = Inside::new(board, pending, status);
    let tried = try_at(board, crew, which, node, &inside);
    tried == Tried::Ran && inside.seen() == 1
}

// Whether a step of the loops goes so; of others, no step is made.
fn loops_go(board: &Board, crew: &mut Crew, step: Step) -> bool
    requires on { IsCrewOn board.now crew.old }
    ensures on { IsCrewOn board.now crew.new }
{
    match step {
        Step::Waits(which, node, found) => {
            try_at(board, crew, which, node, &Open::new()) == Tried::NotYet { found }
        }
        Step::Runs(which, node) => { try_at(board, crew, which, node, &Open::new()) == Tried::Ran }
        Step::RunsIn(which, node, pending, status) => {
            runs_in(board, crew, which, node, pending, status)
        }
        _ => false,
    }
}

// Whether a step goes so, or the words are these.
fn goes(alloc: Global, board: &Board, crew: &mut Crew, step: Step) -> bool
    requires on { IsCrewOn board.now crew.old }
    ensures on { IsCrewOn board.now crew.new }
{
    match step {
        Step::Begins => crew.begin(board),
        Step::Late(nodes) => crew.check(board) == Some(nodes),
        Step::DriverWaits => !crew.lead(board),
        Step::Ends => crew.lead(board),
        Step::Done => !crew.begin(board),
        Step::Nodes(pending, status) => nodes_are(board, pending, status),
        Step::Block(areas, readers, samples) => {
            areas_are(board, areas) && block_is(alloc, board, readers, samples)
        }
        _ => loops_go(board, crew, step),
    }
}

// The first step that goes otherwise.
fn first_wrong(alloc: Global, board: &Board, crew: &mut Crew, steps: &[Step]) -> Option<usize>
    requires on { IsCrewOn board.now crew.old }
    ensures on { IsCrewOn board.now crew.new }
{
    for at in 0..steps.len() {
        if !goes(alloc, board, crew, steps[at]) {
            return Some(at);
        }
    }
    None
}

/// Pending and status words of a cycle of the fan: nodes with links take each other down.
const FAN_NODES: [Step; 12] = [
    Step::Begins,
    Step::Nodes([0, 1, 1, 3], [1, 0, 0, 0]),
    Step::Waits(1, 1, 0),
    Step::Runs(0, 0),
    Step::Nodes([0, 0, 0, 2], [3, 1, 1, 0]),
    Step::Runs(1, 1),
    Step::Nodes([0, 0, 0, 1], [3, 3, 1, 0]),
    Step::DriverWaits,
    Step::Runs(2, 2),
    Step::Nodes([0, 0, 0, 0], [3, 3, 3, 1]),
    Step::Ends,
    Step::Nodes([0, 0, 0, 0], [3, 3, 3, 3]),
];

/// Its three readers count down. The second cycle fills block 1, while block 0 has no reader.
const FAN_READERS: [Step; 13] = [
    Step::Block([NO_BLOCK, NO_BLOCK, NO_BLOCK], 0, 0),
    Step::Begins,
    Step::Runs(0, 0),
    Step::Block([2, 2, 2], 3, EVEN),
    Step::Runs(1, 1),
    Step::Block([1, 2, 2], 2, EVEN),
    Step::Runs(2, 2),
    Step::Block([1, 1, 2], 1, EVEN),
    Step::Ends,
    Step::Block([1, 1, 1], 0, EVEN),
    Step::Begins,
    Step::Runs(0, 0),
    Step::Block([HAVE_1, HAVE_1, HAVE_1], 0, EVEN),
];

/// A delayed link has two areas: the second and the third are those of the late link. Block 0
/// begins out, with the late link as its reader, so that the first cycle fills block 1. In even
/// cycles the late reader takes from the first of its areas, in odd ones from the second.
const TWO_AREAS: [Step; 20] = [
    Step::Block([NO_BLOCK, 2, NO_BLOCK], 1, 0),
    Step::Begins,
    Step::Runs(0, 0),
    Step::Block([HAVE_1, 2, HAVE_1], 1, 0),
    Step::Runs(2, 2),
    Step::Block([HAVE_1, 1, HAVE_1], 0, 0),
    Step::Runs(1, 1),
    Step::Ends,
    Step::Begins,
    Step::Runs(0, 0),
    Step::Block([2, 2, HAVE_1], 3, ODD),
    Step::Runs(2, 2),
    Step::Block([2, 2, NEED_1], 3, ODD),
    Step::Runs(1, 1),
    Step::Ends,
    Step::Begins,
    Step::Runs(0, 0),
    Step::Block([HAVE_1, 2, HAVE_1], 1, ODD),
    Step::Runs(2, 2),
    Step::Block([HAVE_1, 1, HAVE_1], 0, ODD),
];

/// A row wakes node by node. Of three loops the source has loop 0, and the split loop 1. The source
/// is awake in its turn.
const ROW_WAKES: [Step; 5] = [
    Step::Begins,
    Step::Nodes([0, 1, 1, 3], [1, 0, 0, 0]),
    Step::Waits(1, 1, 0),
    Step::RunsIn(0, 0, [0, 1, 1, 3], [2, 0, 0, 0]),
    Step::Nodes([0, 0, 1, 2], [3, 1, 0, 0]),
];

/// One cycle of the row, with a check after node 1.
const LATE_CHECK: [Step; 7] = [
    Step::Begins,
    Step::Runs(0, 0),
    Step::Runs(1, 1),
    Step::Late(4),
    Step::Runs(0, 2),
    Step::Ends,
    Step::Done,
];

/// Its events.
const EVENTS: [Event; 11] = [
    Event::Begin { cycle: 0 },
    Event::Start { cycle: 0, node: 0 },
    Event::Finish { cycle: 0, node: 0 },
    Event::Start { cycle: 0, node: 1 },
    Event::Finish { cycle: 0, node: 1 },
    Event::Tick { cycle: 0, late: 4 },
    Event::Start { cycle: 0, node: 2 },
    Event::Finish { cycle: 0, node: 2 },
    Event::Start { cycle: 0, node: 3 },
    Event::Finish { cycle: 0, node: 3 },
    Event::End { cycle: 0 },
];

/// A work on its board with three loops, and its steps.
type StepsRow = (WorkRow<'static>, &'static [Step]);

const ROWS: [StepsRow; 4] = [
    (FAN, &FAN_NODES),
    (FAN, &FAN_READERS),
    (LATE_FAN, &TWO_AREAS),
    (ROW, &ROW_WAKES),
];

// The first step of a row that goes otherwise, all of them where there is no board.
fn wrong_in(alloc: Global, row: StepsRow) -> Option<usize> {
    match crew_by(alloc, row.0, 3) {
        Some((board, mut crew)) => first_wrong(alloc, &board, &mut crew, row.1),
        None => Some(row.1.len()),
    }
}

#[test]
fn each_step_leaves_its_words(rt: HostRuntime) -> Result<(), Fail> {
    let rows = ROWS.as_slice();
    for at in 0..rows.len() {
        assert_eq!(rt; (at, wrong_in(rt.alloc(), rows[at])), (at, None));
    }
    Ok(())
}

// Whether the row takes its steps, and its board is closed with the events above.
fn ends_with_events(alloc: Global) -> bool {
    match crew_by(alloc, ROW, 2) {
        Some((board, mut crew)) => {
            let wrong = first_wrong(alloc, &board, &mut crew, LATE_CHECK.as_slice());
            match crew.close(board) {
                Some(closed) => wrong == None && closed.events().as_slice() == EVENTS.as_slice(),
                None => false,
            }
        }
        None => false,
    }
}

#[test]
fn a_late_check_names_who_has_not_finished(rt: HostRuntime) -> Result<(), Fail> {
    assert!(rt; ends_with_events(rt.alloc()));
    Ok(())
}

// Whether all followers of the row have finished once their one loop has settled, so that a check
// finds none.
fn settles<R: Wait>(rt: &R, alloc: Global) -> bool {
    match crew_by(alloc, ROW, 1) {
        Some((board, mut crew)) => {
            let begun = crew.begin(&board);
            settle_at(rt, &board, &mut crew, 0);
            begun && crew.check(&board) == Some(0)
        }
        None => false,
    }
}

#[test]
fn a_loop_settles_when_its_nodes_have_finished(rt: HostRuntime) -> Result<(), Fail> {
    assert!(rt; settles(&rt, rt.alloc()));
    Ok(())
}
