//! What the sinks keep by any loops that steal, and who meets.

use crate::runs::{RunRow, first_unlike, goes_by, goes_refused, peak_by, row_goes_refused};
use plan_support::WorkRow;
use pw_outside::Meet;
use std::alloc::Global;
use std::sync::Wait;
use std::test::Fail;
use std::thread::Threads;

/// A split and a mixer. The sink keeps the left channel and half of the right one: 1 + 10 / 2 and
/// so on.
const SPLIT: RunRow<'static> = RunRow {
    work: WorkRow {
        text: "quantum 2\nsource s s.wav\nsplit x\nmix2 m 256 128\nsink o o.wav\ndriver o 1\n\
            link s.out x.in\nlink x.left m.a\nlink x.right m.b\nlink m.out o.in\ncycles 1\ncycles 1\n",
        channels: 2,
        samples: &[1, 10, 2, 20, 3, 30, 4, 40],
    },
    choices: &[&[], &[false; 3], &[false; 16]],
    boards: 2,
    kept: &[&[6, 12, 18, 24]],
};

/// Two squares of 100 into a sink that drives, for five cycles in two epochs, whichever of two
/// workers are started.
const TWO_SQUARES: RunRow<'static> = RunRow {
    work: WorkRow {
        text: "quantum 4\nsquare a 48000 1 4 100\nsquare b 48000 1 4 100\nloop b 5\nsink o o.wav\nloop o 2\n\
            driver o 1\nlink a.out o.in\nlink b.out o.in\ncycles 3\ncycles 2\n",
        channels: 0,
        samples: &[],
    },
    choices: &[
        &[true],
        &[false],
        &[true, true],
        &[true, false],
        &[false, true],
        &[false, false],
    ],
    boards: 2,
    kept: &[&[
        200, 200, -200, -200, 200, 200, -200, -200, 200, 200, -200, -200, 200, 200, -200, -200,
        200, 200, -200, -200,
    ]],
};

/// Both squares; only the first; neither; and only the second, which goes on where it stopped.
const ON_AND_OFF: RunRow<'static> = RunRow {
    work: WorkRow {
        text: "quantum 2\nsquare a 48000 1 4 100\nsquare b 48000 1 4 10\nloop b 1\nsink o o.wav\ndriver o 1\n\
            link a.out o.in\nlink b.out o.in\ncycles 1\noff b\ncycles 1\noff a\ncycles 1\non b\ncycles 2\n",
        channels: 0,
        samples: &[],
    },
    choices: &[&[], &[false], &[false, false]],
    boards: 4,
    kept: &[&[110, 110, -100, -100, 0, 0, -10, -10, 10, 10]],
};

/// Two sinks, each of which drives in one epoch: no node has a cell. Neither is linked, so neither
/// keeps anything.
const ALL_DRIVE: RunRow<'static> = RunRow {
    work: WorkRow {
        text: "quantum 2\nsink o o.wav\nsink p p.wav\ndriver o 1\ndriver p 2\ncycles 2\noff p\ncycles 1\n",
        channels: 0,
        samples: &[],
    },
    choices: &[&[], &[false], &[false, false]],
    boards: 2,
    kept: &[],
};

/// No node at all.
const NO_NODE: RunRow<'static> = RunRow {
    work: WorkRow {
        text: "quantum 2\ncycles 2\n",
        channels: 0,
        samples: &[],
    },
    choices: &[&[], &[false, false]],
    boards: 1,
    kept: &[],
};

/// The first cell has a sink, which reads what the second gives.
const SINK_FIRST: RunRow<'static> = RunRow {
    work: WorkRow {
        text: "quantum 2\nsink p p.wav\nsquare a 48000 1 4 100\nsink o o.wav\ndriver o 1\nlink a.out p.in\n\
            link a.out o.in\ncycles 2\n",
        channels: 0,
        samples: &[],
    },
    choices: &[&[], &[false], &[false; 3]],
    boards: 1,
    kept: &[&[100, 100, -100, -100], &[100, 100, -100, -100]],
};

// The first of these that goes otherwise by some choice of workers.
fn first_unlike_run<R: Threads + Wait + Sync>(rt: &R, alloc: Global) -> Option<usize> {
    let rows = [
        SPLIT,
        TWO_SQUARES,
        ON_AND_OFF,
        ALL_DRIVE,
        NO_NODE,
        SINK_FIRST,
    ];
    first_unlike(rt, alloc, rows.as_slice())
}

#[test]
fn stealing_renders_the_same(rt: HostRuntime) -> Result<(), Fail> {
    assert_eq!(rt; first_unlike_run(&rt, rt.alloc()), None);
    Ok(())
}

#[test]
fn a_worker_that_cannot_be_started_is_not_missed(rt: HostRuntime) -> Result<(), Fail> {
    assert!(rt; row_goes_refused(&rt, rt.alloc(), &TWO_SQUARES));
    Ok(())
}

/// Two squares of one loop, for one cycle, since each look for the other may be in vain.
const ONE_LOOP: RunRow<'static> = RunRow {
    work: WorkRow {
        text: "quantum 2\nsquare a 48000 1 4 100\nloop a 0\nsquare b 48000 1 4 10\nloop b 0\nsink o o.wav\n\
            driver o 1\nlink a.out o.in\nlink b.out o.in\ncycles 1\n",
        channels: 0,
        samples: &[],
    },
    choices: &[],
    boards: 1,
    kept: &[&[110, 110]],
};

// Whether the two squares are awake at once by these workers. None where the run goes otherwise.
fn squares_meet<R: Threads + Wait + Sync>(rt: &R, alloc: Global, adopt: &[bool]) -> Option<bool> {
    let gate = Meet::new(0, 1);
    if goes_by(rt, alloc, &ONE_LOOP, adopt, &gate) {
        Some(gate.met())
    } else {
        None
    }
}

// The same where the start of one worker is refused.
fn squares_meet_refused<R: Threads + Wait + Sync>(
    rt: &R,
    alloc: Global,
    adopt: &[bool],
    number: u32,
) -> Option<bool> {
    let gate = Meet::new(0, 1);
    if goes_refused(rt, alloc, &ONE_LOOP, adopt, number, &gate) {
        Some(gate.met())
    } else {
        None
    }
}

#[test]
fn two_workers_meet_on_one_loop(rt: HostRuntime) -> Result<(), Fail> {
    assert_eq!(rt; squares_meet(&rt, rt.alloc(), &[false, false]), Some(true));
    Ok(())
}

#[test]
fn a_named_worker_is_not_started(rt: HostRuntime) -> Result<(), Fail> {
    assert_eq!(rt; squares_meet(&rt, rt.alloc(), &[true, true]), Some(false));
    Ok(())
}

#[test]
fn a_refused_worker_beside_a_named_one_is_not_started(rt: HostRuntime) -> Result<(), Fail> {
    let alloc = rt.alloc();
    assert_eq!(rt;
        squares_meet_refused(&rt, alloc, &[true, false], 1),
        Some(false)
    );
    assert_eq!(rt;
        squares_meet_refused(&rt, alloc, &[false, true], 0),
        Some(false)
    );
    Ok(())
}

// Whether the sink of the first cell keeps its samples where the square looks for a node that is
// not there: in the meantime another thread tries the cell, which is too early.
fn waits_for_the_square<R: Threads + Wait + Sync>(rt: &R, alloc: Global) -> bool {
    let gate = Meet::new(1, 63);
    goes_by(rt, alloc, &SINK_FIRST, &[false], &gate) && !gate.met()
}

#[test]
fn a_cell_that_is_tried_too_early_is_tried_again(rt: HostRuntime) -> Result<(), Fail> {
    assert!(rt; waits_for_the_square(&rt, rt.alloc()));
    Ok(())
}

/// A meter that is off from the second epoch on, and begins anew with the third: no step of its
/// cell is asked for before the end.
const LEFT_BEHIND: WorkRow<'static> = WorkRow {
    text: "quantum 2\nmeter m\nsquare a 48000 1 4 100\nsink o o.wav\ndriver o 1\nlink a.out m.in\n\
        link a.out o.in\ncycles 1\noff m\ncycles 1\nunlink a.out m.in\nlink a.out m.in\ncycles 1\n",
    channels: 0,
    samples: &[],
};

#[test]
fn a_cell_that_is_left_behind_begins_anew(rt: HostRuntime) -> Result<(), Fail> {
    let alloc = rt.alloc();
    assert_eq!(rt; peak_by(&rt, alloc, LEFT_BEHIND, &[]), Some(0));
    assert_eq!(rt; peak_by(&rt, alloc, LEFT_BEHIND, &[false, false]), Some(0));
    Ok(())
}
