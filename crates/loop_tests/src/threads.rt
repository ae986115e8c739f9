//! Whole runs by threads: whichever loops are adopted, and however many there are.

use crate::runs::{Kept, RunRow, meet_in, row_runs};
use plan_support::WorkRow;
use std::test::Fail;

/// Two squares of 100 into a sink that drives, for five cycles in two epochs.
pub(crate) const TWO_SQUARES: WorkRow<'static> = WorkRow {
    text: "quantum 4\nsquare a 48000 1 4 100\nsquare b 48000 1 4 100\nloop b 5\nsink o o.wav\nloop o 2\n\
        driver o 1\nlink a.out o.in\nlink b.out o.in\ncycles 3\ncycles 2\n",
    channels: 0,
    samples: &[],
};

/// Their sum, for five cycles of four frames.
pub(crate) const BOTH: [i16; 20] = [
    200, 200, -200, -200, 200, 200, -200, -200, 200, 200, -200, -200, 200, 200, -200, -200, 200,
    200, -200, -200,
];

/// The sink keeps the sum whichever loops are adopted.
const SQUARES: RunRow<'static> = RunRow {
    work: TWO_SQUARES,
    choices: &[
        &[],
        &[true],
        &[false],
        &[true, true],
        &[true, false],
        &[false, true],
        &[false, false],
        &[true; 16],
        &[false; 16],
    ],
    boards: 2,
    kept: Kept::One(&BOTH),
};

/// The nodes of a split and a mixer have the loops 0, 1 and 2, of which any may be adopted. The
/// sink keeps the left channel and half of the right one: 1 + 10 / 2 and so on.
const THREE_LOOPS: RunRow<'static> = RunRow {
    work: WorkRow {
        text: "quantum 2\nsource s s.wav\nsplit x\nloop x 1\nmix2 m 256 128\nloop m 2\nsink o o.wav\ndriver o 1\n\
            link s.out x.in\nlink x.left m.a\nlink x.right m.b\nlink m.out o.in\ncycles 1\ncycles 1\n",
        channels: 2,
        samples: &[1, 10, 2, 20, 3, 30, 4, 40],
    },
    choices: &[
        &[false, false, false],
        &[false, false, true],
        &[false, true, false],
        &[false, true, true],
        &[true, false, false],
        &[true, false, true],
        &[true, true, false],
        &[true, true, true],
    ],
    boards: 2,
    kept: Kept::One(&[6, 12, 18, 24]),
};

/// Any number of loops keeps the same: both squares; only the first, which goes on with its second
/// half; neither; and only the second, which goes on where it stopped.
const ON_AND_OFF: RunRow<'static> = RunRow {
    work: WorkRow {
        text: "quantum 2\nsquare a 48000 1 4 100\nsquare b 48000 1 4 10\nloop b 1\nsink o o.wav\ndriver o 1\n\
            link a.out o.in\nlink b.out o.in\ncycles 1\noff b\ncycles 1\noff a\ncycles 1\non b\ncycles 2\n",
        channels: 0,
        samples: &[],
    },
    choices: &[&[], &[false], &[false, false], &[false; 16]],
    boards: 4,
    kept: Kept::One(&[110, 110, -100, -100, 0, 0, -10, -10, 10, 10]),
};

/// Sixteen loops for a thousand cycles: 100 and -100 at a gain of 128 and then of 512.
const SIXTEEN_LOOPS: RunRow<'static> = RunRow {
    work: WorkRow {
        text: "quantum 4\nsquare q 48000 1 4 100\ngain g 128\nloop g 5\ngain h 512\nloop h 11\nsink o o.wav\n\
            driver o 1\nlink q.out g.in\nlink g.out h.in\nlink h.out o.in\ncycles 1000\n",
        channels: 0,
        samples: &[],
    },
    choices: &[&[false; 16]],
    boards: 1,
    kept: Kept::Waves(4000, &[0], [100, 100, -100, -100, 100, 100, -100, -100]),
};

/// Three loops read one block each cycle; the square is positive in even cycles and negative in odd
/// ones.
const ONE_BLOCK: RunRow<'static> = RunRow {
    work: WorkRow {
        text: "quantum 4\nsquare q 48000 1 8 100\nsink a a.wav\nloop a 1\nsink b b.wav\nloop b 2\nsink o o.wav\n\
            driver o 1\nlink q.out a.in\nlink q.out b.in\nlink q.out o.in\ncycles 1000\n",
        channels: 0,
        samples: &[],
    },
    choices: &[&[false, false, false]],
    boards: 1,
    kept: Kept::Waves(
        4000,
        &[0, 0, 0],
        [100, 100, 100, 100, -100, -100, -100, -100],
    ),
};

/// The same with a late second reader, which receives four zeros, and then what was given in the
/// cycle before.
const LATE_READER: RunRow<'static> = RunRow {
    work: WorkRow {
        text: "quantum 4\nsquare q 48000 1 8 100\nsink a a.wav\nloop a 1\nsink b b.wav\nloop b 2\nasync b\n\
            sink o o.wav\ndriver o 1\nlink q.out a.in\nlink q.out b.in\nlink q.out o.in\ncycles 1000\n",
        channels: 0,
        samples: &[],
    },
    kept: Kept::Waves(
        4000,
        &[0, 4, 0],
        [100, 100, 100, 100, -100, -100, -100, -100],
    ),
    ..ONE_BLOCK
};

/// The first of two pools has eight blocks, and is that of the first loop; the second has two,
/// which its loop fills in turn.
const UNLIKE_POOLS: RunRow<'static> = RunRow {
    work: WorkRow {
        text: "quantum 4\nsquare a 48000 1 8 100\nsquare b 48000 1 8 100\nloop b 1\nsink o o.wav\ndriver o 1\n\
            buffers a out 8\nbuffers b out 2\nlink a.out o.in\nlink b.out o.in\ncycles 10\n",
        channels: 0,
        samples: &[],
    },
    choices: &[&[true, true], &[false, false]],
    boards: 1,
    kept: Kept::Waves(40, &[0], [200, 200, 200, 200, -200, -200, -200, -200]),
};

/// Two sinks of the driver's own loop: the one that does not drive runs last of those that the
/// driver waits for.
const OWN_FOLLOWER: RunRow<'static> = RunRow {
    work: WorkRow {
        text: "quantum 4\nsquare a 48000 1 8 100\nsink p p.wav\nsink o o.wav\ndriver o 2\ndriver p 1\n\
            link a.out p.in\nlink a.out o.in\ncycles 5\ndriver p 3\ncycles 5\n",
        channels: 0,
        samples: &[],
    },
    choices: &[&[], &[true], &[false]],
    boards: 2,
    kept: Kept::Waves(40, &[0, 0], [100, 100, 100, 100, -100, -100, -100, -100]),
};

const ROWS: [RunRow<'static>; 8] = [
    SQUARES,
    THREE_LOOPS,
    ON_AND_OFF,
    SIXTEEN_LOOPS,
    ONE_BLOCK,
    LATE_READER,
    UNLIKE_POOLS,
    OWN_FOLLOWER,
];

#[test]
fn runs_keep_their_samples_by_any_loops(rt: HostRuntime) -> Result<(), Fail> {
    let rows = ROWS.as_slice();
    for at in 0..rows.len() {
        assert_eq!(rt; (at, row_runs(&rt, rt.alloc(), &rows[at])), (at, true));
    }
    Ok(())
}

/// The two squares wait only for the driver, so both are awake at once in two loops.
const AT_ONCE: RunRow<'static> = RunRow {
    choices: &[&[false, false]],
    ..SQUARES
};

/// So are the writer and the reader of a late link: the link to the gain and the one from it are
/// each a cycle late.
const LATE: RunRow<'static> = RunRow {
    work: WorkRow {
        text: "quantum 2\nsource s s.wav\ngain g 256\nloop g 1\nasync g\nsink o o.wav\ndriver o 1\n\
            link s.out g.in\nlink g.out o.in\ncycles 4\n",
        channels: 1,
        samples: &[1, 2, 3, 4],
    },
    boards: 1,
    kept: Kept::One(&[0, 0, 0, 0, 1, 2, 3, 4]),
    ..AT_ONCE
};

/// Two squares of one thread never are. One cycle, since each look is in vain.
const ONE_THREAD: RunRow<'static> = RunRow {
    work: WorkRow {
        text: "quantum 2\nsquare a 48000 1 4 100\nsquare b 48000 1 4 10\nsink o o.wav\ndriver o 1\n\
            link a.out o.in\nlink b.out o.in\ncycles 1\n",
        channels: 0,
        samples: &[],
    },
    choices: &[&[true, true]],
    boards: 1,
    kept: Kept::One(&[110, 110]),
};

/// A driver that looks for a node without a link: in the meantime its one loop has gone to rest,
/// also before the second epoch.
const LONG_DRIVER: RunRow<'static> = RunRow {
    work: WorkRow {
        text: "quantum 2\nsink o o.wav\nmeter m\nsquare a 48000 1 4 100\ndriver o 1\nlink a.out o.in\n\
            cycles 1\ncycles 1\n",
        channels: 0,
        samples: &[],
    },
    choices: &[&[false]],
    boards: 2,
    kept: Kept::One(&[100, 100, -100, -100]),
};

// The nodes of two threads meet, and those of one do not, nor a node without a link.
#[test]
fn nodes_of_two_threads_meet(rt: HostRuntime) -> Result<(), Fail> {
    assert_eq!(rt; meet_in(&rt, rt.alloc(), &AT_ONCE), Some(true));
    assert_eq!(rt; meet_in(&rt, rt.alloc(), &LATE), Some(true));
    assert_eq!(rt; meet_in(&rt, rt.alloc(), &ONE_THREAD), Some(false));
    assert_eq!(rt; meet_in(&rt, rt.alloc(), &LONG_DRIVER), Some(false));
    Ok(())
}
