//! Small sound plans: what their sinks keep, and the peaks of their meters.

use crate::rows::{EpochRow, PlanRow, Sort, outcome_of};
use std::test::Fail;
use wav_files::Outcome;

// Whether a sink keeps these samples.
fn keeps(outcome: &Outcome, node: u32, samples: &[i16]) -> bool {
    for kept in outcome.sinks.as_slice() {
        if kept.node == node && kept.wav.samples.as_slice() == samples {
            return true;
        }
    }
    false
}

/// A source, a square, a gain, a mixer, a delay, a map, a split, four sinks and a meter.
const EACH_KIND: PlanRow<'static> = PlanRow {
    quantum: 4,
    nodes: &[
        Sort::Source,
        Sort::Square(4, 100),
        Sort::Gain(128),
        Sort::Mix2(256, 256),
        Sort::Delay(10),
        Sort::Map(&[1, 0]),
        Sort::Split,
        Sort::Sink(1),
        Sort::Sink(2),
        Sort::Sink(1),
        Sort::Meter(1),
        Sort::Sink(1),
    ],
    epochs: &[EpochRow {
        first: 0,
        cycles: 2,
        nodes: &[0, 1, 2, 3, 4, 5, 6, 7, 8, 9, 10, 11],
        driver: 7,
        links: &[
            ((1, 0), (7, 0), 1, false),
            ((0, 0), (5, 0), 2, false),
            ((5, 1), (8, 0), 2, false),
            ((1, 0), (4, 0), 1, false),
            ((4, 1), (9, 0), 1, false),
            ((0, 0), (6, 0), 2, false),
            ((6, 1), (10, 0), 1, false),
            ((1, 0), (2, 0), 1, false),
            ((2, 1), (3, 0), 1, false),
            ((1, 0), (3, 1), 1, false),
            ((3, 2), (11, 0), 1, false),
        ],
        forms: &[
            (0, 0, 2),
            (1, 0, 1),
            (2, 0, 1),
            (2, 1, 1),
            (3, 0, 1),
            (3, 1, 1),
            (3, 2, 1),
            (4, 0, 1),
            (4, 1, 1),
            (5, 0, 2),
            (5, 1, 2),
            (6, 0, 2),
            (6, 1, 1),
            (6, 2, 1),
            (7, 0, 1),
            (8, 0, 2),
            (9, 0, 1),
            (10, 0, 1),
            (11, 0, 1),
        ],
        fresh: &[
            (2, 1),
            (3, 1),
            (4, 1),
            (5, 2),
            (6, 2),
            (7, 1),
            (8, 2),
            (9, 1),
            (10, 1),
            (11, 1),
        ],
    }],
    channels: 2,
    samples: &[1, 10, 2, 20, -32768, 30],
};

/// What its sinks keep.
const EACH_SINK: [(u32, &'static [i16]); 4] = [
    (7, &[100, 100, -100, -100, 100, 100, -100, -100]),
    (8, &[10, 1, 20, 2, 30, -32768, 0, 0, 0, 0, 0, 0, 0, 0, 0, 0]),
    (9, &[0, 0, 0, 0, 0, 0, 0, 0]),
    (11, &[150, 150, -150, -150, 150, 150, -150, -150]),
];

/// A cycle of a source, a delay and a sink that drives.
const ONCE: EpochRow<'static> = EpochRow {
    first: 0,
    cycles: 1,
    nodes: &[0, 1, 2],
    driver: 2,
    links: &[((0, 0), (1, 0), 1, false), ((1, 1), (2, 0), 1, false)],
    forms: &[(0, 0, 1), (1, 0, 1), (1, 1, 1), (2, 0, 1)],
    fresh: &[(1, 1), (2, 1)],
};

/// A delay that begins anew in the second cycle.
const RELEASED: PlanRow<'static> = PlanRow {
    quantum: 2,
    nodes: &[Sort::Source, Sort::Delay(1), Sort::Sink(1)],
    epochs: &[
        ONCE,
        EpochRow {
            first: 1,
            fresh: &[(1, 1)],
            ..ONCE
        },
    ],
    channels: 1,
    samples: &[1, 2, 3, 4],
};

/// A cycle of a source and a sink that drives.
const ON: EpochRow<'static> = EpochRow {
    first: 0,
    cycles: 1,
    nodes: &[0, 1],
    driver: 1,
    links: &[((0, 0), (1, 0), 1, false)],
    forms: &[(0, 0, 1), (1, 0, 1)],
    fresh: &[(1, 1)],
};

/// A source that is off in the second of three cycles.
const OFF: PlanRow<'static> = PlanRow {
    quantum: 2,
    nodes: &[Sort::Source, Sort::Sink(1)],
    epochs: &[
        ON,
        EpochRow {
            first: 1,
            nodes: &[1],
            links: &[],
            forms: &[(1, 0, 1)],
            fresh: &[],
            ..ON
        },
        EpochRow {
            first: 2,
            fresh: &[],
            ..ON
        },
    ],
    channels: 1,
    samples: &[1, 2, 3, 4, 5, 6],
};

/// A mixer whose second input is fed back through a gain.
const FEEDBACK: PlanRow<'static> = PlanRow {
    quantum: 1,
    nodes: &[
        Sort::Source,
        Sort::Mix2(256, 128),
        Sort::Gain(256),
        Sort::Sink(1),
    ],
    epochs: &[EpochRow {
        first: 0,
        cycles: 5,
        nodes: &[0, 1, 2, 3],
        driver: 3,
        links: &[
            ((0, 0), (1, 0), 1, false),
            ((1, 2), (2, 0), 1, true),
            ((2, 1), (1, 1), 1, true),
            ((1, 2), (3, 0), 1, false),
        ],
        forms: &[
            (0, 0, 1),
            (1, 0, 1),
            (1, 1, 1),
            (1, 2, 1),
            (2, 0, 1),
            (2, 1, 1),
            (3, 0, 1),
        ],
        fresh: &[(1, 1), (2, 1), (3, 1)],
    }],
    channels: 1,
    samples: &[8],
};

/// Plans, what their sinks keep, and the peaks of their meters.
const PLANS: [(
    &'static str,
    PlanRow<'static>,
    &'static [(u32, &'static [i16])],
    &'static [(u32, u32)],
); 4] = [
    (
        "each kind gives its samples",
        EACH_KIND,
        &EACH_SINK,
        &[(10, 32768)],
    ),
    (
        "a released delay begins anew",
        RELEASED,
        &[(2, &[0, 1, 0, 3])],
        &[],
    ),
    (
        "a source that was off goes on",
        OFF,
        &[(1, &[1, 2, 0, 0, 3, 4])],
        &[],
    ),
    (
        "feedback passes through a late link",
        FEEDBACK,
        &[(3, &[8, 0, 4, 0, 2])],
        &[],
    ),
];

#[test]
fn plans_give_their_samples_and_peaks(rt: HostRuntime) -> Result<(), Fail> {
    for (title, plan, sinks, peaks) in PLANS.as_slice() {
        let Some(outcome) = outcome_of(rt.alloc(), *plan)? else {
            panic!(rt; "{title}: it is sound");
        };
        for (node, samples) in *sinks {
            assert!(rt; keeps(&outcome, *node, samples), "{title}: node {node}");
        }
        assert_eq!(rt; outcome.peaks.len(), peaks.len(), "{title}");
        for (peak, (meter, greatest)) in outcome.peaks.as_slice().iter().zip(*peaks) {
            assert_eq!(rt; (peak.node, peak.value), (*meter, *greatest), "{title}");
        }
    }
    Ok(())
}
