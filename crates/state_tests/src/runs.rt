//! Runs of three nodes by node_progress only: what the sink keeps, with the samples worked out by
//! hand, how often its nodes work, and where they begin anew.

use crate::chain::keeps;
use crate::rows::{EpochRow, PlanRow, Sort, plan_of, waves_of};
use graph_checks::is_sound_plan;
use node_progress::{restart_in, worked_cycles};
use std::test::Fail;

/// All three nodes are on and linked for a cycle, and no node begins anew.
const WHOLE: EpochRow<'static> = EpochRow {
    first: 0,
    cycles: 1,
    nodes: &[0, 1, 2],
    driver: 2,
    links: &[((0, 0), (1, 0), 1, false), ((1, 1), (2, 0), 1, false)],
    forms: &[(0, 0, 1), (1, 0, 1), (1, 1, 1), (2, 0, 1)],
    fresh: &[],
};

/// The same, as a first epoch: the two nodes with an input get their channels.
const FIRST: EpochRow<'static> = EpochRow {
    fresh: &[(1, 1), (2, 1)],
    ..WHOLE
};

/// The same a cycle later, and two.
const SECOND: EpochRow<'static> = EpochRow { first: 1, ..WHOLE };

const THIRD: EpochRow<'static> = EpochRow { first: 2, ..WHOLE };

/// The second cycle, where the node between begins anew.
const ANEW: EpochRow<'static> = EpochRow {
    fresh: &[(1, 1)],
    ..SECOND
};

/// The second cycle, where the node between is off: the sink receives silence, and what the source
/// gives goes to nobody.
const RESTS: EpochRow<'static> = EpochRow {
    nodes: &[0, 2],
    links: &[],
    forms: &[(0, 0, 1), (2, 0, 1)],
    ..SECOND
};

/// The first cycle, where the source is off.
const SOURCE_OFF: EpochRow<'static> = EpochRow {
    nodes: &[1, 2],
    links: &[((1, 1), (2, 0), 1, false)],
    forms: &[(1, 0, 1), (1, 1, 1), (2, 0, 1)],
    ..FIRST
};

/// The first cycle, where only the sink is active and has no form.
const FORMLESS: EpochRow<'static> = EpochRow {
    nodes: &[2],
    links: &[],
    forms: &[],
    ..WHOLE
};

/// A gain of 512/256 between a source of 1 2 3 4 5 6 and a sink, in quanta of two frames.
const GAIN: PlanRow<'static> = PlanRow {
    quantum: 2,
    nodes: &[Sort::Source, Sort::Gain(512), Sort::Sink(1)],
    epochs: &[],
    channels: 1,
    samples: &[1, 2, 3, 4, 5, 6],
};

/// A delay of a frame in its place.
const DELAY: PlanRow<'static> = PlanRow {
    nodes: &[Sort::Source, Sort::Delay(1), Sort::Sink(1)],
    ..GAIN
};

/// The sink drives both epochs, and has a form only in the second.
const FORMED_LATER: PlanRow<'static> = PlanRow {
    epochs: &[FORMLESS, EpochRow { first: 1, ..FIRST }],
    ..GAIN
};

/// The second epoch names nodes 1 and 2 with one channel; the first names no node.
const NAMED_LATER: PlanRow<'static> = PlanRow {
    epochs: &[WHOLE, EpochRow { first: 1, ..FIRST }],
    ..GAIN
};

/// Plans, and what their sink keeps.
const RUNS: [(PlanRow<'static>, &'static [i16]); 7] = [
    // The gain receives silence. In the second epoch the source gives its first samples.
    (
        PlanRow {
            epochs: &[SOURCE_OFF, SECOND],
            ..GAIN
        },
        &[0, 0, 2, 4],
    ),
    // The delay holds one frame back: 0 1, then 2 3.
    (
        PlanRow {
            epochs: &[FIRST, SECOND],
            ..DELAY
        },
        &[0, 1, 2, 3],
    ),
    // The same, where its line is zeros again, and the 2 that it held back is gone.
    (
        PlanRow {
            epochs: &[FIRST, ANEW],
            ..DELAY
        },
        &[0, 1, 0, 3],
    ),
    // Twice 1 2; silence, while the source gives 3 4 to nobody; twice 5 6.
    (
        PlanRow {
            epochs: &[FIRST, RESTS, THIRD],
            ..GAIN
        },
        &[2, 4, 0, 0, 10, 12],
    ),
    // The delay holds the 2 back over the epoch in which it rests.
    (
        PlanRow {
            epochs: &[FIRST, RESTS, THIRD],
            ..DELAY
        },
        &[0, 1, 0, 0, 2, 5],
    ),
    // A driver without a form keeps nothing.
    (FORMED_LATER, &[2, 4]),
    // A plan without an epoch may have a quantum of 0: its nodes have states all the same.
    (
        PlanRow {
            quantum: 0,
            nodes: &[Sort::Source, Sort::Split, Sort::Sink(1)],
            ..GAIN
        },
        &[],
    ),
];

#[test]
fn each_sink_keeps_its_samples(rt: HostRuntime) -> Result<(), Fail> {
    for (number, (row, samples)) in RUNS.as_slice().iter().enumerate() {
        let plan = plan_of(rt.alloc(), *row)?;
        let waves = waves_of(rt.alloc(), *row)?;
        let epochs = u32::try_from(row.epochs.len()).unwrap_or(0);
        assert!(rt;
            keeps(rt.alloc(), &plan, &waves, epochs, samples),
            "row {number}"
        );
    }
    Ok(())
}

#[test]
fn a_cycle_without_a_form_is_not_counted(rt: HostRuntime) -> Result<(), Fail> {
    let plan = plan_of(rt.alloc(), FORMED_LATER)?;
    assert!(rt; is_sound_plan(&plan));
    // Of the driver, which has a form in one of two epochs, and of the source.
    for node in [2, 0] {
        assert_eq!(rt; worked_cycles(&plan, node), 1, "of node {node}");
    }
    Ok(())
}

#[test]
fn restarts_are_those_of_the_epoch(rt: HostRuntime) -> Result<(), Fail> {
    let plan = plan_of(rt.alloc(), NAMED_LATER)?;
    // An epoch, of which there is no third, a node, and its channels.
    for (epoch, node, channels) in [(0, 1, None), (1, 1, Some(1)), (1, 0, None), (2, 1, None)] {
        assert_eq!(rt;
            restart_in(&plan, epoch, node),
            channels,
            "node {node} in epoch {epoch}"
        );
    }
    Ok(())
}
