//! Sound plans, and plans that are each unsound by one reason.

use crate::rows::{
    EpochRow, FormRow, NodeRow, ShapeRow, Sort, epoch_of, epochs_of, nodes_of, plan_of,
};
use graph_checks::is_sound_plan;
use pw_graph::{DUMMY, Epoch};
use pw_lists::{Items, Memory};
use std::alloc::Global;
use std::test::Fail;

/// A source 0, a gain 1 and a sink 2 that ends with rate 8 and one channel.
const NODES: [NodeRow; 3] = [
    (Sort::Source, 0, 0),
    (Sort::Gain(256), 0, 0),
    (Sort::Sink, 8, 1),
];

/// The same and a source 3.
const FOUR_NODES: [NodeRow; 4] = [
    (Sort::Source, 0, 0),
    (Sort::Gain(256), 0, 0),
    (Sort::Sink, 8, 1),
    (Sort::Source, 0, 0),
];

/// The source goes to the gain, and that to the sink, which drives.
const CHAIN: ShapeRow<'static> = ShapeRow {
    quantum: 4,
    first: 0,
    cycles: 1,
    driver: 2,
    nodes: &[(0, 1, &[1, 2]), (1, 2, &[2]), (2, 3, &[0, 1, 2])],
    links: &[((0, 0), (1, 0), 1, 2, false), ((1, 1), (2, 0), 1, 2, false)],
    more: &[],
};

/// The chain, and node 3, to which no link goes.
const CHAIN_AND_THREE: ShapeRow<'static> = ShapeRow {
    nodes: &[
        (0, 1, &[1, 2]),
        (1, 2, &[2]),
        (2, 4, &[0, 1, 3, 2]),
        (3, 1, &[2]),
    ],
    ..CHAIN
};

/// The forms of the chain, of rate 8 and one channel.
const FORMS: [FormRow; 4] = [(0, 0, 8, 1), (1, 0, 8, 1), (1, 1, 8, 1), (2, 0, 8, 1)];

/// The chain's epoch.
const EPOCH: EpochRow<'static> = EpochRow {
    shape: CHAIN,
    forms: &FORMS,
    fresh: &[(1, 1), (2, 1)],
};

/// That of the chain and an active source 3.
const WIDER: EpochRow<'static> = EpochRow {
    shape: CHAIN_AND_THREE,
    forms: &[
        (0, 0, 8, 1),
        (1, 0, 8, 1),
        (1, 1, 8, 1),
        (2, 0, 8, 1),
        (3, 0, 8, 1),
    ],
    ..EPOCH
};

/// The same a cycle later, where no node begins.
const LATER: EpochRow<'static> = EpochRow {
    shape: ShapeRow {
        first: 1,
        ..CHAIN_AND_THREE
    },
    fresh: &[],
    ..WIDER
};

/// The same where the source has another rate.
const LATER_OTHER_RATE: EpochRow<'static> = EpochRow {
    forms: &[
        (0, 0, 8, 1),
        (1, 0, 8, 1),
        (1, 1, 8, 1),
        (2, 0, 8, 1),
        (3, 0, 9, 1),
    ],
    ..LATER
};

/// A plan: its nodes and its epochs.
type PlanRow = (&'static [NodeRow], &'static [EpochRow<'static>]);

const SOUND: [PlanRow; 4] = [
    (&NODES, &[EPOCH]),
    (&FOUR_NODES, &[WIDER, LATER]),
    (
        &FOUR_NODES,
        &[
            WIDER,
            EpochRow {
                fresh: &[(3, 0)],
                ..LATER_OTHER_RATE
            },
        ],
    ),
    (
        &[
            (Sort::Square(8, 1), 0, 0),
            (Sort::Gain(256), 0, 0),
            (Sort::Sink, 8, 1),
        ],
        &[EPOCH],
    ),
];

/// Unsound by a node.
const UNSOUND_NODES: [PlanRow; 5] = [
    (
        &[
            (Sort::Source, 0, 0),
            (Sort::Gain(256), 0, 0),
            (Sort::Sink, 8, 1),
            (Sort::Gain(40000), 0, 0),
        ],
        &[EPOCH],
    ),
    (
        &[
            (Sort::Source, 0, 0),
            (Sort::Gain(256), 0, 0),
            (Sort::Sink, 8, 1),
            (Sort::Dummy, 0, 0),
        ],
        &[EPOCH],
    ),
    (
        &[
            (Sort::Source, 0, 0),
            (Sort::Gain(256), 0, 0),
            (Sort::Sink, 8, 1),
            (Sort::Source, 8, 1),
        ],
        &[EPOCH],
    ),
    (
        &[
            (Sort::Source, 0, 0),
            (Sort::Gain(256), 0, 0),
            (Sort::Sink, 8, 1),
            (Sort::Sink, 0, 1),
        ],
        &[EPOCH],
    ),
    (
        &[
            (Sort::Source, 0, 0),
            (Sort::Gain(256), 0, 0),
            (Sort::Sink, 9, 1),
        ],
        &[EPOCH],
    ),
];

/// Unsound by the shape.
const UNSOUND_SHAPES: [PlanRow; 8] = [
    (
        &NODES,
        &[EpochRow {
            shape: ShapeRow { cycles: 0, ..CHAIN },
            ..EPOCH
        }],
    ),
    (
        &NODES,
        &[EpochRow {
            shape: ShapeRow {
                quantum: 5,
                ..CHAIN
            },
            ..EPOCH
        }],
    ),
    (
        &NODES,
        &[EpochRow {
            shape: ShapeRow {
                nodes: &[
                    (0, 1, &[1, 2]),
                    (1, 2, &[2]),
                    (2, 4, &[0, 1, 5, 2]),
                    (5, 1, &[2]),
                ],
                ..CHAIN
            },
            ..EPOCH
        }],
    ),
    (
        &NODES,
        &[EpochRow {
            shape: ShapeRow {
                nodes: &[
                    (0, 1, &[1, 2]),
                    (1, 2, &[2]),
                    (2, 4, &[0, 1, DUMMY, 2]),
                    (DUMMY, 1, &[2]),
                ],
                ..CHAIN
            },
            ..EPOCH
        }],
    ),
    // The gain drives.
    (
        &NODES,
        &[EpochRow {
            shape: ShapeRow {
                driver: 1,
                nodes: &[(0, 1, &[1]), (1, 2, &[0, 1])],
                links: &[((0, 0), (1, 0), 1, 2, false)],
                ..CHAIN
            },
            forms: &[(0, 0, 8, 1), (1, 0, 8, 1)],
            ..EPOCH
        }],
    ),
    (
        &NODES,
        &[EpochRow {
            shape: ShapeRow {
                links: &[((0, 0), (1, 0), 1, 2, false), ((1, 0), (2, 0), 1, 2, false)],
                ..CHAIN
            },
            ..EPOCH
        }],
    ),
    (
        &NODES,
        &[EpochRow {
            shape: ShapeRow {
                links: &[((0, 0), (1, 1), 1, 2, false), ((1, 1), (2, 0), 1, 2, false)],
                ..CHAIN
            },
            ..EPOCH
        }],
    ),
    (
        &NODES,
        &[EpochRow {
            shape: ShapeRow {
                links: &[((0, 0), (1, 0), 2, 2, false), ((1, 1), (2, 0), 1, 2, false)],
                ..CHAIN
            },
            ..EPOCH
        }],
    ),
];

/// Unsound by the forms.
const UNSOUND_FORMS: [PlanRow; 8] = [
    (
        &NODES,
        &[EpochRow {
            forms: &[(1, 0, 8, 1), (0, 0, 8, 1), (1, 1, 8, 1), (2, 0, 8, 1)],
            ..EPOCH
        }],
    ),
    (
        &NODES,
        &[EpochRow {
            forms: &[
                (0, 0, 8, 1),
                (1, 0, 8, 1),
                (1, 1, 8, 1),
                (2, 0, 8, 1),
                (3, 0, 8, 1),
            ],
            ..EPOCH
        }],
    ),
    (
        &NODES,
        &[EpochRow {
            forms: &[
                (0, 0, 8, 1),
                (1, 0, 8, 1),
                (1, 1, 8, 1),
                (2, 0, 8, 1),
                (2, 1, 8, 1),
            ],
            ..EPOCH
        }],
    ),
    (
        &[
            (Sort::Source, 0, 0),
            (Sort::Gain(256), 0, 0),
            (Sort::Sink, 9, 1),
        ],
        &[EpochRow {
            forms: &[(0, 0, 8, 1), (1, 0, 8, 1), (1, 1, 9, 1), (2, 0, 9, 1)],
            ..EPOCH
        }],
    ),
    (
        &NODES,
        &[EpochRow {
            forms: &[(0, 0, 9, 1), (1, 0, 8, 1), (1, 1, 8, 1), (2, 0, 8, 1)],
            ..EPOCH
        }],
    ),
    // The square has another rate, or another number of channels.
    (
        &[
            (Sort::Square(9, 1), 0, 0),
            (Sort::Gain(256), 0, 0),
            (Sort::Sink, 8, 1),
        ],
        &[EPOCH],
    ),
    (
        &[
            (Sort::Square(8, 2), 0, 0),
            (Sort::Gain(256), 0, 0),
            (Sort::Sink, 8, 1),
        ],
        &[EPOCH],
    ),
    // The active source 3 has no form.
    (
        &FOUR_NODES,
        &[EpochRow {
            shape: CHAIN_AND_THREE,
            ..EPOCH
        }],
    ),
];

/// Unsound by the entries, or by what an epoch says of the one before.
const UNSOUND_FRESH: [PlanRow; 8] = [
    (
        &NODES,
        &[EpochRow {
            fresh: &[(2, 1), (1, 1)],
            ..EPOCH
        }],
    ),
    (
        &NODES,
        &[EpochRow {
            fresh: &[(1, 1), (2, 1), (3, 0)],
            ..EPOCH
        }],
    ),
    (
        &NODES,
        &[EpochRow {
            fresh: &[(0, 1), (1, 1), (2, 1)],
            ..EPOCH
        }],
    ),
    (
        &NODES,
        &[EpochRow {
            fresh: &[(2, 1)],
            ..EPOCH
        }],
    ),
    (
        &NODES,
        &[EpochRow {
            fresh: &[(1, 2), (2, 1)],
            ..EPOCH
        }],
    ),
    (
        &FOUR_NODES,
        &[
            WIDER,
            EpochRow {
                shape: ShapeRow {
                    first: 2,
                    ..CHAIN_AND_THREE
                },
                ..LATER
            },
        ],
    ),
    (&FOUR_NODES, &[WIDER, LATER_OTHER_RATE]),
    (
        &FOUR_NODES,
        &[
            WIDER,
            EpochRow {
                fresh: &[(2, 1)],
                ..LATER
            },
        ],
    ),
];

// Whether the plan of these rows, with `sources` further sources, is sound.
fn is_sound(
    alloc: Global,
    nodes: &[NodeRow],
    sources: u32,
    epochs: &[EpochRow<'_>],
) -> Result<bool, Memory> {
    let nodes = nodes_of(alloc, nodes, sources)?;
    let epochs = epochs_of(alloc, epochs)?;
    Ok(is_sound_plan(&plan_of(alloc, 4, nodes, epochs)))
}

/// The plans of each table, and whether they are sound.
const JUDGED: [(&'static [PlanRow], bool); 5] = [
    (&SOUND, true),
    (&UNSOUND_NODES, false),
    (&UNSOUND_SHAPES, false),
    (&UNSOUND_FORMS, false),
    (&UNSOUND_FRESH, false),
];

#[test]
fn plans_are_unsound_by_one_reason(rt: HostRuntime) -> Result<(), Fail> {
    for (table, (rows, sound)) in JUDGED.iter().enumerate() {
        for (place, (nodes, epochs)) in rows.iter().enumerate() {
            let found = is_sound(rt.alloc(), nodes, 0, epochs)?;
            assert_eq!(rt; found, *sound, "row {place} of table {table}");
        }
    }
    Ok(())
}

// A sound plan has three nodes.
#[test]
fn there_are_at_most_63_nodes(rt: HostRuntime) -> Result<(), Fail> {
    for (more, sound) in [(60, true), (61, false)] {
        let found = is_sound(rt.alloc(), &NODES, more, &[EPOCH])?;
        assert_eq!(rt; found, sound, "{more} sources more");
    }
    Ok(())
}

// An epoch of the chain; its links have as many buffers as channels.
fn chain_epoch(
    alloc: Global,
    quantum: u32,
    first: u32,
    cycles: u32,
    channels: u32,
) -> Result<Epoch, Memory> {
    let begin = [(1, channels), (2, channels)];
    let fresh = if first == 0 { begin.as_slice() } else { &[] };
    let row = EpochRow {
        shape: ShapeRow {
            quantum,
            first,
            cycles,
            links: &[
                ((0, 0), (1, 0), channels, channels, false),
                ((1, 1), (2, 0), channels, channels, false),
            ],
            ..CHAIN
        },
        forms: &[
            (0, 0, 8, channels),
            (1, 0, 8, channels),
            (1, 1, 8, channels),
            (2, 0, 8, channels),
        ],
        fresh,
    };
    epoch_of(alloc, &row)
}

// Whether the plan of `count` epochs of the chain is sound.
fn sums_fit(
    alloc: Global,
    count: u32,
    quantum: u32,
    cycles: u32,
    channels: u32,
) -> Result<bool, Memory> {
    let mut epochs = Items::new(alloc);
    let mut first: u32 = 0;
    for _ in 0..count {
        epochs.push(chain_epoch(alloc, quantum, first, cycles, channels)?)?;
        first = first.saturating_add(cycles);
    }
    let nodes = [
        (Sort::Source, 0, 0),
        (Sort::Gain(256), 0, 0),
        (Sort::Sink, 8, channels),
    ];
    let nodes = nodes_of(alloc, nodes.as_slice(), 0)?;
    Ok(is_sound_plan(&plan_of(alloc, quantum, nodes, epochs)))
}

#[test]
fn sums_have_their_limits(rt: HostRuntime) -> Result<(), Fail> {
    // The number of epochs, their quantum, cycles and channels, and whether all is within the limits.
    for (count, quantum, cycles, channels, fit) in [
        (2, 1, 233_016, 1, true),
        (2, 1, 233_017, 1, false),
        (2, 8192, 8192, 1, true),
        (2, 8192, 8193, 1, false),
        (128, 8192, 1, 8, true),
        (129, 8192, 1, 8, false),
    ] {
        let found = sums_fit(rt.alloc(), count, quantum, cycles, channels)?;
        assert_eq!(rt; found, fit, "{count} epochs of {cycles} cycles");
    }
    Ok(())
}
