//! Worked shapes: sound ones, unsound ones by one reason each, and pools.

use crate::rows::{ShapeRow, link, shape_of};
use graph_checks::{is_pooled_shape, is_sound_shape};
use pw_graph::{DUMMY, PoolShape, pools_of};
use std::test::Fail;

/// A source 0, a split 1, a mixer 2 and a sink 3 that drives; two links go from the split to the
/// mixer.
pub(crate) const TWO_LINKS: ShapeRow<'static> = ShapeRow {
    quantum: 4,
    first: 0,
    cycles: 1,
    driver: 3,
    nodes: &[
        (0, 1, &[1, 3]),
        (1, 2, &[2, 3]),
        (2, 2, &[3]),
        (3, 4, &[0, 1, 2, 3]),
    ],
    links: &[
        ((0, 0), (1, 0), 1, 2, false),
        ((1, 1), (2, 0), 1, 2, false),
        ((1, 2), (2, 1), 1, 2, false),
        ((2, 2), (3, 0), 1, 2, false),
    ],
    more: &[],
};

/// A shape of one cycle without a link.
const NO_LINK: ShapeRow<'static> = ShapeRow {
    links: &[],
    ..TWO_LINKS
};

/// A node 0 and its driver 1.
const PAIR: ShapeRow<'static> = ShapeRow {
    driver: 1,
    nodes: &[(0, 1, &[1]), (1, 2, &[0, 1])],
    ..NO_LINK
};

/// Only the built-in driver.
pub(crate) const DRIVER_ALONE: ShapeRow<'static> = ShapeRow {
    driver: DUMMY,
    nodes: &[(DUMMY, 1, &[DUMMY])],
    ..NO_LINK
};

/// Only node 0.
pub(crate) const NODE_ALONE: ShapeRow<'static> = ShapeRow {
    driver: 0,
    nodes: &[(0, 1, &[0])],
    ..NO_LINK
};

const SOUND: [ShapeRow<'static>; 5] = [
    TWO_LINKS,
    ShapeRow {
        quantum: 8192,
        first: u32::MAX,
        ..TWO_LINKS
    },
    ShapeRow {
        cycles: 381_300,
        ..TWO_LINKS
    },
    DRIVER_ALONE,
    ShapeRow {
        more: &[((2, 3), (1, 1), 1, 2, true)],
        ..TWO_LINKS
    },
];

/// Unsound by their numbers or by a node.
const UNSOUND_NODES: [ShapeRow<'static>; 10] = [
    ShapeRow {
        quantum: 0,
        ..TWO_LINKS
    },
    ShapeRow {
        quantum: 8193,
        ..TWO_LINKS
    },
    ShapeRow {
        cycles: 0,
        ..TWO_LINKS
    },
    ShapeRow {
        cycles: 381_301,
        ..TWO_LINKS
    },
    ShapeRow {
        first: u32::MAX,
        cycles: 2,
        ..TWO_LINKS
    },
    ShapeRow {
        driver: 64,
        nodes: &[(64, 1, &[64])],
        ..NO_LINK
    },
    ShapeRow {
        driver: 5,
        nodes: &[(0, 0, &[5])],
        ..NO_LINK
    },
    ShapeRow {
        nodes: &[
            (0, 1, &[1, 3]),
            (1, 2, &[2, 3]),
            (2, 3, &[3]),
            (3, 4, &[0, 1, 2, 3]),
        ],
        ..TWO_LINKS
    },
    ShapeRow {
        nodes: &[
            (0, 1, &[3, 1]),
            (1, 2, &[2, 3]),
            (2, 2, &[3]),
            (3, 4, &[0, 1, 2, 3]),
        ],
        ..TWO_LINKS
    },
    // The nodes do not ascend.
    ShapeRow {
        nodes: &[(1, 2, &[0, 1]), (0, 1, &[1])],
        ..PAIR
    },
];

/// Unsound by a link.
const UNSOUND_LINKS: [ShapeRow<'static>; 10] = [
    ShapeRow {
        more: &[((0, 1), (9, 0), 1, 2, false)],
        ..TWO_LINKS
    },
    ShapeRow {
        more: &[((3, 1), (1, 1), 1, 2, true)],
        ..TWO_LINKS
    },
    ShapeRow {
        more: &[((2, 3), (3, 1), 0, 2, false)],
        ..TWO_LINKS
    },
    ShapeRow {
        more: &[((2, 3), (3, 1), 9, 2, false)],
        ..TWO_LINKS
    },
    ShapeRow {
        more: &[((2, 3), (3, 1), 1, 0, false)],
        ..TWO_LINKS
    },
    ShapeRow {
        more: &[((2, 3), (3, 1), 1, 9, false)],
        ..TWO_LINKS
    },
    ShapeRow {
        more: &[((2, 2), (3, 0), 1, 2, false)],
        ..TWO_LINKS
    },
    // Each of two nodes is linked to the other.
    ShapeRow {
        driver: DUMMY,
        nodes: &[
            (0, 2, &[1, DUMMY]),
            (1, 2, &[0, DUMMY]),
            (DUMMY, 3, &[0, 1, DUMMY]),
        ],
        links: &[((0, 1), (1, 0), 1, 2, false), ((1, 1), (0, 0), 1, 2, false)],
        ..TWO_LINKS
    },
    ShapeRow {
        more: &[((1, 1), (1, 2), 1, 2, true)],
        ..TWO_LINKS
    },
    ShapeRow {
        more: &[((9, 0), (1, 3), 1, 2, false)],
        ..TWO_LINKS
    },
];

/// The shapes of each table, and whether they are sound.
const JUDGED: [(&'static [ShapeRow<'static>], bool); 3] = [
    (&SOUND, true),
    (&UNSOUND_NODES, false),
    (&UNSOUND_LINKS, false),
];

#[test]
fn shapes_are_unsound_by_one_reason(rt: HostRuntime) -> Result<(), Fail> {
    for (table, (rows, sound)) in JUDGED.iter().enumerate() {
        for (place, row) in rows.iter().enumerate() {
            let shape = shape_of(rt.alloc(), row)?;
            assert_eq!(rt;
                is_sound_shape(&shape),
                *sound,
                "row {place} of table {table}"
            );
        }
    }
    Ok(())
}

// A node may have so many links to its driver, each at ports of its own.
#[test]
fn there_are_at_most_256_links(rt: HostRuntime) -> Result<(), Fail> {
    for (count, sound) in [(256, true), (257, false)] {
        let mut shape = shape_of(rt.alloc(), &PAIR)?;
        for i in 0..count {
            shape.links.push(link(((0, i), (1, i), 1, 2, false)))?;
        }
        assert_eq!(rt; is_sound_shape(&shape), sound, "{count} links");
    }
    Ok(())
}

/// The worked shape with quanta of 5 frames and one buffer at its first port, from where a link
/// goes that is late.
const POOLED: ShapeRow<'static> = ShapeRow {
    quantum: 5,
    links: &[
        ((0, 0), (1, 0), 1, 1, false),
        ((1, 1), (2, 0), 1, 2, false),
        ((1, 2), (2, 1), 1, 2, false),
        ((2, 2), (3, 0), 1, 2, false),
    ],
    more: &[((0, 0), (2, 3), 1, 1, true)],
    ..TWO_LINKS
};

/// The same with two channels in one more link from that port.
const UNPOOLED: ShapeRow<'static> = ShapeRow {
    more: &[((0, 0), (2, 3), 1, 1, true), ((0, 0), (2, 4), 2, 2, false)],
    ..POOLED
};

// Whether pools are just those of these ports, with these numbers of blocks and of links.
fn are_pools(pools: &[PoolShape], wanted: &[((u32, u32), u32, usize)]) -> bool {
    for (pool, (port, blocks, links)) in pools.iter().zip(wanted) {
        if (pool.port.node, pool.port.port) != *port
            || (pool.blocks, pool.links.len()) != (*blocks, *links)
            || (pool.channels, pool.words) != (1, 2)
        {
            return false;
        }
    }
    pools.len() == wanted.len()
}

// The pool of the split's left port and that of its source, where one link is delayed.
#[test]
fn pools_are_found_by_port(rt: HostRuntime) -> Result<(), Fail> {
    let wanted = [
        ((0, 0), 2, 2),
        ((1, 1), 2, 1),
        ((1, 2), 2, 1),
        ((2, 2), 2, 1),
    ];
    let shape = shape_of(rt.alloc(), &POOLED)?;
    assert!(rt; is_pooled_shape(&shape));
    let pools = pools_of(rt.alloc(), &shape)?;
    assert!(rt; are_pools(pools.as_slice(), wanted.as_slice()));
    // One port may not have links of other channels.
    let shape = shape_of(rt.alloc(), &UNPOOLED)?;
    assert!(rt; !is_pooled_shape(&shape));
    Ok(())
}
