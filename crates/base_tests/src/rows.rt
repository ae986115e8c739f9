//! Shapes and plans, built from rows of numbers.

use pw_graph::{Epoch, Fresh, Kind, Plan, PlanNode, PortForm, PortId, Shape, ShapeLink, ShapeNode};
use pw_lists::{Items, Memory};
use std::alloc::Global;

/// A link: its two ports, its channels, its buffers, and whether it is a cycle late.
pub(crate) type LinkRow = ((u32, u32), (u32, u32), u32, u32, bool);

/// A node of a shape: its number, its required count and its targets.
pub(crate) type ActiveRow<'a> = (u32, u32, &'a [u32]);

/// A shape. Its links are the first ones and then some more.
#[derive(Drop)]
pub(crate) struct ShapeRow<'a> {
    pub(crate) quantum: u32,
    pub(crate) first: u32,
    pub(crate) cycles: u32,
    pub(crate) driver: u32,
    pub(crate) nodes: &'a [ActiveRow<'a>],
    pub(crate) links: &'a [LinkRow],
    pub(crate) more: &'a [LinkRow],
}

/// The form of a port: its node, its number, its rate and its channels.
pub(crate) type FormRow = (u32, u32, u32, u32);

/// An epoch. Each entry is a node and its channels.
#[derive(Drop)]
pub(crate) struct EpochRow<'a> {
    pub(crate) shape: ShapeRow<'a>,
    pub(crate) forms: &'a [FormRow],
    pub(crate) fresh: &'a [(u32, u32)],
}

/// The kinds of the plans' nodes. A gain has its factor, a square its rate and its channels.
#[derive(Drop)]
pub(crate) enum Sort {
    Source,
    Square(u32, u32),
    Gain(i32),
    Sink,
    Dummy,
}

/// A node of a plan: its kind, and the rate and the channels that it ends with.
pub(crate) type NodeRow = (Sort, u32, u32);

/// The link of a row.
pub(crate) fn link(row: LinkRow) -> ShapeLink {
    let (from, to, channels, buffers, delayed) = row;
    ShapeLink {
        from: PortId {
            node: from.0,
            port: from.1,
        },
        to: PortId {
            node: to.0,
            port: to.1,
        },
        channels,
        buffers,
        delayed,
    }
}

/// The shape of a row.
pub(crate) fn shape_of(alloc: Global, row: &ShapeRow<'_>) -> Result<Shape, Memory> {
    let mut links = Items::new(alloc);
    for rows in [row.links, row.more] {
        for row in rows {
            links.push(link(*row))?;
        }
    }
    let mut nodes = Items::new(alloc);
    for (node, required, targets) in row.nodes {
        let targets = Items::from_slice(alloc, targets)?;
        nodes.push(ShapeNode {
            node: *node,
            required: *required,
            targets,
        })?;
    }
    Ok(Shape {
        quantum: row.quantum,
        first: row.first,
        cycles: row.cycles,
        driver: row.driver,
        nodes,
        links,
    })
}

/// The epoch of a row.
pub(crate) fn epoch_of(alloc: Global, row: &EpochRow<'_>) -> Result<Epoch, Memory> {
    let mut forms = Items::new(alloc);
    for (node, port, rate, channels) in row.forms {
        let (node, port) = (*node, *port);
        forms.push(PortForm {
            port: PortId { node, port },
            rate: *rate,
            channels: *channels,
        })?;
    }
    let mut fresh = Items::new(alloc);
    for (node, channels) in row.fresh {
        fresh.push(Fresh {
            node: *node,
            channels: *channels,
        })?;
    }
    Ok(Epoch {
        shape: shape_of(alloc, &row.shape)?,
        forms,
        fresh,
    })
}

/// The epochs of rows.
pub(crate) fn epochs_of(alloc: Global, rows: &[EpochRow<'_>]) -> Result<Items<Epoch>, Memory> {
    let mut epochs = Items::new(alloc);
    for row in rows {
        epochs.push(epoch_of(alloc, row)?)?;
    }
    Ok(epochs)
}

// The node of a row. It has no name.
fn node(alloc: Global, row: &NodeRow) -> PlanNode {
    let (sort, rate, channels) = row;
    PlanNode {
        name: Items::new(alloc),
        kind: match sort {
            Sort::Source => Kind::Source,
            Sort::Square(rate, channels) => Kind::Square {
                rate: *rate,
                channels: *channels,
                period: 1,
                amp: 1,
            },
            Sort::Gain(g) => Kind::Gain { g: *g },
            Sort::Sink => Kind::Sink,
            Sort::Dummy => Kind::Dummy,
        },
        k: 0,
        rate: *rate,
        channels: *channels,
    }
}

/// The nodes of rows, and then `sources` sources.
pub(crate) fn nodes_of(
    alloc: Global,
    rows: &[NodeRow],
    sources: u32,
) -> Result<Items<PlanNode>, Memory> {
    let mut nodes = Items::new(alloc);
    for row in rows {
        nodes.push(node(alloc, row))?;
    }
    for _ in 0..sources {
        nodes.push(node(alloc, &(Sort::Source, 0, 0)))?;
    }
    Ok(nodes)
}

/// A plan of these nodes and epochs, without lines.
pub(crate) fn plan_of(
    alloc: Global,
    quantum: u32,
    nodes: Items<PlanNode>,
    epochs: Items<Epoch>,
) -> Plan {
    Plan {
        quantum,
        nodes,
        epochs,
        lines: Items::new(alloc),
    }
}
