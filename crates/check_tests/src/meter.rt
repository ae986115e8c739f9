//! A source with links to a meter and a sink, driven by the meter: plans of some cycles of it.
ghost use Rattle.std.specs.Prelude.{[], ◌∷◌, ◌≡◌, codes, IfOk};

use pw_graph::{Epoch, Fresh, Kind, Plan, PlanNode, PortForm, PortId, Shape, ShapeLink, ShapeNode};
use pw_lists::{Items, Memory, Text};
use std::alloc::Global;

/// The names of the nodes: the source 0, the meter 1 and the sink 2.
pub fn names(alloc: Global) -> Result<Items<Text>, Memory>
    ensures { IfOk result (λ names. names ≡ codes "s" ∷ codes "p" ∷ codes "o" ∷ []) }
{
    let mut names = Items::new(alloc);
    names.push(Items::from_slice(alloc, b"s".as_slice())?)?;
    names.push(Items::from_slice(alloc, b"p".as_slice())?)?;
    names.push(Items::from_slice(alloc, b"o".as_slice())?)?;
    Ok(names)
}

// A node of this kind, which ends with this rate, mono, or without one.
fn node(alloc: Global, kind: Kind, rate: u32) -> PlanNode {
    PlanNode {
        name: Items::new(alloc),
        kind,
        k: 0,
        rate,
        channels: u32::from(rate > 0),
    }
}

// An active node.
fn active(alloc: Global, node: u32, required: u32, targets: &[u32]) -> Result<ShapeNode, Memory> {
    let targets = Items::from_slice(alloc, targets)?;
    Ok(ShapeNode {
        node,
        required,
        targets,
    })
}

// A link from the source to the input of a node.
fn link(to: u32) -> ShapeLink {
    ShapeLink {
        from: PortId { node: 0, port: 0 },
        to: PortId { node: to, port: 0 },
        channels: 1,
        buffers: 2,
        delayed: false,
    }
}

// The form of the one port of a node.
fn form(node: u32) -> PortForm {
    PortForm {
        port: PortId { node, port: 0 },
        rate: 48_000,
        channels: 1,
    }
}

// An epoch from a cycle on.
fn epoch(alloc: Global, first: u32, cycles: u32) -> Result<Epoch, Memory> {
    let mut nodes = Items::new(alloc);
    nodes.push(active(alloc, 0, 1, [2, 1].as_slice())?)?;
    nodes.push(active(alloc, 1, 3, [0, 2, 1].as_slice())?)?;
    nodes.push(active(alloc, 2, 2, [1].as_slice())?)?;
    let links = Items::from_slice(alloc, [link(1), link(2)].as_slice())?;
    let forms = Items::from_slice(alloc, [form(0), form(1), form(2)].as_slice())?;
    let mut fresh = Items::new(alloc);
    if first == 0 {
        fresh.push(Fresh {
            node: 1,
            channels: 1,
        })?;
        fresh.push(Fresh {
            node: 2,
            channels: 1,
        })?;
    }
    let shape = Shape {
        quantum: 2,
        first,
        cycles,
        driver: 1,
        nodes,
        links,
    };
    Ok(Epoch {
        shape,
        forms,
        fresh,
    })
}

/// A plan of an epoch of `first` cycles and one of `second`; an epoch of no cycles is left out.
pub fn plan(alloc: Global, first: u32, second: u32) -> Result<Plan, Memory> {
    let mut nodes = Items::new(alloc);
    nodes.push(node(alloc, Kind::Source, 0))?;
    nodes.push(node(alloc, Kind::Meter, 48_000))?;
    nodes.push(node(alloc, Kind::Sink, 48_000))?;
    let mut epochs = Items::new(alloc);
    if first > 0 {
        epochs.push(epoch(alloc, 0, first)?)?;
    }
    if second > 0 {
        epochs.push(epoch(alloc, first, second)?)?;
    }
    Ok(Plan {
        quantum: 2,
        nodes,
        epochs,
        lines: Items::new(alloc),
    })
}
