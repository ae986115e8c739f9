//! The script and the plan of a run, made of rows: the script of a text, its nodes, what its lines
//! with two ends did, and its epochs.

use crate::found_values::Driven;
use graph_script::{Command, Line, Script, kind_made, parse};
use pw_graph::{Epoch, Kind, LineOutcome, LinkLine, PlanNode, PortId, Shape, ShapeNode};
use pw_lists::{Items, Memory, Text};
use std::alloc::Global;

/// The most bytes that a script has.
const SCRIPT_LIMIT: usize = 1_048_576;

/// The script that a text is; `Memory` too where it is none, which no row's is.
pub(crate) fn script_of(alloc: Global, text: &[u8]) -> Result<Script, Memory> {
    if text.len() > SCRIPT_LIMIT {
        return Err(Memory);
    }
    match parse(alloc, text) {
        Ok(script) => Ok(script),
        Err(_fault) => Err(Memory),
    }
}

// A node without a format.
fn node_of(alloc: Global, name: Option<&Text>, kind: Kind) -> Result<PlanNode, Memory> {
    let name = match name {
        None => Items::new(alloc),
        Some(name) => name.copy(alloc)?,
    };
    Ok(PlanNode {
        name,
        kind,
        k: 0,
        rate: 0,
        channels: 0,
    })
}

/// The nodes of a script.
pub(crate) fn nodes_of(alloc: Global, script: &Script) -> Result<Items<PlanNode>, Memory> {
    let mut nodes = Items::new(alloc);
    for line in script.lines.as_slice() {
        if let Some(kind) = kind_made(alloc, &line.command)? {
            let node = node_of(alloc, script.names.as_slice().get(nodes.len()), kind)?;
            nodes.push(node)?;
        }
    }
    Ok(nodes)
}

// The ends of a line, where it has two.
fn ends_of(line: &Line) -> Option<(PortId, PortId)> {
    match &line.command {
        Command::Link { from, to } => Some((*from, *to)),
        Command::Unlink { from, to } => Some((*from, *to)),
        _ => None,
    }
}

/// What the lines of a script with two ends did, by a row of outcomes in their order.
pub(crate) fn told_of(
    alloc: Global,
    script: &Script,
    outcomes: &[LineOutcome],
) -> Result<Items<LinkLine>, Memory> {
    let mut links = Items::new(alloc);
    let mut left = outcomes;
    for line in script.lines.as_slice() {
        if let Some((from, to)) = ends_of(line) {
            if let [outcome, rest @ ..] = left {
                let outcome = *outcome;
                links.push(LinkLine { from, to, outcome })?;
                left = rest;
            }
        }
    }
    Ok(links)
}

// An epoch of one cycle.
fn epoch_of(alloc: Global, driven: Driven) -> Result<Epoch, Memory> {
    let (driver, active) = driven;
    let mut nodes = Items::new(alloc);
    for node in active {
        nodes.push(ShapeNode {
            node: *node,
            required: 0,
            targets: Items::new(alloc),
        })?;
    }
    Ok(Epoch {
        shape: Shape {
            quantum: 8192,
            first: 0,
            cycles: 1,
            driver,
            nodes,
            links: Items::new(alloc),
        },
        forms: Items::new(alloc),
        fresh: Items::new(alloc),
    })
}

/// The epochs of a plan, by their drivers and active nodes.
pub(crate) fn epochs_of(alloc: Global, rows: &[Driven]) -> Result<Items<Epoch>, Memory> {
    let mut epochs = Items::new(alloc);
    for row in rows {
        let epoch = epoch_of(alloc, *row)?;
        epochs.push(epoch)?;
    }
    Ok(epochs)
}
