//! Plans from rows of numbers, and what the reference program renders of them.

use cycle_model::{render, waves_fit};
use graph_checks::is_sound_plan;
use pw_graph::{Epoch, Fresh, Kind, Plan, PlanNode, PortForm, PortId, Shape, ShapeLink, ShapeNode};
use pw_lists::{Items, Memory};
use std::alloc::Global;
use wav_files::{Outcome, Wav, WavIn};

/// A node: its kind with its numbers. A square has its period and its amplitude, a map its list, a
/// sink and a meter the channels that they end with.
#[derive(Clone, Copy, Drop)]
pub enum Sort<'a> {
    Source,
    Square(u32, i32),
    Gain(i32),
    Mix2(i32, i32),
    Delay(u32),
    Map(&'a [u32]),
    Split,
    Sink(u32),
    Meter(u32),
}

/// A link: its two ports, its channels, and whether it is a cycle late.
pub type LinkRow = ((u32, u32), (u32, u32), u32, bool);

/// An epoch: its active nodes, and their links. A form is of a node, a port and channels, an entry
/// of a node and its channels.
#[derive(Clone, Copy, Drop)]
pub struct EpochRow<'a> {
    pub first: u32,
    pub cycles: u32,
    pub nodes: &'a [u32],
    pub driver: u32,
    pub links: &'a [LinkRow],
    pub forms: &'a [(u32, u32, u32)],
    pub fresh: &'a [(u32, u32)],
}

/// A plan, and the wave of its source 0.
#[derive(Clone, Copy, Drop)]
pub struct PlanRow<'a> {
    pub quantum: u32,
    pub nodes: &'a [Sort<'a>],
    pub epochs: &'a [EpochRow<'a>],
    pub channels: u32,
    pub samples: &'a [i16],
}

// The kind of a node.
fn kind_of(alloc: Global, sort: Sort<'_>) -> Result<Kind, Memory> {
    Ok(match sort {
        Sort::Source => Kind::Source,
        Sort::Square(period, amp) => Kind::Square {
            rate: 48000,
            channels: 1,
            period,
            amp,
        },
        Sort::Gain(g) => Kind::Gain { g },
        Sort::Mix2(ga, gb) => Kind::Mix2 { ga, gb },
        Sort::Delay(frames) => Kind::Delay { frames },
        Sort::Map(list) => Kind::Map {
            channels: 2,
            list: Items::from_slice(alloc, list)?,
        },
        Sort::Split => Kind::Split,
        Sort::Sink(_channels) => Kind::Sink,
        Sort::Meter(_channels) => Kind::Meter,
    })
}

// The nodes of a plan, without names; one that ends with channels has the rate 48000.
fn nodes_of(alloc: Global, sorts: &[Sort<'_>]) -> Result<Items<PlanNode>, Memory> {
    let mut nodes = Items::new(alloc);
    for sort in sorts {
        let channels = match *sort {
            Sort::Sink(channels) | Sort::Meter(channels) => channels,
            _ => 0,
        };
        nodes.push(PlanNode {
            name: Items::new(alloc),
            kind: kind_of(alloc, *sort)?,
            k: 0,
            rate: if channels > 0 { 48000 } else { 0 },
            channels,
        })?;
    }
    Ok(nodes)
}

// A port of a node.
fn port((node, port): (u32, u32)) -> PortId {
    PortId { node, port }
}

// The links of an epoch.
fn links_of(alloc: Global, rows: &[LinkRow]) -> Result<Items<ShapeLink>, Memory> {
    let mut links = Items::new(alloc);
    for (from, to, channels, delayed) in rows {
        links.push(ShapeLink {
            from: port(*from),
            to: port(*to),
            channels: *channels,
            buffers: 2,
            delayed: *delayed,
        })?;
    }
    Ok(links)
}

// Whether a node waits for another: by a link that is not late, the driver for all, and all for it.
fn waits(row: EpochRow<'_>, node: u32, other: u32) -> bool {
    for (from, to, _channels, delayed) in row.links {
        if !*delayed && from.0 == other && to.0 == node {
            return true;
        }
    }
    node == row.driver || other == row.driver
}

// An active node: for how many it waits, and those that wait for it, the driver last.
fn active(alloc: Global, row: EpochRow<'_>, node: u32) -> Result<ShapeNode, Memory> {
    let mut required: u32 = 0;
    let mut targets = Items::new(alloc);
    for other in row.nodes {
        if waits(row, node, *other) {
            required = required.saturating_add(1);
        }
        if *other != row.driver && waits(row, *other, node) {
            targets.push(*other)?;
        }
    }
    targets.push(row.driver)?;
    Ok(ShapeNode {
        node,
        required,
        targets,
    })
}

// The forms of an epoch, at 48000 frames a second.
fn forms_of(alloc: Global, rows: &[(u32, u32, u32)]) -> Result<Items<PortForm>, Memory> {
    let mut forms = Items::new(alloc);
    for (node, number, channels) in rows {
        forms.push(PortForm {
            port: port((*node, *number)),
            rate: 48000,
            channels: *channels,
        })?;
    }
    Ok(forms)
}

// The entries of an epoch.
fn fresh_of(alloc: Global, rows: &[(u32, u32)]) -> Result<Items<Fresh>, Memory> {
    let mut fresh = Items::new(alloc);
    for (node, channels) in rows {
        fresh.push(Fresh {
            node: *node,
            channels: *channels,
        })?;
    }
    Ok(fresh)
}

// The epoch of a row.
fn epoch_of(alloc: Global, quantum: u32, row: EpochRow<'_>) -> Result<Epoch, Memory> {
    let mut nodes = Items::new(alloc);
    for node in row.nodes {
        nodes.push(active(alloc, row, *node)?)?;
    }
    let shape = Shape {
        quantum,
        first: row.first,
        cycles: row.cycles,
        driver: row.driver,
        nodes,
        links: links_of(alloc, row.links)?,
    };
    let forms = forms_of(alloc, row.forms)?;
    Ok(Epoch {
        shape,
        forms,
        fresh: fresh_of(alloc, row.fresh)?,
    })
}

/// The plan of a row.
pub fn plan_of(alloc: Global, row: PlanRow<'_>) -> Result<Plan, Memory> {
    let mut epochs = Items::new(alloc);
    for epoch in row.epochs {
        epochs.push(epoch_of(alloc, row.quantum, *epoch)?)?;
    }
    Ok(Plan {
        quantum: row.quantum,
        nodes: nodes_of(alloc, row.nodes)?,
        epochs,
        lines: Items::new(alloc),
    })
}

/// The wave of its source.
pub fn waves_of(alloc: Global, row: PlanRow<'_>) -> Result<Items<WavIn>, Memory> {
    let samples = Items::from_slice(alloc, row.samples)?;
    let mut waves = Items::new(alloc);
    waves.push(WavIn {
        node: 0,
        wav: Wav {
            rate: 48000,
            channels: row.channels,
            samples,
        },
    })?;
    Ok(waves)
}

// What a plan renders, where it is sound and the waves fit.
fn rendered(alloc: Global, plan: &Plan, waves: &Items<WavIn>) -> Result<Option<Outcome>, Memory> {
    if !is_sound_plan(plan) {
        return Ok(None);
    }
    if !waves_fit(plan, waves) {
        return Ok(None);
    }
    Ok(Some(render(alloc, plan, waves)?))
}

/// What the reference program renders of the plan of a row, none where that is not sound or the
/// wave does not fit.
pub fn outcome_of(alloc: Global, row: PlanRow<'_>) -> Result<Option<Outcome>, Memory> {
    let plan = plan_of(alloc, row)?;
    let waves = waves_of(alloc, row)?;
    rendered(alloc, &plan, &waves)
}
