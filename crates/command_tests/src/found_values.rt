//! What a run found, made of rows.

use crate::found_plans::{epochs_of, nodes_of, script_of, told_of};
use format_filter::{Choice, Wide};
use pod_codec::Pod;
use pw_graph::{LineOutcome, Plan, PortId};
use pw_lists::{Items, Memory, Text};
use pw_top::{Content, Found, Store, What, Work};
use refused_links::{RefusedLink, Sides};
use std::alloc::Global;
use wav_files::{Peak, Wav};

/// A line of the script, the file of its sink, and the samples that it stored.
pub(crate) type Stored = (u32, &'static str, &'static [i16]);

/// What a command has found.
#[derive(Clone, Copy, Drop)]
pub(crate) enum Seen {
    Nothing,
    /// Of a run of a script.
    Run(Ran),
    /// Of a trace: that it is legal.
    Legal,
}

/// What a run of a script found: what its lines with two ends did, in their order, the peaks of its
/// meters, its epochs, and what both sides of refused links admit.
#[derive(Clone, Copy, Drop)]
pub(crate) struct Ran {
    pub(crate) outcomes: &'static [LineOutcome],
    pub(crate) peaks: &'static [Peak],
    pub(crate) epochs: &'static [Driven],
    pub(crate) parted: &'static [Parted],
}

/// A run of a script without links, meters and cycles.
pub(crate) const RAN: Ran = Ran {
    outcomes: &[],
    peaks: &[],
    epochs: &[],
    parted: &[],
};

/// The driver of an epoch, and its active nodes.
pub(crate) type Driven = (u32, &'static [u32]);

/// What an offer admits at a key: nothing where it does not have it.
#[derive(Clone, Copy, Drop)]
pub(crate) enum Side {
    None,
    Int(i32),
    Id(u32),
    From(i64, i64),
}

/// What both offers admit, or the offer of a port at odds with its node.
#[derive(Clone, Copy, Drop)]
pub(crate) enum Pair {
    Both(Side, Side),
    Node(PortId, Side, Option<u32>),
}

/// The line and the key of a refused link, and what both sides admit.
pub(crate) type Parted = (u32, u32, Pair);

// What an offer admits.
fn choice_of(side: Side) -> Option<Choice> {
    match side {
        Side::None => None,
        Side::Int(n) => Some(Choice::Only(Pod::Int(n))),
        Side::Id(n) => Some(Choice::Only(Pod::Id(n))),
        Side::From(min, max) => Some(Choice::Range {
            wide: Wide::Int,
            pick: min,
            min,
            max,
        }),
    }
}

// The two sides of a pair.
fn sides_of(pair: Pair) -> Sides {
    match pair {
        Pair::Both(from, to) => Sides::Both {
            from: choice_of(from),
            to: choice_of(to),
        },
        Pair::Node(port, own, shared) => Sides::Node {
            port,
            own: choice_of(own),
            shared,
        },
    }
}

// The refused links of rows, whose ends and places no note asks for.
fn refused_of(alloc: Global, rows: &[Parted]) -> Result<Items<RefusedLink>, Memory> {
    let end = PortId { node: 0, port: 0 };
    let mut refused = Items::new(alloc);
    for (line, key, pair) in rows {
        refused.push(RefusedLink {
            line: *line,
            place: 0,
            from: end,
            to: end,
            key: *key,
            sides: sides_of(*pair),
        })?;
    }
    Ok(refused)
}

// Bytes that may be at hand.
fn text_of(alloc: Global, bytes: Option<&[u8]>) -> Result<Option<Text>, Memory> {
    match bytes {
        None => Ok(None),
        Some(bytes) => match Items::from_slice(alloc, bytes) {
            Ok(text) => Ok(Some(text)),
            Err(memory) => Err(memory),
        },
    }
}

// The store of a line.
fn store_of(alloc: Global, stored: Stored) -> Result<Store, Memory> {
    let (place, file, samples) = stored;
    let name = Items::from_slice(alloc, file.as_bytes())?;
    let samples = Items::from_slice(alloc, samples)?;
    let content = Content::Wave(Wav {
        rate: 48_000,
        channels: 1,
        samples,
    });
    Ok(Store {
        place,
        name,
        content,
    })
}

// What was stored, and a text that was put.
fn work_of(alloc: Global, text: Text, rows: &[Stored]) -> Result<Work, Memory> {
    let mut stores = Items::new(alloc);
    for row in rows {
        let store = store_of(alloc, *row)?;
        stores.push(store)?;
    }
    Ok(Work { stores, text })
}

// What a run of a script found.
fn run_of(alloc: Global, script: &[u8], ran: Ran) -> Result<What, Memory> {
    let script = script_of(alloc, script)?;
    let nodes = nodes_of(alloc, &script)?;
    let lines = told_of(alloc, &script, ran.outcomes)?;
    let peaks = Items::from_slice(alloc, ran.peaks)?;
    let plan = Plan {
        quantum: 8192,
        nodes,
        epochs: epochs_of(alloc, ran.epochs)?,
        lines,
    };
    Ok(What::Run {
        script,
        plan,
        peaks,
        refused: refused_of(alloc, ran.parted)?,
    })
}

/// What a command found; of a run by the bytes of its script, and nothing without these.
pub(crate) fn what_of(alloc: Global, script: Option<&[u8]>, seen: Seen) -> Result<What, Memory> {
    match seen {
        Seen::Nothing => Ok(What::Nothing),
        Seen::Run(ran) => match script {
            None => Ok(What::Nothing),
            Some(script) => run_of(alloc, script, ran),
        },
        Seen::Legal => Ok(What::Check {
            names: Items::new(alloc),
            reason: None,
            event: None,
        }),
    }
}

/// What was found: the bytes of a script, and a text that was put, where these are at hand, and
/// what was stored.
pub(crate) fn found_of(
    alloc: Global,
    script: Option<&[u8]>,
    told: Option<&[u8]>,
    rows: &[Stored],
    what: What,
) -> Result<Found, Memory> {
    let script = text_of(alloc, script)?;
    let work = match text_of(alloc, told)? {
        None => None,
        Some(text) => Some(work_of(alloc, text, rows)?),
    };
    Ok(Found { script, work, what })
}
