//! All that a script asks for: its nodes, its epochs, and what its link lines did.

use crate::ids::PortId;
use crate::kind::Kind;
use crate::shape::Shape;
use pw_lists::{Items, Text};

/// A node of the script.
#[derive(Debug, Drop)]
pub struct PlanNode {
    pub name: Text,
    pub kind: Kind,
    /// The number of the loop that it asks for.
    pub k: u32,
    /// The rate in frames a second of the one input of a sink or meter at the script's end; 0
    /// without a format and for other kinds.
    pub rate: u32,
    /// The channels of that input, or 0.
    pub channels: u32,
}

/// The form of a port of an active node.
#[derive(Clone, Copy, Debug, Drop)]
pub struct PortForm {
    pub port: PortId,
    pub rate: u32,
    pub channels: u32,
}

/// A node that begins anew with an epoch: it gave up its formats, or the channels of its first
/// input changed.
#[derive(Clone, Copy, Debug, Drop)]
pub struct Fresh {
    pub node: u32,
    /// The channels of its first input in this epoch, or 0.
    pub channels: u32,
}

/// A run of cycles between which nothing in the graph changes.
#[derive(Debug)]
pub struct Epoch {
    pub shape: Shape,
    /// Every port of an active node that has a rate, ascending.
    pub forms: Items<PortForm>,
    /// Ascending.
    pub fresh: Items<Fresh>,
}

impl Drop for Epoch {
    fn drop(self) {
        let Epoch {
            shape: _,
            forms: _,
            fresh: _,
        } = self;
    }
}

/// What a `link` or `unlink` line did.
#[derive(Clone, Copy, Debug, PartialEq, Eq, Drop)]
pub enum LineOutcome {
    Linked {
        rate: u32,
        channels: u32,
        buffers: u32,
    },
    /// The two offers have no common format; `key` is the property at which they part.
    NoFormat {
        key: u32,
    },
    NoBuffers,
    /// The link would close a loop.
    Looped,
    Twice,
    Gone,
    NotThere,
}

/// A `link` or `unlink` line, in the order of the script.
#[derive(Clone, Copy, Debug, PartialEq, Eq, Drop)]
pub struct LinkLine {
    pub from: PortId,
    pub to: PortId,
    pub outcome: LineOutcome,
}

/// What a script asks for. A node's number is its place in `nodes`.
#[derive(Debug)]
pub struct Plan {
    pub quantum: u32,
    pub nodes: Items<PlanNode>,
    pub epochs: Items<Epoch>,
    pub lines: Items<LinkLine>,
}

impl Drop for Plan {
    fn drop(self) {
        let Plan {
            quantum: _,
            nodes: _,
            epochs: _,
            lines: _,
        } = self;
    }
}
