//! The graph as the lines so far have made it.
ghost use Rattle.std.specs.Prelude.{◌≡◌, ◌<◌, ◌≤◌, ◌++◌, ◌∷◌, [], length, OnOk};
ghost use Rattle.pw_lists.specs.Limits.{nodes_limit};
ghost use Rattle.graph_lines.specs.Activity.{standing};
ghost use Rattle.graph_lines.specs.Ready.{HasReadyNodes};

use crate::limits::Sums;
use crate::standing::Standing;
use crate::wire::Wire;
use link_negotiation::Links;
use port_model::Ports;
use pw_graph::{Epoch, Kind, LineOutcome, LinkLine, PortId};
use pw_lists::{Items, Memory, Which};
use std::alloc::Global;

/// The graph as the lines so far have made it, and the epochs that they had.
#[derive(Drop)]
pub struct Graph {
    pub alloc: Global,
    /// Frames in a cycle, 1 to 8192.
    pub quantum: u32,
    /// The kinds of all nodes of the script, by number.
    pub kinds: Items<Kind>,
    pub ports: Ports,
    pub links: Links,
    /// The same links, with their buffers.
    pub wires: Items<Wire>,
    /// What lines have said of each node.
    pub nodes: Items<Standing>,
    /// The `link` and `unlink` lines so far.
    pub lines: Items<LinkLine>,
    pub epochs: Items<Epoch>,
    /// The number of the next cycle.
    pub first: u32,
    pub sums: Sums,
}

/// What became of a line.
#[derive(Clone, Copy, Drop)]
pub enum Stepped {
    Done,
    /// It passed a limit.
    Passed { which: Which },
}

// Notes what a line did.
pub(crate) fn note(
    lines: &mut Items<LinkLine>,
    from: PortId,
    to: PortId,
    outcome: LineOutcome,
) -> Result<(), Memory>
    ensures { OnOk result (lines.new
        ≡ lines.old ++ record { from = from; to = to; outcome = outcome } ∷ []) }
{
    lines.push(LinkLine { from, to, outcome })
}

impl Graph {
    // What is said of a node.
    pub(crate) fn standing(&self, node: u32) -> Standing
        requires { node < length self.now.nodes }
        ensures { result ≡ standing self.now.nodes node }
    {
        self.nodes.as_slice()[node as usize]
    }

    // How many nodes there are.
    pub(crate) fn node_count(&self) -> u32
        requires { HasReadyNodes self.now.nodes self.now.kinds self.now.ports }
        ensures count { result ≡ length self.now.nodes }
        ensures few { result ≤ nodes_limit }
    {
        self.nodes.len() as u32
    }
}
