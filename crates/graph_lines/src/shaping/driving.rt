//! The node that drives.
ghost use Rattle.std.specs.Prelude.{◌≡◌, ◌+◌, ◌<◌, ◌≤◌, length, slice_index_or};
ghost use Rattle.pw_lists.specs.Limits.{nodes_limit};
ghost use Rattle.pw_graph.specs.declared.kind.Kind.TheVariants.{Dummy};
ghost use Rattle.graph_lines.specs.Activity.{may_drive, candidacy, IsDriver};
ghost use Rattle.graph_lines.specs.Searching.{IsBest};

use crate::standing::Standing;
use pw_graph::{DUMMY, Kind};

/// A node that may drive, and its priority.
#[derive(Clone, Copy, Drop)]
pub struct Candidate {
    pub node: u32,
    pub priority: u32,
}

// Whether the node of this number is a sink or a meter.
fn may_drive(kinds: &[Kind], node: u32) -> bool
    ensures { result ≡ may_drive (slice_index_or kinds.now node Dummy) }
{
    match kinds.get(node as usize) {
        Some(Kind::Sink) | Some(Kind::Meter) => true,
        _ => false,
    }
}

// The priority of a candidate.
fn candidacy(kinds: &[Kind], nodes: &[Standing], node: u32) -> Option<u32>
    requires { node < length nodes.now }
    ensures { result ≡ candidacy kinds.now nodes.now node }
{
    let standing = nodes[node as usize];
    if may_drive(kinds, node) && standing.on {
        standing.priority
    } else {
        None
    }
}

// The best of the nodes before one, and that one.
fn better(
    kinds: &[Kind],
    nodes: &[Standing],
    best: Option<Candidate>,
    node: u32,
) -> Option<Candidate>
    requires node { node < length nodes.now }
    requires best { IsBest kinds.now nodes.now node best }
    ensures { IsBest kinds.now nodes.now (node + 1) result }
{
    match (best, candidacy(kinds, nodes, node)) {
        (_, None) => best,
        (None, Some(priority)) => Some(Candidate { node, priority }),
        (Some(first), Some(priority)) => {
            if first.priority < priority {
                Some(Candidate { node, priority })
            } else {
                Some(first)
            }
        }
    }
}

/// The number of the node that drives: of the sinks and meters that are on and have a priority, the
/// one with the greatest, and of these the lowest number; `DUMMY` where there is none. Takes no
/// memory; cost: one look at each node.
pub fn driver_of(kinds: &[Kind], nodes: &[Standing]) -> u32
    requires { length nodes.now ≤ nodes_limit }
    ensures { IsDriver kinds.now nodes.now result }
{
    let mut best = None;
    for node in 0..nodes.len() {
        best = better(kinds, nodes, best, node as u32);
    }
    match best {
        Some(first) => first.node,
        None => DUMMY,
    }
}
