//! `unlink` lines.
ghost use Rattle.std.specs.Prelude.{◌≡◌, ◌≢◌, ℕ, ◌<◌, ◌≤◌, length, IfOk};
ghost use Rattle.pw_lists.specs.Limits.{nodes_limit};
ghost use Rattle.std.specs.Int.{bit_at};
ghost use Rattle.port_model.specs.PortState.{IsInput, IsOutput};
ghost use Rattle.graph_lines.specs.Activity.{standing};
ghost use Rattle.graph_lines.specs.declared.graph.Stepped.TheVariants.{Done};
ghost use Rattle.graph_lines.specs.UnlinkLines.{HasKept, giving, wires_without, UnlinksLine};

use crate::graph::{Graph, Stepped, note};
use crate::standing::Standing;
use crate::wire::Wire;
use link_negotiation::Unlinked;
use pw_graph::{LineOutcome, PortId, is_same_port};
use pw_lists::{Items, Memory};
use std::alloc::Global;

// The set with one number more.
fn with_bit(set: u64, n: usize) -> u64
    requires { n < 64 }
    ensures here { bit_at result n ≡ 1 }
    ensures others { (i : ℕ) → i ≢ n → bit_at result i ≡ bit_at set i }
{
    set | 1 << n
}

// Whether a node keeps its formats.
fn is_kept(nodes: &[Standing], n: usize) -> bool
    requires { n < length nodes.now }
    ensures { result ≡ (standing nodes.now n).kept }
{
    nodes[n].kept
}

// The bits of the nodes that keep their formats.
fn kept_bits(nodes: &[Standing]) -> u64
    requires { length nodes.now ≤ nodes_limit }
    ensures { HasKept nodes.now result }
{
    let mut keep = 0;
    for n in 0..nodes.len() {
        if is_kept(nodes, n) {
            keep = with_bit(keep, n);
        }
    }
    keep
}

// Notes that a node gave up its formats, if its bit is set.
fn give_up(nodes: &mut Items<Standing>, node: u32, gave_up: u64)
    requires node { node < length nodes.old }
    requires below { node < 64 }
    ensures { nodes.new ≡ giving gave_up node nodes.old }
{
    let standing = &mut nodes.as_mut_slice()[node as usize];
    standing.gave_up = standing.gave_up || gave_up >> node & 1 == 1;
}

// The links without one.
fn wires_without(
    alloc: Global,
    wires: &[Wire],
    from: PortId,
    to: PortId,
) -> Result<Items<Wire>, Memory>
    ensures { IfOk result (λ left. left ≡ wires_without from to wires.now) }
{
    let mut left = Items::new(alloc);
    for wire in wires {
        if !(is_same_port(wire.from, from) && is_same_port(wire.to, to)) {
            left.push(*wire)?;
        }
    }
    Ok(left)
}

impl Graph {
    /// An `unlink` line: takes a link away; each of its nodes that has no link left gives up its
    /// formats, but for a sink that was active in a cycle in which it had a form.
    pub(crate) fn unlink_line(&mut self, from: PortId, to: PortId) -> Result<Stepped, Memory>
        requires from { IsOutput self.old.ports from }
        requires to { IsInput self.old.ports to }
        requires few { length self.old.nodes ≤ nodes_limit }
        requires nodes { (from.node < length self.old.nodes) × (to.node < length self.old.nodes) }
        ensures done { IfOk result (λ stepped. stepped ≡ Done) }
        ensures line { IfOk result (λ stepped. UnlinksLine self.old from to self.new) }
    {
        let keep = kept_bits(self.nodes.as_slice());
        match self.links.unlink(&mut self.ports, from, to, keep) {
            Unlinked::NotThere => {
                note(&mut self.lines, from, to, LineOutcome::NotThere)?;
            }
            Unlinked::Gone { gave_up: set } => {
                self.wires = wires_without(self.alloc, self.wires.as_slice(), from, to)?;
                give_up(&mut self.nodes, from.node, set);
                give_up(&mut self.nodes, to.node, set);
                note(&mut self.lines, from, to, LineOutcome::Gone)?;
            }
        }
        Ok(Stepped::Done)
    }
}
