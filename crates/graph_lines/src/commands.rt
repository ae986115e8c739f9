//! What a line does, but for those that make epochs.
ghost use Rattle.std.specs.Prelude.{◌≡◌, ◌<◌, ◌≤◌, ◌==◌, ◌||◌, length, map, IfOk, slice_set};
ghost use Rattle.pw_lists.specs.Limits.{nodes_limit, buffers_limit};
ghost use Rattle.std.specs.List.{list_any};
ghost use Rattle.pw_graph.specs.SoundShape.{IsBetween};
ghost use Rattle.port_model.specs.PortState.{IsPort, with_port, buffered};
ghost use Rattle.link_negotiation.specs.Links.{link_of, has_link};
ghost use Rattle.graph_lines.specs.declared.graph.Stepped.TheVariants.{Done};
ghost use Rattle.graph_lines.specs.Activity.{standing};
ghost use Rattle.graph_lines.specs.Lines.{with_node, made, Marks, Does};
ghost use Rattle.graph_lines.specs.Conditions.{AreWired, MayDo};

use crate::graph::{Graph, Stepped};
use crate::standing::Standing;
use crate::wire::Wire;
use graph_script::Command;
use pw_graph::PortId;
use pw_lists::{Items, Memory};

// Writes what is said of a node.
fn put(nodes: &mut Items<Standing>, node: u32, standing: Standing)
    requires { node < length nodes.old }
    ensures { nodes.new ≡ slice_set nodes.old node standing }
{
    nodes.as_mut_slice()[node as usize] = standing;
}

// Whether one of these starts or ends at a node.
fn any_at(wires: &[Wire], node: u32) -> bool
    ensures { result ≡ list_any (λ w. (w.from.node == node) || (w.to.node == node)) wires.now }
{
    wires
        .iter()
        .any(|wire| wire.from.node == node || wire.to.node == node)
}

// Whether a node has a link.
fn has_wire(wires: &[Wire], node: u32) -> bool
    ensures { result ≡ has_link (map (λ w. link_of w.from w.to) wires.now) node }
{
    any_at(wires, node)
}

impl Graph {
    // Puts what is said of a node.
    fn put_standing(&mut self, node: u32, standing: Standing) -> Stepped
        requires { node < length self.old.nodes }
        ensures graph { self.new
            ≡ record self.old { nodes = slice_set self.old.nodes node standing } }
        ensures done { result ≡ Done }
    {
        put(&mut self.nodes, node, standing);
        Stepped::Done
    }

    // A line that makes a node.
    fn make_node(&mut self, node: u32) -> Stepped
        requires { node < length self.old.nodes }
        ensures graph { self.new ≡ with_node self.old node made }
        ensures done { result ≡ Done }
    {
        let mut standing = self.standing(node);
        standing.there = true;
        self.put_standing(node, standing)
    }

    // An `async` line.
    fn mark_node(&mut self, node: u32) -> Stepped
        requires node { node < length self.old.nodes }
        requires few { length self.old.nodes ≤ nodes_limit }
        requires wired { AreWired self.old }
        ensures graph { Marks self.old node self.new }
        ensures done { result ≡ Done }
    {
        if has_wire(self.wires.as_slice(), node) {
            return Stepped::Done;
        }
        self.links.mark(node);
        let mut standing = self.standing(node);
        standing.marked = true;
        self.put_standing(node, standing)
    }

    // A `buffers` line.
    fn set_buffers(&mut self, port: PortId, n: u32) -> Stepped
        requires port { IsPort self.old.ports port }
        requires range { IsBetween 1 buffers_limit n }
        ensures graph { self.new
            ≡ record self.old { ports = with_port self.old.ports port (buffered n) } }
        ensures done { result ≡ Done }
    {
        self.ports.set_buffers(port, n);
        Stepped::Done
    }

    // What a line does that makes no epoch. `quantum` and `offer` lines change nothing here: they
    // were taken before the first line.
    pub(crate) fn set_by(&mut self, command: &Command) -> Result<Stepped, Memory>
        requires line { MayDo self.old command.now }
        requires few { length self.old.nodes ≤ nodes_limit }
        requires wired { AreWired self.old }
        ensures { IfOk result (λ stepped. Does self.old command.now stepped self.new) }
    {
        match command {
            Command::Source { node, .. } => Ok(self.make_node(*node)),
            Command::Square { node, .. } => Ok(self.make_node(*node)),
            Command::Gain { node, .. } => Ok(self.make_node(*node)),
            Command::Mix2 { node, .. } => Ok(self.make_node(*node)),
            Command::Delay { node, .. } => Ok(self.make_node(*node)),
            Command::Map { node, .. } => Ok(self.make_node(*node)),
            Command::Split { node } => Ok(self.make_node(*node)),
            Command::Sink { node, .. } => Ok(self.make_node(*node)),
            Command::Meter { node } => Ok(self.make_node(*node)),
            Command::Driver { node, priority } => {
                let mut standing = self.standing(*node);
                standing.priority = Some(*priority);
                Ok(self.put_standing(*node, standing))
            }
            Command::Loop { node, k } => {
                let mut standing = self.standing(*node);
                standing.k = *k;
                Ok(self.put_standing(*node, standing))
            }
            Command::On { node } => {
                let mut standing = self.standing(*node);
                standing.on = true;
                Ok(self.put_standing(*node, standing))
            }
            Command::Off { node } => {
                let mut standing = self.standing(*node);
                standing.on = false;
                Ok(self.put_standing(*node, standing))
            }
            Command::Async { node } => Ok(self.mark_node(*node)),
            Command::Buffers { port, n } => Ok(self.set_buffers(*port, *n)),
            Command::Link { from, to } => self.link_line(*from, *to),
            Command::Unlink { from, to } => self.unlink_line(*from, *to),
            _ => Ok(Stepped::Done),
        }
    }
}
