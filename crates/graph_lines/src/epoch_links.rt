//! The links of an epoch.
ghost use Rattle.std.specs.Prelude.{filter, All, IfOk, ◌≡◌};
ghost use Rattle.std.specs.List.{AllZip};
ghost use Rattle.graph_lines.specs.Activity.{standing};
ghost use Rattle.graph_lines.specs.Epochs.{is_asynchronous, IsLinkOf};
ghost use Rattle.graph_lines.specs.Gathering.{is_used_in};
ghost use Rattle.graph_lines.specs.Ready.{IsReadyWire};

use crate::graph::Graph;
use crate::linking::form_at;
use crate::shaping::{is_in, is_live};
use crate::standing::Standing;
use crate::wire::Wire;
use pw_graph::ShapeLink;
use pw_lists::{Items, Memory};

// Whether a node is marked.
fn is_marked(nodes: &[Standing], node: u32) -> bool
    ensures { result ≡ (standing nodes.now node).marked }
{
    match nodes.get(node as usize) {
        Some(standing) => standing.marked,
        None => false,
    }
}

// Whether one of its nodes is marked.
fn is_asynchronous(nodes: &[Standing], wire: &Wire) -> bool
    ensures { result ≡ is_asynchronous nodes.now wire.now }
{
    is_marked(nodes, wire.from.node) || is_marked(nodes, wire.to.node)
}

// Whether a link is live, and both its nodes are in.
fn is_used_in(nodes: &[Standing], here: &[bool], wire: &Wire) -> bool
    ensures { result ≡ is_used_in nodes.now here.now wire.now }
{
    is_live(nodes, wire) && (is_in(here, wire.from.node) && is_in(here, wire.to.node))
}

impl Graph {
    // A link as one of the epoch.
    fn link_in(&self, wire: &Wire) -> ShapeLink
        requires { IsReadyWire self.now.ports wire.now }
        ensures { IsLinkOf self.now wire.now result }
    {
        let (_rate, channels) = form_at(&self.ports, wire.from);
        ShapeLink {
            from: wire.from,
            to: wire.to,
            channels,
            buffers: wire.buffers,
            delayed: is_asynchronous(self.nodes.as_slice(), wire),
        }
    }

    // The live links both of whose nodes are in, in the order in which they were made.
    pub(crate) fn links_in(&self, here: &[bool]) -> Result<Items<ShapeLink>, Memory>
        requires { All (IsReadyWire self.now.ports) self.now.wires }
        ensures { IfOk result (AllZip (IsLinkOf self.now)
            (filter (is_used_in self.now.nodes here.now) self.now.wires)) }
    {
        let mut links = Items::new(self.alloc);
        links.reserve(self.wires.len())?;
        for wire in self.wires.as_slice() {
            if is_used_in(self.nodes.as_slice(), here, wire) {
                links.push(self.link_in(wire))?;
            }
        }
        Ok(links)
    }
}
