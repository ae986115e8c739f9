//! The nodes that begin anew with an epoch.
ghost use Rattle.std.specs.Prelude.{◌≡◌, ◌↔◌, ◌<◌, ℕ, true, length, IfOk, IsTrue};
ghost use Rattle.port_model.specs.PortState.{IsInput};
ghost use Rattle.graph_lines.specs.Activity.{standing};
ghost use Rattle.graph_lines.specs.Fresh.{ChannelsIn, IsFresh};
ghost use Rattle.graph_lines.specs.Gathering.{HasFreshBelow};
ghost use Rattle.graph_lines.specs.Ready.{HasReadyNodes};

use crate::forms::{form_in, input_count};
use crate::graph::Graph;
use pw_graph::{Fresh, PortId};
use pw_lists::{Items, Memory};

impl Graph {
    // Whether a line has made a node, and it has an input.
    fn has_first_input(&self, node: u32) -> bool
        requires sound { HasReadyNodes self.now.nodes self.now.kinds self.now.ports }
        requires node { node < length self.now.nodes }
        ensures { IsTrue result ↔ (((standing self.now.nodes node).there ≡ true)
            × IsInput self.now.ports (record { node = node; port = 0 })) }
    {
        self.standing(node).there && 0 < input_count(self.kinds.as_slice(), node)
    }

    // The channels of a node's first input, or 0.
    pub(crate) fn channels_in(&self, node: u32) -> u32
        requires sound { HasReadyNodes self.now.nodes self.now.kinds self.now.ports }
        requires node { node < length self.now.nodes }
        ensures channels { ChannelsIn self.now node result }
        ensures only { (channels : ℕ) → ChannelsIn self.now node channels
            → channels ≡ result }
    {
        if !self.has_first_input(node) {
            return 0;
        }
        match form_in(&self.ports, self.kinds.as_slice(), PortId { node, port: 0 }) {
            Some((_rate, channels)) => channels,
            None => 0,
        }
    }

    // Whether a node with these channels begins anew.
    fn is_fresh(&self, node: u32, channels: u32) -> bool
        requires { node < length self.now.nodes }
        ensures { IsTrue result ↔ IsFresh self.now node channels }
    {
        let standing = self.standing(node);
        standing.gave_up || channels != standing.told
    }

    // The nodes that begin anew.
    pub(crate) fn fresh_nodes(&self) -> Result<Items<Fresh>, Memory>
        requires { HasReadyNodes self.now.nodes self.now.kinds self.now.ports }
        ensures { IfOk result (HasFreshBelow self.now (length self.now.nodes)) }
    {
        let mut fresh = Items::new(self.alloc);
        for node in 0..self.node_count() {
            let channels = self.channels_in(node);
            if self.is_fresh(node, channels) {
                fresh.push(Fresh { node, channels })?;
            }
        }
        Ok(fresh)
    }
}
