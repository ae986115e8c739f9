//! Nodes and ports by their numbers.
ghost use Rattle.std.specs.Prelude.{◌≡◌, ◌<◌, length, slice_get, Some};
ghost use Rattle.port_model.specs.PortState.{IsPort};
ghost use Rattle.port_model.specs.SoundPorts.{AreSoundNodes, IsSoundNode, IsSoundPort};

use crate::port_state::{Node, PortState};
use pw_graph::PortId;

/// The node of a port.
pub fn node_at(nodes: &[Node], port: PortId) -> &Node
    requires sound { AreSoundNodes nodes.now }
    requires port { IsPort nodes.now port }
    ensures node { slice_get nodes.now port.node ≡ Some result.now }
    ensures port { port.port < length result.now.ports }
    ensures sound { IsSoundNode result.now }
{
    &nodes[port.node as usize]
}

/// A port of a node.
pub fn state_at(node: &Node, port: u32) -> &PortState
    requires sound { IsSoundNode node.now }
    requires port { port < length node.now.ports }
    ensures state { slice_get node.now.ports port ≡ Some result.now }
    ensures sound { IsSoundPort node.now.kind port result.now }
{
    &node.ports.as_slice()[port as usize]
}
