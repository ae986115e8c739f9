//! Formats that are given up.
ghost use Rattle.std.specs.Prelude.{◌≡◌, ◌<◌, length, map};
ghost use Rattle.port_model.specs.PortState.{released, with_released};

use crate::port_state::{Node, PortState};
use crate::ports::Ports;
use pw_lists::Items;

/// Takes the formats of some ports away.
fn release(ports: &mut [PortState])
    ensures { ports.new ≡ map released ports.old }
{
    for state in ports.iter_mut() {
        state.format = None;
    }
}

/// The ports of a node give up their formats.
fn release_node(nodes: &mut Items<Node>, node: u32)
    requires { node < length nodes.old }
    ensures { nodes.new ≡ with_released nodes.old node }
{
    release(nodes.as_mut_slice()[node as usize].ports.as_mut_slice());
}

impl Ports {
    /// The ports of a node give up their formats; what they offer and their counts of buffers stay.
    /// Takes no memory.
    pub fn give_up(&mut self, node: u32)
        requires { node < length self.old }
        ensures { self.new ≡ with_released self.old node }
    {
        release_node(&mut self.nodes, node);
    }
}
