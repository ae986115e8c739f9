//! The ports of all nodes.
ghost use Rattle.std.specs.Prelude.{◌≡◌, ◌<◌, ◌≤◌, ◌↔◌, [], ◌∷◌, ◌++◌, length, IfOk, OnOk, OnErr, IsTrue, IsSome};
ghost use Rattle.pw_lists.specs.Limits.{nodes_limit};
ghost use Rattle.pw_graph.specs.KindRanges.{IsInRange, IsRate, IsChannels};
ghost use Rattle.port_model.specs.PortState.{IsPort, AtPort, HasPlace, with_port, taking};
ghost use Rattle.port_model.specs.Offers.{new_node, HasFileNumbers};
ghost use Rattle.port_model.specs.SoundPorts.{MayTake, AreSoundNodes};

use crate::kind_offers::new_node;
use crate::places::{node_at, state_at};
use crate::port_state::Node;
use format_filter::Format;
use pw_graph::{Kind, PortId};
use pw_lists::{Items, Memory};
use std::alloc::Global;
use std::marker::Model;

/// The ports of all nodes: of each port what it offers, its format and its number of buffers.
///
/// Nodes are numbered from 0 in the order in which they are added; the ports of a node are numbered
/// from 0, inputs first. Contracts see a list of nodes, each with its kind and a list of its ports.
#[derive(Drop)]
pub struct Ports {
    pub(crate) alloc: Global,
    pub(crate) nodes: Items<Node>,
}

impl Model for Ports {
    ghost use Rattle.std.specs.Prelude.{List};
    ghost use Rattle.std.specs.Coded.{coded_list};
    ghost use Rattle.port_model.specs.declared.port_state.Node.{Node};
    ghost use Rattle.port_model.specs.contracts.port_state.Node as stored;
    ghost use Rattle.port_model.specs.SoundPorts.{AreSoundNodes};

    ghost Value = { List Node };

    ghost coded = { coded_list stored.the_row.coded };

    ghost view = { λ p. p.nodes };

    ghost invariant = { λ p. AreSoundNodes p.nodes };
}

/// Gives a port its format.
fn put_format(nodes: &mut Items<Node>, port: PortId, format: Format)
    requires { HasPlace nodes.old port }
    ensures { nodes.new ≡ with_port nodes.old port (taking format) }
{
    let node = &mut nodes.as_mut_slice()[port.node as usize];
    let state = &mut node.ports.as_mut_slice()[port.port as usize];
    state.format = Some(format);
}

impl Ports {
    /// No node. They keep the allocator, and `add` and `offer` use it.
    pub fn new(alloc: Global) -> Result<Ports, Memory>
        ensures { IfOk result (λ ports. ports ≡ []) }
    {
        Ok(Ports {
            alloc,
            nodes: Items::new(alloc),
        })
    }

    /// Adds the next node, whose ports offer what its kind does. `rate` and `channels` are those of
    /// a source's file, 1 to 384000 and 1 to 8, and 0 for the other kinds. After `Memory` all is as
    /// before.
    pub fn add(&mut self, kind: &Kind, rate: u32, channels: u32) -> Result<(), Memory>
        requires room { length self.old < nodes_limit }
        requires kind { IsInRange kind.now }
        requires file { HasFileNumbers kind.now rate channels }
        ensures ok { OnOk result (self.new ≡ self.old ++ new_node kind.now rate channels ∷ []) }
        ensures err { OnErr result (self.new ≡ self.old) }
    {
        let node = new_node(self.alloc, kind, rate, channels)?;
        self.nodes.push(node)
    }

    /// Gives a port its format, which is moved in. Takes no memory.
    pub fn set_format(&mut self, port: PortId, format: Format)
        requires port { IsPort self.old port }
        requires format { AtPort self.old port (MayTake format) }
        ensures { self.new ≡ with_port self.old port (taking format) }
    {
        put_format(&mut self.nodes, port, format);
    }

    /// Whether a port has its format. Takes no memory.
    pub fn has_format(&self, port: PortId) -> bool
        requires { IsPort self.now port }
        ensures format { AtPort self.now port (λ node s. IsTrue result ↔ IsSome s.format) }
        ensures nodes { AreSoundNodes self.now }
    {
        let node = node_at(self.nodes.as_slice(), port);
        state_at(node, port.port).format.is_some()
    }
}
