//! The number of buffers that a port takes.
ghost use Rattle.std.specs.Prelude.{◌≡◌, pos, ◌≤◌};
ghost use Rattle.pw_graph.specs.SoundShape.{IsBetween};
ghost use Rattle.format_filter.specs.declared.choice.Choice.TheVariants as choice;
ghost use Rattle.format_filter.specs.declared.choice.Wide.TheVariants as wide;
ghost use Rattle.pod_codec.specs.declared.pod.Pod.{Pod};
ghost use Rattle.format_filter.specs.Members.{IsMember};
ghost use Rattle.format_filter.specs.Soundness.{IsSound};
ghost use Rattle.port_model.specs.PortState.{IsPort, AtPort, HasPlace, with_port, buffered};
ghost use Rattle.port_model.specs.Forms.{buffers_of};
ghost use Rattle.port_model.specs.SoundPorts.{IsNumber, AreSoundNodes};

use crate::places::{node_at, state_at};
use crate::port_state::Node;
use crate::ports::Ports;
use format_filter::{Choice, Wide};
use pw_graph::PortId;
use pw_lists::Items;

/// Gives a port a number of buffers.
fn put_buffers(nodes: &mut Items<Node>, port: PortId, n: u32)
    requires { HasPlace nodes.old port }
    ensures { nodes.new ≡ with_port nodes.old port (buffered n) }
{
    let node = &mut nodes.as_mut_slice()[port.node as usize];
    let state = &mut node.ports.as_mut_slice()[port.port as usize];
    state.buffers = Some(n);
}

/// A Range of counts.
fn range(pick: u32, min: u32, max: u32) -> Choice
    requires some { 1 ≤ min }
    requires least { min ≤ pick }
    requires greatest { pick ≤ max }
    requires few { max ≤ 8 }
    ensures value { result ≡ choice.Range wide.Int (pos pick) (pos min) (pos max) }
    ensures sound { IsSound result }
    ensures numbers { (x : Pod) → IsMember result x → IsNumber (IsBetween 1 8) x }
{
    Choice::Range {
        wide: Wide::Int,
        pick: i64::from(pick),
        min: i64::from(min),
        max: i64::from(max),
    }
}

impl Ports {
    /// Sets the number of buffers of a port, 1 to 8. Takes no memory.
    pub fn set_buffers(&mut self, port: PortId, n: u32)
        requires port { IsPort self.old port }
        requires range { IsBetween 1 8 n }
        ensures { self.new ≡ with_port self.old port (buffered n) }
    {
        put_buffers(&mut self.nodes, port, n);
    }

    /// How many buffers a port takes: just the number that was set, else 1 to 8, of which it
    /// prefers 2. Takes no memory.
    ///
    /// Public source: PipeWire's documentation, "SPA Buffers"; `spa/param/buffers.h`,
    /// `SPA_PARAM_BUFFERS_buffers`.
    pub fn buffers(&self, port: PortId) -> Choice
        requires { IsPort self.now port }
        ensures count { AtPort self.now port (λ node s. result ≡ buffers_of s) }
        ensures sound { IsSound result }
        ensures numbers { (x : Pod) → IsMember result x → IsNumber (IsBetween 1 8) x }
        ensures nodes { AreSoundNodes self.now }
    {
        let node = node_at(self.nodes.as_slice(), port);
        match state_at(node, port.port).buffers {
            Some(n) => range(n, n, n),
            None => range(2, 1, 8),
        }
    }
}
