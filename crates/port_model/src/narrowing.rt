//! How a file narrows what a port offers.
ghost use Rattle.std.specs.Prelude.{IfOk, OnErr, ◌≡◌};
ghost use Rattle.format_filter.specs.CommonFormat.{IsSoundFormat};
ghost use Rattle.port_model.specs.PortState.{IsPort, AtPort, HasPlace, with_port, offering};
ghost use Rattle.port_model.specs.Narrowing.{IsUnformatted, Narrows};

use crate::places::{node_at, state_at};
use crate::port_state::Node;
use crate::ports::Ports;
use format_filter::{Filtered, Format, filter};
use pw_graph::PortId;
use pw_lists::{Items, Memory};

/// What a file does to a port's offer.
#[derive(Clone, Copy, PartialEq, Eq, Drop)]
pub enum Narrowed {
    /// It is the common format of both now.
    Done,
    /// The file's object is no Format.
    NotFormat,
    /// Both clash, first at this key.
    Clash { key: u32 },
}

/// Gives a port another own offer.
fn put_own(nodes: &mut Items<Node>, port: PortId, own: Format)
    requires { HasPlace nodes.old port }
    ensures { nodes.new ≡ with_port nodes.old port (offering own) }
{
    let node = &mut nodes.as_mut_slice()[port.node as usize];
    let state = &mut node.ports.as_mut_slice()[port.port as usize];
    state.own = own;
}

impl Ports {
    /// Narrows what a port offers to what it has in common with the object of a file.
    ///
    /// The object type of a Format is 0x40003; the file's id is not looked at. A key that the offer
    /// lacks is added, or with the flag MANDATORY it clashes. Takes time linear in the fields, and
    /// that of the intersections. After any answer but `Done` all is as before.
    ///
    /// Public source: PipeWire's documentation, "SPA POD"; `spa/pod/filter.h`, `spa_pod_filter`.
    pub fn offer(&mut self, port: PortId, format: &Format) -> Result<Narrowed, Memory>
        requires port { IsPort self.old port }
        requires free { AtPort self.old port (λ node s. IsUnformatted node) }
        requires format { IsSoundFormat format.now }
        ensures ok { IfOk result (λ narrowed. Narrows self.old port format.now narrowed self.new) }
        ensures err { OnErr result (self.new ≡ self.old) }
    {
        let node = node_at(self.nodes.as_slice(), port);
        let state = state_at(node, port.port);
        match filter(self.alloc, &state.own, format)? {
            Filtered::Common(own) => {
                put_own(&mut self.nodes, port, own);
                Ok(Narrowed::Done)
            }
            Filtered::Clash { key } => Ok(Narrowed::Clash { key }),
            Filtered::Types => Ok(Narrowed::NotFormat),
        }
    }
}
