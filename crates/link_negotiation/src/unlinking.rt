//! How a link is taken away.
ghost use Rattle.std.specs.Prelude.{◌≡◌, ◌<◌, length};
ghost use Rattle.port_model.specs.PortState.{IsInput, IsOutput};
ghost use Rattle.link_negotiation.specs.Unlinking.{without, releasing, giving_up, HasUnlinked};

use crate::link::Link;
use crate::links::{Links, are_linked, has_link, joins};
use port_model::Ports;
use pw_graph::PortId;

/// What became of a link that is to go.
#[derive(Clone, Copy, Drop)]
pub enum Unlinked {
    /// It is gone; the bits are those of its nodes that gave their formats up.
    Gone { gave_up: u64 },
    /// It was not there.
    NotThere,
}

/// Takes a link out of some, of which it is one at most: in linear time then.
fn remove(made: &mut Vec<Link>, from: PortId, to: PortId)
    ensures { made.new.items ≡ without from to made.old.items }
{
    let mut at = 0;
    'links: while at < made.len() {
        if joins(&made[at], from, to) {
            made.remove(at);
        } else {
            at += 1;
        }
    }
}

/// A node without a link gives its formats up, unless it is to keep them; the set of those that
/// did.
fn release(made: &[Link], ports: &mut Ports, node: u32, keep: u64, gave_up: u64) -> u64
    requires node { node < length ports.old }
    requires below { node < 64 }
    ensures ports { ports.new ≡ releasing made.now keep node ports.old }
    ensures set { result ≡ giving_up made.now keep node gave_up }
{
    if has_link(made, node) || keep >> node & 1 == 1 {
        return gave_up;
    }
    ports.give_up(node);
    gave_up | 1 << node
}

impl Links {
    /// Takes a link away. Each of its two nodes that has no link left gives up the formats of all
    /// its ports, but for the sinks whose bits are in `keep`. Takes no memory, and time linear in
    /// the links.
    ///
    /// Public source: PipeWire's documentation, "Objects Design", Link. What is given up is this
    /// project's.
    pub fn unlink(&mut self, ports: &mut Ports, from: PortId, to: PortId, keep: u64) -> Unlinked
        requires from { IsOutput ports.old from }
        requires to { IsInput ports.old to }
        ensures { HasUnlinked self.old ports.old from to keep result self.new ports.new }
    {
        if !are_linked(self.made.as_slice(), from, to) {
            return Unlinked::NotThere;
        }
        remove(&mut self.made, from, to);
        let first = release(self.made.as_slice(), ports, from.node, keep, 0);
        let gave_up = release(self.made.as_slice(), ports, to.node, keep, first);
        Unlinked::Gone { gave_up }
    }
}
