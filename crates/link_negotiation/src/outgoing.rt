//! The synchronous links by the node that they leave.
ghost use Rattle.std.specs.Prelude.{◌+◌, ◌<◌, length};
ghost use Rattle.link_negotiation.specs.Links.{LinkState};
ghost use Rattle.link_negotiation.specs.working.Searching.{IsOutgoing};

use crate::links::{LINKS, Links};
use pw_graph::NODES;

/// The synchronous links that leave each node, from the last one back. A link is given by how many
/// links there are up to it; 0 is no link.
#[derive(Drop)]
pub struct Outgoing {
    /// Of each node the last link that leaves it.
    pub last: [u16; NODES],
    /// Of each link the one before it that leaves the same node.
    pub earlier: [u16; LINKS],
}

impl Outgoing {
    /// Those of no links.
    fn none() -> Outgoing
        ensures { (s : LinkState) → IsOutgoing s 0 result }
    {
        Outgoing {
            last: [0; NODES],
            earlier: [0; LINKS],
        }
    }

    /// One link more.
    fn add(&mut self, links: &Links, at: usize)
        requires at { at < length links.now.made }
        requires before { IsOutgoing links.now at self.old }
        ensures { IsOutgoing links.now (at + 1) self.new }
    {
        let link = &links.made[at];
        if links.is_synchronous(link) {
            let node = link.from.node as usize;
            self.earlier[at] = self.last[node];
            self.last[node] = (at + 1) as u16;
        }
    }

    /// Those of all links, in one pass over them. Takes no memory.
    pub fn of(links: &Links) -> Outgoing
        ensures { IsOutgoing links.now (length links.now.made) result }
    {
        let mut outgoing = Outgoing::none();
        for at in 0..links.made.len() {
            outgoing.add(links, at);
        }
        outgoing
    }
}
