//! Walks along synchronous links.
ghost use Rattle.std.specs.Prelude.{◌≡◌, ◌<◌, ◌↔◌, length, IsTrue};
ghost use Rattle.link_negotiation.specs.Links.{synchronous_links, IsReachable};
ghost use Rattle.link_negotiation.specs.working.Searching.{IsOutgoing, IsQueue, Expands};

use crate::links::{Links, is_in};
use crate::outgoing::Outgoing;
use crate::reached::Reached;

/// Reaches the nodes that the synchronous links of a node lead to, each link looked at once.
fn expand(links: &Links, outgoing: &Outgoing, reached: &mut Reached, node: u32)
    requires outgoing { IsOutgoing links.now (length links.now.made) outgoing.now }
    requires queue { IsQueue reached.old }
    requires node { node < 64 }
    ensures { Expands links.now node reached.old reached.new }
{
    let mut at = usize::from(outgoing.last[node as usize]);
    'links: while at > 0 {
        reached.reach(links.made[at - 1].to.node);
        at = usize::from(outgoing.earlier[at - 1]);
    }
}

/// Whether a walk along synchronous links leads from one node to another. The nodes are reached
/// breadth first, each is taken once and each link looked at once. Takes no memory, and time linear
/// in the nodes and the links.
pub fn is_reachable(links: &Links, from: u32, to: u32) -> bool
    requires { from < 64 }
    ensures { IsTrue result ↔ IsReachable (synchronous_links links.now) from to }
{
    let outgoing = Outgoing::of(links);
    let mut reached = Reached::of(from);
    let mut taken = 0;
    'nodes: while taken < reached.count {
        let node = reached.order[taken];
        expand(links, &outgoing, &mut reached, node);
        taken += 1;
    }
    is_in(&reached.here, to)
}
