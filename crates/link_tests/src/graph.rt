//! A graph as a script makes it, node by node.
ghost use Rattle.link_tests.specs.Counted.{AreCounted};

use link_negotiation::Links;
use port_model::Ports;
use pw_lists::Items;
use std::alloc::Global;

/// Ports and links, and of each node how many inputs it has and how many ports.
#[derive(Drop)]
pub struct Graph {
    pub alloc: Global,
    pub ports: Ports,
    pub links: Links,
    pub inputs: Items<u32>,
    pub counts: Items<u32>,
    ghost counted: { AreCounted ports inputs counts },
}
