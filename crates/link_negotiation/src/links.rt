//! The links that are there.
ghost use Rattle.std.specs.Prelude.{◌≡◌, ◌<◌, [], false, length, replicate, slice_set, IfOk, true};
ghost use Rattle.pw_lists.specs.Limits.{nodes_limit};
ghost use Rattle.link_negotiation.specs.Links.{joins, are_linked, has_link, is_synchronous};
ghost use Rattle.link_negotiation.specs.working.Searching.{is_reached};

use crate::link::Link;
use pw_graph::{NODES, PortId, is_same_port};
use pw_lists::Memory;
use std::alloc::Global;
use std::marker::Model;

/// How many links there may be.
pub const LINKS: usize = 256;

/// The links of a graph in the order in which they were made, and which nodes are asynchronous.
#[derive(Drop)]
pub struct Links {
    pub(crate) alloc: Global,
    pub(crate) made: Vec<Link>,
    pub(crate) marks: [bool; NODES],
}

impl Model for Links {
    ghost use Rattle.link_negotiation.specs.Links.{LinkState};
    ghost use Rattle.link_negotiation.specs.working.Searching.{IsBounded};

    ghost Value = { LinkState };

    ghost view = { λ s. record { made = s.made.items; marks = s.marks } };

    ghost invariant = { λ s. IsBounded (record { made = s.made.items; marks = s.marks }) };
}

/// Whether a link joins two ports.
pub fn joins(link: &Link, from: PortId, to: PortId) -> bool
    ensures { result ≡ joins from to link.now }
{
    is_same_port(link.from, from) && is_same_port(link.to, to)
}

/// Whether a link joins two ports among these.
pub fn are_linked(made: &[Link], from: PortId, to: PortId) -> bool
    ensures { result ≡ are_linked made.now from to }
{
    made.iter().any(|link| joins(link, from, to))
}

/// Whether a node has one of these links.
pub fn has_link(made: &[Link], node: u32) -> bool
    ensures { result ≡ has_link made.now node }
{
    made.iter()
        .any(|link| link.from.node == node || link.to.node == node)
}

/// Whether a node is among some.
pub fn is_in(nodes: &[bool], node: u32) -> bool
    ensures { result ≡ is_reached nodes.now node }
{
    match nodes.get(node as usize) {
        Some(here) => *here,
        None => false,
    }
}

impl Links {
    /// No link, and no mark. They keep the allocator, and `link` uses it.
    pub fn new(alloc: Global) -> Result<Links, Memory>
        ensures { IfOk result (λ links. links
            ≡ record { made = []; marks = replicate 64 false }) }
    {
        Ok(Links {
            alloc,
            made: Vec::new(alloc),
            marks: [false; NODES],
        })
    }

    /// Marks a node as asynchronous: from now on each link at it is asynchronous. Takes no memory.
    pub fn mark(&mut self, node: u32)
        requires node { node < nodes_limit }
        requires free { has_link self.old.made node ≡ false }
        ensures { self.new ≡ record self.old { marks = slice_set self.old.marks node true } }
    {
        self.marks[node as usize] = true;
    }

    /// Whether a link is synchronous: neither of its nodes is marked.
    pub(crate) fn is_synchronous(&self, link: &Link) -> bool
        ensures { result ≡ is_synchronous self.now link.now }
    {
        !is_in(&self.marks, link.from.node) && !is_in(&self.marks, link.to.node)
    }
}
