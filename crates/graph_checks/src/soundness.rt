//! Whether the numbers of a shape are in range and agree.
ghost use Rattle.std.specs.Prelude.{◌≡◌, ℕ, ◌<◌, ◌≤◌, IsTrue, ◌↔◌, All, AllPairs, map, length, slice_index};
ghost use Rattle.std.specs.List.Sorted.{IsStrictlyIncreasing};
ghost use Rattle.pw_graph.specs.SoundShape.{IsBetween, HasSoundCycles, HasSoundNodes, IsCounted, IsSoundLink, AreApart, HasSoundLinks};
ghost use Rattle.pw_graph.specs.SoundShape.{IsSoundShape};
ghost use Rattle.pw_graph.specs.Dependencies.{nodes_of};

use crate::dependencies::{has_node, is_counted};
use crate::link_order::has_order;
use pw_graph::{DUMMY, Shape, ShapeLink, ShapeNode};
use pw_lists::{BUFFERS_LIMIT, CHANNELS_LIMIT, EVENTS_LIMIT, LINKS_LIMIT, QUANTUM_LIMIT};

/// Whether a number is within both ends.
pub(crate) fn is_between(low: u32, high: u32, n: u32) -> bool
    ensures { IsTrue result ↔ IsBetween low high n }
{
    low <= n && n <= high
}

// Whether there is a number for each cycle and a ticket for each event.
fn has_sound_cycles(shape: &Shape) -> bool
    ensures { IsTrue result ↔ HasSoundCycles shape.now }
{
    let nodes = shape.nodes.len();
    is_between(1, QUANTUM_LIMIT, shape.quantum)
        && 1 <= shape.cycles
        && nodes as u64 <= EVENTS_LIMIT
        && u64::from(shape.cycles) * (2 * nodes as u64 + 3) <= EVENTS_LIMIT
        && u64::from(shape.first) + u64::from(shape.cycles) <= 0x1_0000_0000
}

// The number of the node at a place.
fn node_at(nodes: &[ShapeNode], place: usize) -> u32
    requires { place < length nodes.now }
    ensures { result ≡ slice_index (map (λ n. n.node) nodes.now) place }
{
    nodes[place].node
}

// Whether each node has a greater number than the one before.
fn ascends(nodes: &[ShapeNode]) -> bool
    ensures { IsTrue result ↔ IsStrictlyIncreasing (map (λ n. n.node) nodes.now) }
{
    for i in 1..nodes.len() {
        if node_at(nodes, i) <= node_at(nodes, i - 1) {
            return false;
        }
    }
    true
}

// Whether the nodes ascend, are numbers up to that of the dummy, and hold the driver.
fn has_sound_nodes(shape: &Shape) -> bool
    ensures { IsTrue result ↔ HasSoundNodes shape.now }
{
    let nodes = shape.nodes.as_slice();
    ascends(nodes) && nodes.iter().all(|n| n.node <= DUMMY) && has_node(shape, shape.driver)
}

// Whether a link joins two different active nodes, does not start at the driver, and has channels
// and buffers.
fn is_sound_link(shape: &Shape, link: &ShapeLink) -> bool
    ensures { IsTrue result ↔ IsSoundLink shape.now link.now }
{
    has_node(shape, link.from.node)
        && has_node(shape, link.to.node)
        && link.from.node != shape.driver
        && link.from.node != link.to.node
        && is_between(1, CHANNELS_LIMIT, link.channels)
        && is_between(1, BUFFERS_LIMIT, link.buffers)
}

// Whether two links do not have the same two ports.
fn are_apart(k: &ShapeLink, l: &ShapeLink) -> bool
    ensures { IsTrue result ↔ AreApart k.now l.now }
{
    k.from != l.from || k.to != l.to
}

// Whether a link has other ports than each of these.
fn is_new(earlier: &[ShapeLink], link: &ShapeLink) -> bool
    ensures { IsTrue result ↔ All (λ k. AreApart k link.now) earlier.now }
{
    earlier.iter().all(|k| are_apart(k, link))
}

// Whether no two links have the same two ports.
fn all_apart(links: &[ShapeLink]) -> bool
    ensures { IsTrue result ↔ AllPairs AreApart links.now }
{
    for i in 0..links.len() {
        if !is_new(&links[..i], &links[i]) {
            return false;
        }
    }
    true
}

// Whether each link is sound.
fn all_sound(shape: &Shape) -> bool
    ensures { IsTrue result ↔ All (IsSoundLink shape.now) shape.now.links }
{
    shape
        .links
        .as_slice()
        .iter()
        .all(|link| is_sound_link(shape, link))
}

#[tactic(auto, using(pw_graph::proofs::ShapeLemmas::links_within))]
// Whether there are not too many links, each sound, no two with the same two ports, and no loop.
fn has_sound_links(shape: &Shape) -> bool
    requires { HasSoundNodes shape.now }
    ensures { IsTrue result ↔ HasSoundLinks shape.now }
{
    if !all_sound(shape) {
        return false;
    }
    let links = shape.links.as_slice();
    links.len() <= LINKS_LIMIT && all_apart(links) && has_order(links)
}

// Whether each node has its required count and targets.
fn all_counted(shape: &Shape) -> bool
    ensures { IsTrue result ↔ All (IsCounted shape.now) shape.now.nodes }
{
    shape.nodes.as_slice().iter().all(|n| is_counted(shape, n))
}

/// Whether a shape is sound: its numbers are in range, its nodes ascend and hold the driver,
/// required counts and targets are those of its links that are not delayed, and these have no loop.
/// Takes no memory; cost: for each pair of nodes and each pair of links one look, and for each pair
/// of nodes one look at each link.
pub fn is_sound_shape(shape: &Shape) -> bool
    ensures { IsTrue result ↔ IsSoundShape shape.now }
{
    has_sound_cycles(shape)
        && has_sound_nodes(shape)
        && all_counted(shape)
        && has_sound_links(shape)
}
