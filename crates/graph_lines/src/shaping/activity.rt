//! The links that are live, and the nodes that are active by them.
ghost use Rattle.std.specs.Prelude.{◌≡◌, ◌⊎◌, ℕ, ◌<◌, ◌↔◌, true, false, All, filter, length, replicate, IfOk, slice_index_or, slice_set};
ghost use Rattle.pw_lists.specs.Limits.{dummy_node};
ghost use Rattle.graph_lines.specs.Activity.{standing, is_live, live_wires, AreJoined, HasWire, IsActive};
ghost use Rattle.graph_lines.specs.Searching.{is_in, IsWithin, IsClosed, TakesIn, Spreads, HasMore};

use crate::standing::Standing;
use crate::wire::Wire;
use pw_graph::{DUMMY, NODES};
use pw_lists::{Items, Memory};
use std::alloc::Global;

// Whether a node is on.
fn is_on(nodes: &[Standing], node: u32) -> bool
    ensures { result ≡ (standing nodes.now node).on }
{
    match nodes.get(node as usize) {
        Some(standing) => standing.on,
        None => false,
    }
}

// Whether both nodes of a link are on.
pub(crate) fn is_live(nodes: &[Standing], wire: &Wire) -> bool
    ensures { result ≡ is_live nodes.now wire.now }
{
    is_on(nodes, wire.from.node) && is_on(nodes, wire.to.node)
}

/// The links both of whose nodes are on, in their order.
pub fn live_wires(alloc: Global, nodes: &[Standing], wires: &[Wire]) -> Result<Items<Wire>, Memory>
    ensures { IfOk result (λ live. live ≡ live_wires nodes.now wires.now) }
{
    let mut live = Items::new(alloc);
    live.reserve(wires.len())?;
    for wire in wires {
        if is_live(nodes, wire) {
            live.push(*wire)?;
        }
    }
    Ok(live)
}

// Where one node of a link is in, the other is added. Says whether one was.
fn take_in(here: &mut [bool], wire: &Wire) -> bool
    requires long { length here.old ≡ 64 }
    requires within { IsWithin wire.now }
    ensures none { result ≡ false → here.new ≡ here.old }
    ensures closed { result ≡ false → IsClosed here.old wire.now }
    ensures one { result ≡ true → TakesIn wire.now here.old here.new }
{
    let from = wire.from.node as usize;
    let to = wire.to.node as usize;
    if here[from] == here[to] {
        return false;
    }
    if here[from] {
        here[to] = true;
    } else {
        here[from] = true;
    }
    true
}

// One look at each link. Says whether a node was added.
fn spread(live: &[Wire], here: &mut [bool]) -> bool
    requires long { length here.old ≡ 64 }
    requires within { All IsWithin live.now }
    ensures spreads { Spreads live.now here.old here.new }
    ensures more { HasMore live.now here.old here.new result }
{
    let mut more = false;
    for wire in live {
        if take_in(here, wire) {
            more = true;
        }
    }
    more
}

// Of the 64 numbers only one.
fn only(node: u32) -> [bool; NODES]
    requires { node < 64 }
    ensures { result ≡ slice_set (replicate 64 false) node true }
{
    let mut here = [false; NODES];
    here[node as usize] = true;
    here
}

// The nodes that are joined to one.
fn joined_nodes(live: &[Wire], node: u32) -> [bool; NODES]
    requires node { node < 64 }
    requires within { All IsWithin live.now }
    ensures { (n : ℕ) → (is_in result n ≡ true) ↔ AreJoined live.now n node }
{
    let mut here = only(node);
    let mut more = true;
    'passes: while more {
        more = spread(live, &mut here);
    }
    here
}

// The built-in driver and the nodes that have a link.
fn linked_nodes(live: &[Wire]) -> [bool; NODES]
    requires { All IsWithin live.now }
    ensures { (n : ℕ) → (is_in result n ≡ true)
        ↔ ((n ≡ dummy_node) ⊎ HasWire live.now n) }
{
    let mut here = only(DUMMY);
    for wire in live {
        here[wire.from.node as usize] = true;
        here[wire.to.node as usize] = true;
    }
    here
}

/// Of each of the 64 numbers whether that node is active under this driver: whether live links join
/// it to the driver; under `DUMMY`, whether it has a live link. Takes no memory; cost: at most 64
/// looks at each link.
pub fn active_nodes(live: &[Wire], driver: u32) -> [bool; NODES]
    requires driver { driver < 64 }
    requires within { All IsWithin live.now }
    ensures { (n : ℕ) → (is_in result n ≡ true) ↔ IsActive live.now driver n }
{
    if driver == DUMMY {
        linked_nodes(live)
    } else {
        joined_nodes(live, driver)
    }
}
