//! The order of a shape's nodes, as sets of their numbers.
ghost use Rattle.std.specs.Prelude.{◌≡◌, ℕ, ◌<◌, ◌≤◌, IsTrue, All, Contains, map, IfOk};
ghost use Rattle.std.specs.List.{list_any};
ghost use Rattle.pw_lists.specs.Limits.{dummy_node};
ghost use Rattle.pw_graph.specs.Dependencies.{joins, Precedes};
ghost use Rattle.pw_graph.specs.LinkOrder.{IsWithinNodes};
ghost use Rattle.pw_graph.specs.SoundShape.{IsSoundShape};
ghost use Rattle.pw_graph.specs.Dependencies.{nodes_of};
ghost use Rattle.trace_check.specs.working.Admitting.{IsSetOf, IsOrderOf};

use crate::node_sets::{with, without};
use pw_graph::{Shape, ShapeLink, ShapeNode};
use pw_lists::{Items, Memory};
use std::alloc::Global;

/// Which nodes a shape has, and for each of the 64 numbers which nodes precede it.
#[derive(Drop)]
pub(crate) struct Order {
    pub(crate) active: u64,
    pub(crate) before: Items<u64>,
}

// The set of the nodes.
fn active_nodes(nodes: &[ShapeNode]) -> u64
    requires { All (λ n. n.node ≤ dummy_node) nodes.now }
    ensures { IsSetOf result (λ n. Contains (map (λ n. n.node) nodes.now) n) }
{
    let mut set = 0;
    for n in nodes {
        set = with(set, n.node);
    }
    set
}

// The nodes from which a link that is not delayed leads to a node.
fn sources_of(links: &[ShapeLink], node: u32) -> u64
    requires { All IsWithinNodes links.now }
    ensures { IsSetOf result (λ m. IsTrue (list_any (joins m node) links.now)) }
{
    let mut set = 0;
    for link in links {
        if !link.delayed && link.to.node == node {
            set = with(set, link.from.node);
        }
    }
    set
}

// The nodes that precede one: of the driver all others, of a follower those that are linked to it.
fn before_node(shape: &Shape, active: u64, node: u32) -> u64
    requires sound { IsSoundShape shape.now }
    requires active { IsSetOf active (λ n. Contains (nodes_of shape.now) n) }
    requires small { node < 64 }
    ensures { IsSetOf result (λ m. Precedes shape.now m node) }
{
    if node == shape.driver {
        without(active, node)
    } else {
        sources_of(shape.links.as_slice(), node)
    }
}

/// The order of a shape's nodes. Cost: for each of the 64 numbers one look at each link.
pub(crate) fn order_of(alloc: Global, shape: &Shape) -> Result<Order, Memory>
    requires { IsSoundShape shape.now }
    ensures { IfOk result (IsOrderOf shape.now) }
{
    let active = active_nodes(shape.nodes.as_slice());
    let mut before = Items::new(alloc);
    for n in 0..64u32 {
        before.push(before_node(shape, active, n))?;
    }
    Ok(Order { active, before })
}
