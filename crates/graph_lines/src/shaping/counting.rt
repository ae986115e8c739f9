//! Required counts and target lists: for each active node how many it waits for, and which wait for
//! it.
ghost use Rattle.std.specs.Prelude.{◌≡◌, ◌≤◌, ◌==◌, ◌&&◌, not, All, map, length, IfOk};
ghost use Rattle.pw_graph.specs.Dependencies.{nodes_of, waits, required_of, targets_of};
ghost use Rattle.pw_graph.specs.LinkOrder.{IsWithinNodes};
ghost use Rattle.pw_graph.specs.SoundShape.{IsCounted};
ghost use Rattle.graph_lines.specs.Searching.{numbers_in, HasRows};

use crate::shaping::linked::{is_in, is_linked, linked_rows};
use pw_graph::{NODES, Shape, ShapeNode};
use pw_lists::{Items, Memory};
use std::alloc::Global;

/// The nodes that are in, ascending, without counts and targets.
pub fn bare_nodes(alloc: Global, here: &[bool]) -> Result<Items<ShapeNode>, Memory>
    requires { length here.now ≡ 64 }
    ensures { IfOk result (λ nodes. map (λ n. n.node) nodes ≡ numbers_in here.now 64) }
{
    let mut nodes = Items::new(alloc);
    nodes.reserve(NODES)?;
    for node in 0..NODES as u32 {
        if is_in(here, node) {
            nodes.push(ShapeNode {
                node,
                required: 0,
                targets: Items::new(alloc),
            })?;
        }
    }
    Ok(nodes)
}

// Whether a node waits for `m`.
fn is_waiting(shape: &Shape, rows: &[bool], node: u32, m: u32) -> bool
    requires { HasRows shape.now.links rows.now }
    ensures { result ≡ waits shape.now node m }
{
    m == shape.driver || node == shape.driver || is_linked(rows, m, node)
}

// How many dependencies a node has.
fn required_of(shape: &Shape, rows: &[bool], node: u32) -> u32
    requires rows { HasRows shape.now.links rows.now }
    requires few { length shape.now.nodes ≤ 64 }
    ensures { result ≡ required_of shape.now node }
{
    let mut count = 0;
    for m in shape.nodes.as_slice() {
        if is_waiting(shape, rows, node, m.node) {
            count += 1;
        }
    }
    count
}

// Whether a node is a follower that waits for `m`.
fn is_target(shape: &Shape, rows: &[bool], m: u32, node: u32) -> bool
    requires { HasRows shape.now.links rows.now }
    ensures { result ≡ (not (node == shape.now.driver) && waits shape.now node m) }
{
    node != shape.driver && is_waiting(shape, rows, node, m)
}

// The nodes that wait for a node: followers, ascending as the nodes do, then the driver.
fn targets_of(alloc: Global, shape: &Shape, rows: &[bool], node: u32) -> Result<Items<u32>, Memory>
    requires { HasRows shape.now.links rows.now }
    ensures { IfOk result (λ targets. targets ≡ targets_of shape.now node) }
{
    let mut targets = Items::new(alloc);
    for n in shape.nodes.as_slice() {
        if is_target(shape, rows, node, n.node) {
            targets.push(n.node)?;
        }
    }
    targets.push(shape.driver)?;
    Ok(targets)
}

// The same nodes with their counts and targets.
fn counted_nodes(alloc: Global, shape: &Shape) -> Result<Items<ShapeNode>, Memory>
    requires links { All IsWithinNodes shape.now.links }
    requires few { length shape.now.nodes ≤ 64 }
    ensures same { IfOk result (λ nodes. map (λ n. n.node) nodes ≡ nodes_of shape.now) }
    ensures counted { IfOk result (All (IsCounted shape.now)) }
{
    let rows = linked_rows(shape.links.as_slice());
    let mut nodes = Items::new(alloc);
    nodes.reserve(shape.nodes.len())?;
    for n in shape.nodes.as_slice() {
        let required = required_of(shape, &rows, n.node);
        let targets = targets_of(alloc, shape, &rows, n.node)?;
        nodes.push(ShapeNode {
            node: n.node,
            required,
            targets,
        })?;
    }
    Ok(nodes)
}

/// The same shape, each of whose nodes has its required count and its targets: several links
/// between two nodes make one dependency, and delayed links make no dependency. Cost: one look at
/// each link, and for each node two looks at each node.
pub fn counted(alloc: Global, shape: Shape) -> Result<Shape, Memory>
    requires links { All IsWithinNodes shape.links }
    requires few { length shape.nodes ≤ 64 }
    ensures same { IfOk result (λ s. s ≡ record shape { nodes = s.nodes }) }
    ensures numbers { IfOk result (λ s. nodes_of s ≡ nodes_of shape) }
    ensures counted { IfOk result (λ s. All (IsCounted s) s.nodes) }
{
    let nodes = counted_nodes(alloc, &shape)?;
    let mut counted = shape;
    counted.nodes = nodes;
    Ok(counted)
}
