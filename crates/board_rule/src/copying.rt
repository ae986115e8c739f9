//! A copy of a shape, in memory of its own.
ghost use Rattle.std.specs.Prelude.{◌≡◌, IfOk};

use pw_graph::{Shape, ShapeLink, ShapeNode};
use pw_lists::{Items, Memory};
use std::alloc::Global;

// An equal node.
fn copy_node(alloc: Global, node: &ShapeNode) -> Result<ShapeNode, Memory>
    ensures { IfOk result (λ copy. copy ≡ node.now) }
{
    Ok(ShapeNode {
        node: node.node,
        required: node.required,
        targets: node.targets.copy(alloc)?,
    })
}

// Equal nodes.
fn copy_nodes(alloc: Global, nodes: &[ShapeNode]) -> Result<Items<ShapeNode>, Memory>
    ensures { IfOk result (λ copy. copy ≡ nodes.now) }
{
    let mut copy = Items::new(alloc);
    for node in nodes {
        copy.push(copy_node(alloc, node)?)?;
    }
    Ok(copy)
}

/// An equal shape.
pub(crate) fn copy_shape(alloc: Global, shape: &Shape) -> Result<Shape, Memory>
    ensures { IfOk result (λ copy. copy ≡ shape.now) }
{
    Ok(Shape {
        quantum: shape.quantum,
        first: shape.first,
        cycles: shape.cycles,
        driver: shape.driver,
        nodes: copy_nodes(alloc, shape.nodes.as_slice())?,
        links: shape.links.copy(alloc)?,
    })
}
