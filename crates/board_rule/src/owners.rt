//! Whose each node, link and block is, as rows of seats' numbers.
ghost use Rattle.std.specs.Prelude.{◌≡◌, ◌++◌, IfOk, OnOk, map, replicate};
ghost use Rattle.std.specs.List.{flat_map};
ghost use Rattle.pw_graph.specs.Pools.{pools_of};
ghost use Rattle.board_rule.specs.Layout.{layout_of};
ghost use Rattle.board_rule.specs.start.Owners.{seat_with};
ghost use Rattle.board_rule.specs.working.NodeIndexes.{AreIndexes};
ghost use Rattle.board_rule.specs.working.Slots.{AreOwners};

use crate::board_shape::BoardShape;
use crate::node_indexes::index_by;
use pw_graph::{PoolShape, ShapeLink};
use pw_lists::{Items, Memory};
use std::alloc::Global;

/// The seat of each node by index, of each link's writer and reader by number, and of each block as
/// a view has them.
#[derive(Drop)]
pub struct OwnerRows {
    pub(crate) nodes: Items<u32>,
    pub(crate) writes: Items<u32>,
    pub(crate) reads: Items<u32>,
    pub(crate) blocks: Items<u32>,
}

// The number of the seat that has a node.
fn seat_with(board_shape: &BoardShape, indexes: &[usize; 64], node: u32) -> u32
    requires { AreIndexes board_shape.now.shape indexes.now }
    ensures { result ≡ seat_with (layout_of board_shape.now) node }
{
    let shape = &board_shape.shape;
    let at = index_by(shape, indexes, node);
    if at == index_by(shape, indexes, shape.driver) {
        board_shape.seats
    } else {
        board_shape.seat_of.as_slice().get(at).copied().unwrap_or(0)
    }
}

// The seats of all nodes.
fn of_nodes(
    alloc: Global,
    board_shape: &BoardShape,
    indexes: &[usize; 64],
) -> Result<Items<u32>, Memory>
    requires { AreIndexes board_shape.now.shape indexes.now }
    ensures { IfOk result (λ row. row
        ≡ map (λ n. seat_with (layout_of board_shape.now) n.node) board_shape.now.shape.nodes) }
{
    let mut row = Items::new(alloc);
    row.reserve(board_shape.shape.nodes.len())?;
    for n in board_shape.shape.nodes.as_slice() {
        row.push(seat_with(board_shape, indexes, n.node))?;
    }
    Ok(row)
}

// The seats of the writers of all links.
fn of_writers(
    alloc: Global,
    board_shape: &BoardShape,
    indexes: &[usize; 64],
) -> Result<Items<u32>, Memory>
    requires { AreIndexes board_shape.now.shape indexes.now }
    ensures { IfOk result (λ row. row
        ≡ map (λ l. seat_with (layout_of board_shape.now) l.from.node)
        board_shape.now.shape.links) }
{
    let mut row = Items::new(alloc);
    row.reserve(board_shape.shape.links.len())?;
    for link in board_shape.shape.links.as_slice() {
        row.push(seat_with(board_shape, indexes, link.from.node))?;
    }
    Ok(row)
}

// The seats of the readers of all links.
fn of_readers(
    alloc: Global,
    board_shape: &BoardShape,
    indexes: &[usize; 64],
) -> Result<Items<u32>, Memory>
    requires { AreIndexes board_shape.now.shape indexes.now }
    ensures { IfOk result (λ row. row
        ≡ map (λ l. seat_with (layout_of board_shape.now) l.to.node)
        board_shape.now.shape.links) }
{
    let mut row = Items::new(alloc);
    row.reserve(board_shape.shape.links.len())?;
    for link in board_shape.shape.links.as_slice() {
        row.push(seat_with(board_shape, indexes, link.to.node))?;
    }
    Ok(row)
}

// The seats of the blocks of all pools.
fn of_blocks(
    alloc: Global,
    board_shape: &BoardShape,
    indexes: &[usize; 64],
    pools: &[PoolShape],
) -> Result<Items<u32>, Memory>
    requires indexes { AreIndexes board_shape.now.shape indexes.now }
    requires pools { pools.now ≡ pools_of board_shape.now.shape }
    ensures { IfOk result (λ row. row
        ≡ flat_map (λ x. replicate x.blocks (seat_with (layout_of board_shape.now) x.port.node))
        (pools_of board_shape.now.shape)) }
{
    let mut row = Items::new(alloc);
    for pool in pools {
        row.extend_filled(
            pool.blocks as usize,
            seat_with(board_shape, indexes, pool.port.node),
        )?;
    }
    Ok(row)
}

/// The rows of a board, by the table and the pools of its shape. Cost: a look at each node, link,
/// pool and block.
pub(crate) fn owner_rows(
    alloc: Global,
    board_shape: &BoardShape,
    indexes: &[usize; 64],
    pools: &[PoolShape],
) -> Result<OwnerRows, Memory>
    requires indexes { AreIndexes board_shape.now.shape indexes.now }
    requires pools { pools.now ≡ pools_of board_shape.now.shape }
    ensures { IfOk result (λ rows. AreOwners (layout_of board_shape.now) rows) }
{
    Ok(OwnerRows {
        nodes: of_nodes(alloc, board_shape, indexes)?,
        writes: of_writers(alloc, board_shape, indexes)?,
        reads: of_readers(alloc, board_shape, indexes)?,
        blocks: of_blocks(alloc, board_shape, indexes, pools)?,
    })
}
