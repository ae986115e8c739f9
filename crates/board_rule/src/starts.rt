//! What the nodes, the links and the blocks of a board are at the start, of which each seat takes
//! its own.
ghost use Rattle.std.specs.Prelude.{◌≡◌, ◌++◌, IfOk, OnOk, map, replicate};
ghost use Rattle.pw_graph.specs.Pools.{link_ids_from, pools_of};
ghost use Rattle.board_rule.specs.Layout.{layout_of};
ghost use Rattle.board_rule.specs.working.NodeIndexes.{AreIndexes};
ghost use Rattle.board_rule.specs.working.Progress.{progress_of};
ghost use Rattle.board_rule.specs.working.Slots.{IsStart};
ghost use Rattle.board_rule.specs.View.{blocks_at_first, first_blocks, idle, unread, first_write};

use crate::board_shape::BoardShape;
use crate::layout::delayed_readers;
use crate::owners::{OwnerRows, owner_rows};
use crate::progress::NodeProgress;
use crate::view::{BlockView, ReadView, WriteView};
use pw_graph::{NO_BLOCK, PoolShape, Shape, ShapeLink};
use pw_lists::{Items, Memory};
use std::alloc::{AllocError, Global};

/// All nodes, ends of links and blocks of a board at the start, and whose they are.
#[derive(Drop)]
pub struct Starts {
    pub(crate) owners: OwnerRows,
    pub(crate) nodes: Vec<NodeProgress>,
    pub(crate) writes: Vec<WriteView>,
    pub(crate) reads: Vec<ReadView>,
    pub(crate) blocks: Items<BlockView>,
}

// The blocks of a pool at the start, after those of the pools before it.
fn push_blocks(blocks: &mut Items<BlockView>, shape: &Shape, pool: &PoolShape) -> Result<(), Memory>
    requires { pool.now.links ≡ link_ids_from shape.now.links pool.now.port }
    ensures { OnOk result (blocks.new ≡ blocks.old ++ blocks_at_first shape.now pool.now) }
{
    if delayed_readers(shape, pool) == 0 {
        return blocks.extend_filled(pool.blocks as usize, BlockView::Free);
    }
    blocks.push(BlockView::Out {
        stamp: u64::from(shape.first),
    })?;
    blocks.extend_filled((pool.blocks as usize).saturating_sub(1), BlockView::Free)
}

// The blocks of all pools of a shape at the start.
fn first_blocks(
    alloc: Global,
    shape: &Shape,
    pools: &[PoolShape],
) -> Result<Items<BlockView>, Memory>
    requires { pools.now ≡ pools_of shape.now }
    ensures { IfOk result (λ blocks. blocks ≡ first_blocks shape.now) }
{
    let mut blocks = Items::new(alloc);
    for pool in pools {
        push_blocks(&mut blocks, shape, pool)?;
    }
    Ok(blocks)
}

// The reader's ends of links, of which nothing is read before the cycle.
fn unread(alloc: Global, links: usize, cycle: u64) -> Result<Vec<ReadView>, AllocError>
    ensures { IfOk result (λ reads. reads.items ≡ replicate links (unread cycle)) }
{
    let end = ReadView {
        loaded: cycle,
        lowered: cycle,
        stored: cycle,
        id: NO_BLOCK,
    };
    Vec::from_elem(alloc, end, links)
}

// The writer's end of a link at the start.
fn first_write(cycle: u64, link: ShapeLink) -> WriteView
    ensures { result ≡ first_write cycle link }
{
    WriteView {
        loaded: cycle,
        stored: cycle,
        id: if link.delayed { 0 } else { NO_BLOCK },
        last: NO_BLOCK,
    }
}

// The writer's ends of all links.
fn first_writes(
    alloc: Global,
    links: &[ShapeLink],
    cycle: u64,
) -> Result<Vec<WriteView>, AllocError>
    ensures { IfOk result (λ writes. writes.items ≡ map (first_write cycle) links.now) }
{
    let mut writes = Vec::with_capacity(alloc, links.len())?;
    for link in links {
        writes.push(first_write(cycle, *link))?;
    }
    Ok(writes)
}

// Followers that wait in the cycle.
fn idle(alloc: Global, nodes: usize, cycle: u64) -> Result<Vec<NodeProgress>, AllocError>
    ensures { IfOk result (λ kept. kept.items ≡ replicate nodes (progress_of (idle cycle))) }
{
    let node = NodeProgress {
        next: cycle,
        told: 0,
        ends: false,
        start: 0,
        finish: 0,
    };
    Vec::from_elem(alloc, node, nodes)
}

/// What all seats of a board begin with, by the table and the pools of its shape. Cost: a look at
/// each node, link, pool and block.
pub(crate) fn starts_of(
    alloc: Global,
    board_shape: &BoardShape,
    indexes: &[usize; 64],
    pools: &[PoolShape],
) -> Result<Starts, Memory>
    requires indexes { AreIndexes board_shape.now.shape indexes.now }
    requires pools { pools.now ≡ pools_of board_shape.now.shape }
    ensures { IfOk result (λ starts. IsStart (layout_of board_shape.now) starts) }
{
    let shape = &board_shape.shape;
    let first = u64::from(shape.first);
    Ok(Starts {
        owners: owner_rows(alloc, board_shape, indexes, pools)?,
        nodes: idle(alloc, shape.nodes.len(), first)?,
        writes: first_writes(alloc, shape.links.as_slice(), first)?,
        reads: unread(alloc, shape.links.len(), first)?,
        blocks: first_blocks(alloc, shape, pools)?,
    })
}
