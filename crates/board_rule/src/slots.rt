//! Where a seat has an entry among those that are its own.
ghost use Rattle.std.specs.Prelude.{◌≡◌, ℕ, ◌+◌, ◌<◌, ◌≤◌, All, IfOk, length, slice_index};
ghost use Rattle.pw_graph.specs.Pools.{pools_of};
ghost use Rattle.board_rule.specs.OnBoard.{layout};
ghost use Rattle.board_rule.specs.Layout.{layout_of, HasSeats, nodes};
ghost use Rattle.board_rule.specs.start.Owners.{owners_of, slot_in, AreSlots};
ghost use Rattle.board_rule.specs.working.Rows.{HasPoolRows, HasIndexes};
ghost use Rattle.board_rule.specs.working.Slots.{AreOwners, HasSlots};
ghost use Rattle.board_rule.specs.buffers.Spans.{block_at};
ghost use Rattle.board_rule.specs.buffers.EndViews.{pool_at};

use crate::board::Board;
use crate::board_shape::BoardShape;
use crate::owners::OwnerRows;
use crate::rows::PoolRow;
use std::alloc::{AllocError, Global};

/// Of each node by index, and of each link by number, its place among the nodes, the writer's ends
/// and the reader's ends of the seat that has it; of each pool, that of its first block among the
/// blocks of the seat that fills it.
#[derive(Drop)]
pub struct Slots {
    pub(crate) nodes: Vec<usize>,
    pub(crate) writes: Vec<usize>,
    pub(crate) reads: Vec<usize>,
    pub(crate) pools: Vec<usize>,
}

/// The slots of all entries, whose owners are at most `most`. Cost: a look at each entry, and a
/// count for each owner.
pub(crate) fn slots_of(alloc: Global, owners: &[u32], most: u32) -> Result<Vec<usize>, AllocError>
    requires { All (λ o. o ≤ most) owners.now }
    ensures { IfOk result (λ slots. AreSlots owners.now slots.items) }
{
    let mut counts = Vec::from_elem(alloc, 0usize, most as usize + 1)?;
    let mut slots = Vec::with_capacity(alloc, owners.len())?;
    for owner in owners {
        let seat = *owner as usize;
        slots.push(counts[seat])?;
        counts[seat] += 1;
    }
    Ok(slots)
}

// The slots of the first blocks of all pools, of the slots of all blocks.
fn first_slots(
    alloc: Global,
    board_shape: &BoardShape,
    blocks: &[usize],
    pools: &[PoolRow],
) -> Result<Vec<usize>, AllocError>
    requires blocks { AreSlots (owners_of (layout_of board_shape.now)).blocks blocks.now }
    requires rows { HasPoolRows board_shape.now.shape pools.now }
    requires placed { HasIndexes board_shape.now.shape }
    ensures count { IfOk result (λ slots. length slots.items
        ≡ length (pools_of board_shape.now.shape)) }
    ensures each { IfOk result (λ slots. (q : ℕ) → q < length (pools_of board_shape.now.shape)
        → slice_index slots.items q ≡ slot_in (owners_of (layout_of board_shape.now)).blocks
        (block_at (layout_of board_shape.now) q 0)) }
{
    let mut slots = Vec::with_capacity(alloc, pools.len())?;
    for pool in pools {
        slots.push(blocks[pool.first])?;
    }
    Ok(slots)
}

/// The slots of a board. Cost: a look at each node, link and block, and a count for each seat.
pub(crate) fn slots_in(
    alloc: Global,
    board_shape: &BoardShape,
    owners: &OwnerRows,
    pools: &[PoolRow],
) -> Result<Slots, AllocError>
    requires owners { AreOwners (layout_of board_shape.now) owners.now }
    requires seats { HasSeats board_shape.now }
    requires rows { HasPoolRows board_shape.now.shape pools.now }
    requires placed { HasIndexes board_shape.now.shape }
    ensures { IfOk result (λ slots. HasSlots (layout_of board_shape.now) slots) }
{
    let most = board_shape.seats;
    let blocks = slots_of(alloc, owners.blocks.as_slice(), most)?;
    Ok(Slots {
        nodes: slots_of(alloc, owners.nodes.as_slice(), most)?,
        writes: slots_of(alloc, owners.writes.as_slice(), most)?,
        reads: slots_of(alloc, owners.reads.as_slice(), most)?,
        pools: first_slots(alloc, board_shape, blocks.as_slice(), pools)?,
    })
}

impl Board {
    /// Where the seat of a node has it, by index.
    #[inline]
    pub(crate) fn node_slot(&self, at: usize) -> usize
        requires { at < nodes (layout self.now) }
        ensures { result ≡ slot_in (owners_of (layout self.now)).nodes at }
    {
        self.slot_rows.nodes[at]
    }

    /// Where the seat of a link's writer has its end, and where that of its reader has its own.
    #[inline]
    pub(crate) fn write_slot(&self, link: u32) -> usize
        requires { link < length self.now.board_shape.shape.links }
        ensures { result ≡ slot_in (owners_of (layout self.now)).writes link }
    {
        self.slot_rows.writes[link as usize]
    }

    #[inline]
    pub(crate) fn read_slot(&self, link: u32) -> usize
        requires { link < length self.now.board_shape.shape.links }
        ensures { result ≡ slot_in (owners_of (layout self.now)).reads link }
    {
        self.slot_rows.reads[link as usize]
    }

    /// Where the seat that fills a pool has a block.
    #[inline]
    pub(crate) fn block_slot(&self, pool: usize, id: u32) -> usize
        requires inside { pool < length (pools_of self.now.board_shape.shape) }
        requires block { id < (pool_at (layout self.now) pool).blocks }
        ensures { let p = layout self.now in
            result ≡ slot_in (owners_of p).blocks (block_at p pool 0) + id }
    {
        self.slot_rows.pools[pool] + id as usize
    }
}
