//! The pools that the nodes of a loop fill in an epoch.
ghost use Rattle.std.specs.Prelude.{◌≡◌, ◌≤◌, All, IfOk, length, map};
ghost use Rattle.pw_lists.specs.Limits.{links_limit, buffers_limit};
ghost use Rattle.io_areas.specs.FreeBlocks.{free_at_start};
ghost use Rattle.data_loop.specs.OwnPools.{own_pools, AreFirstPools};

use crate::places::{Places, is_among};
use io_areas::{Pool, free_at_start};
use pw_graph::{PoolShape, Shape};
use pw_lists::{Items, Memory};
use std::alloc::Global;

/// The pools that the nodes of a loop fill in an epoch, each with its free blocks; those of other
/// loops take no room but for a place.
#[derive(Drop)]
pub(crate) struct OwnPools {
    /// Of each pool of the epoch its place in the two lists; past their end where it is none of the
    /// loop's.
    pub places: Places,
    pub shapes: Items<PoolShape>,
    pub free: Vec<Pool>,
}

// A copy of a pool.
fn copy_of(alloc: Global, pool: &PoolShape) -> Result<PoolShape, Memory>
    ensures { IfOk result (λ copy. copy ≡ pool.now) }
{
    Ok(PoolShape {
        port: pool.port,
        channels: pool.channels,
        blocks: pool.blocks,
        words: pool.words,
        links: pool.links.copy(alloc)?,
    })
}

// Those of the pools that these nodes fill. A node alone fills one or two: each has its own room.
fn shapes_of(alloc: Global, nodes: &[u32], pools: &[PoolShape]) -> Result<Items<PoolShape>, Memory>
    ensures { IfOk result (λ shapes. shapes ≡ own_pools nodes.now pools.now) }
{
    let mut shapes = Items::new(alloc);
    for pool in pools {
        if is_among(nodes, pool.port.node) {
            if nodes.len() == 1 {
                shapes.reserve(1)?;
            }
            shapes.push(copy_of(alloc, pool)?)?;
        }
    }
    Ok(shapes)
}

// The free blocks of each pool.
fn free_of(alloc: Global, shape: &Shape, pools: &[PoolShape]) -> Result<Items<Pool>, Memory>
    requires { All (λ x. (1 ≤ x.blocks) × (x.blocks ≤ buffers_limit)) pools.now }
    ensures { IfOk result (λ free. free ≡ map (free_at_start shape.now) pools.now) }
{
    let mut free = Items::new(alloc);
    free.reserve(pools.len())?;
    for pool in pools {
        free.push(free_at_start(alloc, shape, pool)?)?;
    }
    Ok(free)
}

/// Those of the pools of a shape that these nodes fill, before the first cycle of an epoch.
pub(crate) fn pools_among(
    alloc: Global,
    shape: &Shape,
    nodes: &[u32],
    pools: &[PoolShape],
) -> Result<OwnPools, Memory>
    requires few { length pools.now ≤ links_limit }
    requires pools { All (λ x. (1 ≤ x.blocks) × (x.blocks ≤ buffers_limit)) pools.now }
    ensures { IfOk result (AreFirstPools shape.now nodes.now pools.now) }
{
    let shapes = shapes_of(alloc, nodes, pools)?;
    let count = shapes.len() as u16;
    let places = Places::of(alloc, nodes, pools, count)?;
    let free = free_of(alloc, shape, shapes.as_slice())?.into_vec();
    Ok(OwnPools {
        places,
        shapes,
        free,
    })
}
