//! The free blocks of a pool at the start of an epoch.
ghost use Rattle.std.specs.Prelude.{◌≡◌, ◌≤◌, ◌&&◌, IfOk};
ghost use Rattle.std.specs.List.{list_any};
ghost use Rattle.pw_lists.specs.Limits.{buffers_limit};
ghost use Rattle.pw_graph.specs.Pools.{is_same_port};
ghost use Rattle.board_rule.specs.View.{is_delayed};
ghost use Rattle.io_areas.specs.FreeBlocks.{free_at_start};

use crate::pool::Pool;
use pw_graph::{PoolShape, PortId, Shape, ShapeLink, is_same_port};
use pw_lists::Memory;
use std::alloc::Global;

// Whether one of the links goes from the port and is delayed.
fn has_delayed(links: &[ShapeLink], port: PortId) -> bool
    ensures { result ≡ list_any (λ l. is_same_port l.from port && l.delayed) links.now }
{
    links
        .iter()
        .any(|l| is_same_port(l.from, port) && l.delayed)
}

// Whether a link of the pool is delayed.
fn is_delayed(shape: &Shape, pool: &PoolShape) -> bool
    ensures { result ≡ is_delayed shape.now pool.now }
{
    has_delayed(shape.links.as_slice(), pool.port)
}

/// The free blocks of a pool of the shape before the first cycle of an epoch: all, ascending. Block
/// 0 of a pool with a delayed link is not among them: it is out, as if it had been announced in the
/// cycle before. All memory that the list ever needs is taken here.
pub fn free_at_start(alloc: Global, shape: &Shape, pool: &PoolShape) -> Result<Pool, Memory>
    requires { (1 ≤ pool.now.blocks) × (pool.now.blocks ≤ buffers_limit) }
    ensures { IfOk result (λ free. free ≡ free_at_start shape.now pool.now) }
{
    let mut free = Pool::new(alloc, pool.blocks)?;
    if is_delayed(shape, pool) {
        free.next();
    }
    Ok(free)
}
