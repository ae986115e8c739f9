//! The words that a board begins with.
ghost use Rattle.std.specs.Prelude.{◌≡◌, ◌+◌, ◌-◌, ◌<◌, ◌≤◌, ◌∷◌, ◌++◌, [], cond, count_by, length, OnOk, IfOk};
ghost use Rattle.std.specs.Prelude.{replicate};
ghost use Rattle.std.specs.List.{flat_map};
ghost use Rattle.pw_graph.specs.Pools.{IsPooledShape, link_ids_from, links_from, pools_of};
ghost use Rattle.board_rule.specs.buffers.EndViews.{link_in};
ghost use Rattle.pw_graph.specs.Words.{not_triggered_word};
ghost use Rattle.pw_graph.specs.Layout.{start_words, io_start, pool_words, pool_start};

use crate::steps::statuses::not_triggered;
use pw_graph::{AreaStatus, NO_BLOCK, PoolShape, Shape, ShapeLink, io_word};
use pw_lists::{Items, Memory};
use std::alloc::Global;

// Two words after the others.
fn push_two(words: &mut Items<u64>, one: u64, two: u64) -> Result<(), Memory>
    ensures { OnOk result (words.new ≡ words.old ++ one ∷ two ∷ []) }
{
    words.push(one)?;
    words.push(two)
}

// The io areas of a link, after the words. An area asks for data and names no block, but that of a
// delayed link that is read in the first cycle has data and names block 0.
fn push_area(words: &mut Items<u64>, link: &ShapeLink, first: u32) -> Result<(), Memory>
    ensures { OnOk result (words.new ≡ words.old ++ io_start first link.now) }
{
    let need = io_word(AreaStatus::NeedData.number(), NO_BLOCK);
    let have = io_word(AreaStatus::HaveData.number(), 0);
    if !link.delayed {
        words.push(need)
    } else if first % 2 == 0 {
        push_two(words, have, need)
    } else {
        push_two(words, need, have)
    }
}

// The io areas of all links.
fn push_areas(words: &mut Items<u64>, links: &[ShapeLink], first: u32) -> Result<(), Memory>
    ensures { OnOk result (words.new ≡ words.old ++ flat_map (io_start first) links.now) }
{
    for link in links {
        push_area(words, link, first)?;
    }
    Ok(())
}

// 1 where a link of a shape is delayed.
fn late_of(shape: &Shape, link: u32) -> u64
    requires { link < length shape.now.links }
    ensures is { result ≡ cond (link_in shape.now link).delayed 1 0 }
    ensures most { result ≤ 1 }
{
    if shape.links.as_slice()[link as usize].delayed {
        1
    } else {
        0
    }
}

/// How many links of a pool are delayed. Cost: a look at each of them.
pub(crate) fn delayed_readers(shape: &Shape, pool: &PoolShape) -> u64
    requires { pool.now.links ≡ link_ids_from shape.now.links pool.now.port }
    ensures { result ≡ count_by (λ l. l.delayed) (links_from shape.now pool.now.port) }
{
    let mut late = 0;
    for id in pool.links.as_slice() {
        late += late_of(shape, *id);
    }
    late
}

// A readers word, and as many zeros as the pool has further words.
fn push_zeros(words: &mut Items<u64>, pool: &PoolShape, readers: u64) -> Result<(), Memory>
    ensures { OnOk result (words.new
        ≡ words.old ++ readers ∷ replicate (pool_words pool.now - 1) 0) }
{
    let count = pool.blocks as usize * (1 + pool.words as usize);
    words.push(readers)?;
    words.extend_filled(count.saturating_sub(1), 0)
}

// The words of a pool: all 0, but that the readers word of block 0 counts the pool's delayed links.
fn push_pool(words: &mut Items<u64>, shape: &Shape, pool: &PoolShape) -> Result<(), Memory>
    requires { pool.now.links ≡ link_ids_from shape.now.links pool.now.port }
    ensures { OnOk result (words.new ≡ words.old ++ pool_start shape.now pool.now) }
{
    push_zeros(words, pool, delayed_readers(shape, pool))
}

// The words of all pools.
fn push_pools(words: &mut Items<u64>, shape: &Shape, pools: &[PoolShape]) -> Result<(), Memory>
    requires pools { pools.now ≡ pools_of shape.now }
    ensures { OnOk result (words.new
        ≡ words.old ++ flat_map (pool_start shape.now) (pools_of shape.now)) }
{
    for pool in pools {
        push_pool(words, shape, pool)?;
    }
    Ok(())
}

// The words before the io areas: no ticket, pending 0, and NOT_TRIGGERED of the first cycle.
fn node_words(alloc: Global, nodes: usize, first: u32) -> Result<Items<u64>, Memory>
    ensures { IfOk result (λ words. words ≡ 0 ∷
        (replicate nodes 0 ++ replicate nodes (not_triggered_word first))) }
{
    let mut words = Items::filled(alloc, 1, 0)?;
    words.extend_filled(nodes, 0)?;
    words.extend_filled(nodes, not_triggered(first))?;
    Ok(words)
}

/// The words of a board at its start, by the pools of its shape.
pub(crate) fn start_words(
    alloc: Global,
    shape: &Shape,
    pools: &[PoolShape],
) -> Result<Items<u64>, Memory>
    requires pooled { IsPooledShape shape.now }
    requires pools { pools.now ≡ pools_of shape.now }
    ensures { IfOk result (λ words. words ≡ start_words shape.now) }
{
    let nodes = shape.nodes.len();
    let cycles = shape.cycles as usize;
    let mut words = node_words(alloc, nodes, shape.first)?;
    push_areas(&mut words, shape.links.as_slice(), shape.first)?;
    words.extend_filled(cycles + cycles * (2 * nodes + 3), 0)?;
    push_pools(&mut words, shape, pools)?;
    Ok(words)
}
