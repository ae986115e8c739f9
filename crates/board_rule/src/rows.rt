//! What the steps read of a shape, in rows by index.
ghost use Rattle.std.specs.Prelude.{◌≡◌, ℕ, ◌+◌, ◌^◌, ◌<◌, ◌≤◌, map, length, IfOk};
ghost use Rattle.std.specs.List.{position, position_or_len};
ghost use Rattle.board_rule.specs.Layout.{index_in, required_row, target_rows};
ghost use Rattle.pw_graph.specs.Layout.{area_count, areas_of, event_place, event_count, word_count};
ghost use Rattle.pw_graph.specs.Pools.{IsPooledShape, is_same_port, pools_of};
ghost use Rattle.board_rule.specs.buffers.EndViews.{pool_in};
ghost use Rattle.board_rule.specs.working.NodeIndexes.{AreIndexes};
ghost use Rattle.board_rule.specs.working.Rows.{IsLinkRow, HasLinkRows, IsPoolRow, HasPoolRows, HasRows, HasIndexes, base_of};

use crate::node_indexes::index_by;
use pw_graph::{PoolShape, PortId, Shape, ShapeLink, is_same_port};
use pw_lists::Memory;
use std::alloc::{AllocError, Global};

/// A link: the indexes of its writer and of its reader, the number of the pool that it reads, where
/// its first area is, and whether it has a second; where the words of its pool begin, and how
/// many each block has with its readers word.
#[derive(Clone, Copy, Drop)]
pub struct LinkRow {
    pub(crate) writer: usize,
    pub(crate) reader: usize,
    pub(crate) pool: usize,
    pub(crate) area: usize,
    pub(crate) delayed: bool,
    pub(crate) base: usize,
    pub(crate) stride: usize,
}

/// A pool: the node that fills it, by index and by number; how many blocks it has, how many words
/// each has, and how many links read it; where a view has its first block, and where its words
/// are.
#[derive(Clone, Copy, Drop)]
pub struct PoolRow {
    pub(crate) filler: usize,
    pub(crate) node: u32,
    pub(crate) blocks: u32,
    pub(crate) words: usize,
    pub(crate) readers: u64,
    pub(crate) first: usize,
    pub(crate) base: usize,
}

/// The driver's index; the index of each number below 64, or the number of nodes where the shape
/// has no such node; of each index the required count and the indexes of the targets; each link,
/// and each pool.
#[derive(Drop)]
pub struct Rows {
    pub(crate) driver: usize,
    /// How many io areas the links have.
    pub(crate) areas: usize,
    pub(crate) indexes: [usize; 64],
    pub(crate) required: Vec<u64>,
    pub(crate) targets: Vec<Vec<usize>>,
    pub(crate) links: Vec<LinkRow>,
    pub(crate) pools: Vec<PoolRow>,
}

// The indexes of nodes.
fn indexes_in(
    alloc: Global,
    shape: &Shape,
    indexes: &[usize; 64],
    nodes: &[u32],
) -> Result<Vec<usize>, AllocError>
    requires { AreIndexes shape.now indexes.now }
    ensures { IfOk result (λ v. v.items ≡ map (index_in shape.now) nodes.now) }
{
    let mut found = Vec::with_capacity(alloc, nodes.len())?;
    for n in nodes {
        found.push(index_by(shape, indexes, *n))?;
    }
    Ok(found)
}

// The required count of each node.
fn required_of(alloc: Global, shape: &Shape) -> Result<Vec<u64>, AllocError>
    ensures { IfOk result (λ v. v.items ≡ required_row shape.now) }
{
    let mut row = Vec::with_capacity(alloc, shape.nodes.len())?;
    for n in shape.nodes.as_slice() {
        row.push(u64::from(n.required))?;
    }
    Ok(row)
}

// The targets of each node, by indexes.
fn targets_of(
    alloc: Global,
    shape: &Shape,
    indexes: &[usize; 64],
) -> Result<Vec<Vec<usize>>, AllocError>
    requires { AreIndexes shape.now indexes.now }
    ensures { IfOk result (λ v. map (λ row. row.items) v.items ≡ target_rows shape.now) }
{
    let mut rows = Vec::with_capacity(alloc, shape.nodes.len())?;
    for n in shape.nodes.as_slice() {
        rows.push(indexes_in(alloc, shape, indexes, n.targets.as_slice())?)?;
    }
    Ok(rows)
}

// How many late sets and events the epoch of a shape has at most.
fn events_of(shape: &Shape) -> usize
    requires { IsPooledShape shape.now }
    ensures { result ≡ shape.now.cycles + event_count shape.now }
{
    shape.cycles as usize * (2 * shape.nodes.len() + 4)
}

// The io areas of links: one each, and two of a delayed link.
fn areas_of(links: &[ShapeLink]) -> usize
    ensures { result ≡ area_count links.now }
{
    let mut areas = 0;
    for link in links {
        areas += if link.delayed { 2 } else { 1 };
    }
    areas
}

// The pool that a port fills, if it fills one.
fn find_pool(pools: &[PoolShape], port: PortId) -> Option<usize>
    ensures { result ≡ position (λ x. is_same_port x.port port) pools.now }
{
    pools.iter().position(|p| is_same_port(p.port, port))
}

// The pool that a port fills, or the number of pools.
fn pool_of(pools: &[PoolShape], port: PortId) -> usize
    ensures { result ≡ position_or_len (λ x. is_same_port x.port port) pools.now }
{
    find_pool(pools, port).unwrap_or(pools.len())
}

// The row of a pool, by its number.
fn row_at(shape: &Shape, rows: &[PoolRow], pool: usize) -> PoolRow
    requires rows { HasPoolRows shape.now rows.now }
    requires small { (q : ℕ) → q < length (pools_of shape.now)
        → (pool_in shape.now q).words < 2 ^ 32 }
    requires inside { pool < length (pools_of shape.now) }
    ensures base { result.base ≡ base_of shape.now pool }
    ensures words { result.words ≡ (pool_in shape.now pool).words }
    ensures small { result.words < 2 ^ 32 }
{
    rows[pool]
}

// The row of a link whose area is at an index.
fn link_row(
    shape: &Shape,
    pools: &[PoolShape],
    rows: &[PoolRow],
    indexes: &[usize; 64],
    link: ShapeLink,
    area: usize,
) -> LinkRow
    requires indexes { AreIndexes shape.now indexes.now }
    requires pools { pools.now ≡ pools_of shape.now }
    requires rows { HasPoolRows shape.now rows.now }
    requires small { (q : ℕ) → q < length (pools_of shape.now)
        → (pool_in shape.now q).words < 2 ^ 32 }
    requires has { position_or_len (λ x. is_same_port x.port link.from) (pools_of shape.now)
        < length
        (pools_of shape.now) }
    ensures { IsLinkRow shape.now link area result }
{
    let pool = pool_of(pools, link.from);
    let row = row_at(shape, rows, pool);
    LinkRow {
        writer: index_by(shape, indexes, link.from.node),
        reader: index_by(shape, indexes, link.to.node),
        pool,
        area,
        delayed: link.delayed,
        base: row.base,
        stride: 1 + row.words,
    }
}

// How many io areas a link has.
fn areas_at(link: ShapeLink) -> usize
    ensures is { result ≡ areas_of link }
    ensures most { result ≤ 2 }
{
    if link.delayed { 2 } else { 1 }
}

// The rows of all links.
fn links_of(
    alloc: Global,
    shape: &Shape,
    pools: &[PoolShape],
    pool_rows: &[PoolRow],
    indexes: &[usize; 64],
) -> Result<Vec<LinkRow>, AllocError>
    requires indexes { AreIndexes shape.now indexes.now }
    requires pooled { IsPooledShape shape.now }
    requires pools { pools.now ≡ pools_of shape.now }
    requires rows { HasPoolRows shape.now pool_rows.now }
    requires placed { HasIndexes shape.now }
    ensures { IfOk result (λ rows. HasLinkRows shape.now rows.items) }
{
    let mut rows = Vec::with_capacity(alloc, shape.links.len())?;
    let mut area = 1 + 2 * shape.nodes.len();
    for link in shape.links.as_slice() {
        rows.push(link_row(shape, pools, pool_rows, indexes, *link, area))?;
        area += areas_at(*link);
    }
    Ok(rows)
}

// The row of a pool whose first block and whose words are at indexes.
fn pool_row(
    shape: &Shape,
    indexes: &[usize; 64],
    pool: &PoolShape,
    first: usize,
    base: usize,
) -> PoolRow
    requires { AreIndexes shape.now indexes.now }
    ensures { IsPoolRow shape.now pool.now first base result }
{
    PoolRow {
        filler: index_by(shape, indexes, pool.port.node),
        node: pool.port.node,
        blocks: pool.blocks,
        words: pool.words as usize,
        readers: pool.links.len() as u64,
        first,
        base,
    }
}

// The rows of all pools, whose words are stored from `base` on. All words of the shape are fewer
// than `words`.
fn pools_rows(
    alloc: Global,
    shape: &Shape,
    pools: &[PoolShape],
    indexes: &[usize; 64],
    base: usize,
    words: usize,
) -> Result<Vec<PoolRow>, AllocError>
    requires indexes { AreIndexes shape.now indexes.now }
    requires pools { pools.now ≡ pools_of shape.now }
    requires base { base ≡ event_place shape.now (event_count shape.now) }
    requires room { word_count shape.now ≤ words }
    ensures { IfOk result (λ rows. HasPoolRows shape.now rows.items) }
{
    let mut rows = Vec::with_capacity(alloc, pools.len())?;
    let mut first = 0;
    let mut base = base;
    for pool in pools {
        rows.push(pool_row(shape, indexes, pool, first, base))?;
        first += pool.blocks as usize;
        base += pool.blocks as usize * (1 + pool.words as usize);
    }
    Ok(rows)
}

/// The rows of a shape with this table and these pools whose board has `words` words. Cost: a look
/// at each node, target, link and pool, and at each pool for each link.
pub(crate) fn rows_of(
    alloc: Global,
    shape: &Shape,
    pools: &[PoolShape],
    indexes: &[usize; 64],
    words: usize,
) -> Result<Rows, Memory>
    requires indexes { AreIndexes shape.now indexes.now }
    requires pooled { IsPooledShape shape.now }
    requires pools { pools.now ≡ pools_of shape.now }
    requires placed { HasIndexes shape.now }
    requires room { word_count shape.now ≤ words }
    ensures { IfOk result (λ rows. HasRows shape.now rows) }
{
    let areas = areas_of(shape.links.as_slice());
    let base = 1 + 2 * shape.nodes.len() + areas + events_of(shape);
    let pool_rows = pools_rows(alloc, shape, pools, indexes, base, words)?;
    let links = links_of(alloc, shape, pools, pool_rows.as_slice(), indexes)?;
    Ok(Rows {
        driver: index_by(shape, indexes, shape.driver),
        areas,
        indexes: *indexes,
        required: required_of(alloc, shape)?,
        targets: targets_of(alloc, shape, indexes)?,
        links,
        pools: pool_rows,
    })
}
