//! Where the words of links and pools are, and what their rows say. Links and pools are given by
//! number, nodes by index.
ghost use Rattle.board_rule.specs.OnBoard.{layout};
ghost use Rattle.std.specs.Prelude.{◌≡◌, ◌<◌, length};
ghost use Rattle.pw_graph.specs.Layout.{io_place, readers_place, sample_place};
ghost use Rattle.pw_graph.specs.Pools.{pools_of};
ghost use Rattle.board_rule.specs.Layout.{nodes};
ghost use Rattle.board_rule.specs.buffers.Spans.{block_at};
ghost use Rattle.board_rule.specs.buffers.Areas.{area_of};
ghost use Rattle.board_rule.specs.buffers.EndViews.{link_at, pool_at, writer_of, reader_of, filler_of, pool_of};

use crate::board::Board;

impl Board {
    /// The number of the pool that a link reads. Takes no memory.
    #[inline]
    pub fn link_pool(&self, link: u32) -> u32
        requires { link < length self.now.board_shape.shape.links }
        ensures is { result ≡ pool_of (layout self.now) link }
        ensures inside { result < length (pools_of self.now.board_shape.shape) }
    {
        self.pool_of(link) as u32
    }

    /// How many sample words each block of a pool has. Takes no memory.
    #[inline]
    pub fn block_words(&self, pool: u32) -> u32
        requires { pool < length (pools_of self.now.board_shape.shape) }
        ensures is { result ≡ (pool_at (layout self.now) pool).words }
        ensures some { 0 < result }
    {
        self.words(pool as usize) as u32
    }

    /// How many blocks a pool has. Takes no memory.
    #[inline]
    pub fn block_count(&self, pool: u32) -> u32
        requires { pool < length (pools_of self.now.board_shape.shape) }
        ensures is { result ≡ (pool_at (layout self.now) pool).blocks }
        ensures some { 0 < result }
    {
        self.rows.pools[pool as usize].blocks
    }

    /// The node that fills a pool. Takes no memory.
    #[inline]
    pub fn pool_node(&self, pool: u32) -> u32
        requires { pool < length (pools_of self.now.board_shape.shape) }
        ensures { result ≡ (pool_at (layout self.now) pool).port.node }
    {
        self.rows.pools[pool as usize].node
    }
}

impl Board {
    /// Where the first sample word of a block of a pool is: the others follow. Takes no memory.
    #[inline]
    pub fn first_sample(&self, pool: u32, id: u32) -> usize
        requires inside { pool < length (pools_of self.now.board_shape.shape) }
        requires block { id < (pool_at (layout self.now) pool).blocks }
        ensures { result ≡ sample_place self.now.board_shape.shape pool id 0 }
    {
        self.readers_word(pool as usize, id) + 1
    }
}

impl Board {
    /// The indexes of a link's writer and of its reader.
    pub(crate) fn writer(&self, link: u32) -> usize
        requires { link < length self.now.board_shape.shape.links }
        ensures { result ≡ writer_of (layout self.now) link }
    {
        self.rows.links[link as usize].writer
    }

    pub(crate) fn reader(&self, link: u32) -> usize
        requires { link < length self.now.board_shape.shape.links }
        ensures { result ≡ reader_of (layout self.now) link }
    {
        self.rows.links[link as usize].reader
    }

    /// The number of the pool that a link reads.
    pub(crate) fn pool_of(&self, link: u32) -> usize
        requires { link < length self.now.board_shape.shape.links }
        ensures is { result ≡ pool_of (layout self.now) link }
        ensures there { result < length (pools_of self.now.board_shape.shape) }
    {
        self.rows.links[link as usize].pool
    }

    /// Where the area of a link is that has the block of a stamp.
    pub(crate) fn area_word(&self, link: u32, stamp: u64) -> usize
        requires { link < length self.now.board_shape.shape.links }
        ensures is { result ≡ io_place self.now.board_shape.shape link
            (area_of (link_at (layout self.now) link) stamp) }
        ensures there { result < self.now.table.shared.table_id.words }
    {
        let row = self.rows.links[link as usize];
        if row.delayed {
            row.area + (stamp % 2) as usize
        } else {
            row.area
        }
    }
}

impl Board {
    /// The index of the node that fills a pool.
    pub(crate) fn filler(&self, pool: usize) -> usize
        requires { pool < length (pools_of self.now.board_shape.shape) }
        ensures { result ≡ filler_of (layout self.now) pool }
    {
        self.rows.pools[pool].filler
    }

    /// How many words each block of a pool has, and how many links read it.
    pub(crate) fn words(&self, pool: usize) -> usize
        requires { pool < length (pools_of self.now.board_shape.shape) }
        ensures { result ≡ (pool_at (layout self.now) pool).words }
    {
        self.rows.pools[pool].words
    }

    pub(crate) fn readers(&self, pool: usize) -> u64
        requires { pool < length (pools_of self.now.board_shape.shape) }
        ensures { result ≡ length (pool_at (layout self.now) pool).links }
    {
        self.rows.pools[pool].readers
    }

    /// Where the readers word of a block is.
    pub(crate) fn readers_word(&self, pool: usize, id: u32) -> usize
        requires inside { pool < length (pools_of self.now.board_shape.shape) }
        requires block { id < (pool_at (layout self.now) pool).blocks }
        ensures is { result ≡ readers_place self.now.board_shape.shape pool id }
        ensures there { result < self.now.table.shared.table_id.words }
    {
        let row = self.rows.pools[pool];
        row.base + id as usize * (1 + row.words)
    }

    /// Where a sample word of a block is, whose first sample word is at a known index.
    pub(crate) fn sample_word_at(&self, pool: usize, id: u32, place: u32, first: usize) -> usize
        requires inside { pool < length (pools_of self.now.board_shape.shape) }
        requires block { id < (pool_at (layout self.now) pool).blocks }
        requires place { place < (pool_at (layout self.now) pool).words }
        requires first { first ≡ sample_place self.now.board_shape.shape pool id 0 }
        ensures is { result ≡ sample_place self.now.board_shape.shape pool id place }
        ensures there { result < self.now.table.shared.table_id.words }
    {
        first + place as usize
    }

    pub(crate) fn link_sample_word_at(&self, link: u32, id: u32, place: u32, first: usize) -> usize
        requires inside { link < length self.now.board_shape.shape.links }
        requires block { let p = layout self.now in id < (pool_at p (pool_of p link)).blocks }
        requires place { let p = layout self.now in place < (pool_at p (pool_of p link)).words }
        requires first { first ≡ sample_place self.now.board_shape.shape
            (pool_of (layout self.now) link) id 0 }
        ensures is { result ≡ sample_place self.now.board_shape.shape
            (pool_of (layout self.now) link) id place }
        ensures there { result < self.now.table.shared.table_id.words }
    {
        first + place as usize
    }

    /// Where the readers word of a block is, of the pool that a link reads.
    pub(crate) fn link_readers_word(&self, link: u32, id: u32) -> usize
        requires inside { link < length self.now.board_shape.shape.links }
        requires block { let p = layout self.now in id < (pool_at p (pool_of p link)).blocks }
        ensures is { result ≡ readers_place self.now.board_shape.shape
            (pool_of (layout self.now) link) id }
        ensures there { result < self.now.table.shared.table_id.words }
    {
        let row = self.rows.links[link as usize];
        row.base + id as usize * row.stride
    }
}
