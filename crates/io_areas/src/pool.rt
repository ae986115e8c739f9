//! The free numbers of one pool, first in, first out.
ghost use Rattle.std.specs.Prelude.{◌≡◌, ◌<◌, ◌≤◌, [], ◌∷◌, ◌++◌, length, Contains, IfOk};
ghost use Rattle.pw_lists.specs.Limits.{buffers_limit};
ghost use Rattle.io_areas.specs.Queue.{numbers_below};

use circular_buffer::HeapCircularBuffer;
use pw_lists::Memory;
use std::alloc::Global;
use std::marker::Model;

/// The numbers of the blocks of a pool that are free, in the order in which they became free.
/// Contracts see this list and how many blocks the pool has.
///
/// Public source: PipeWire's documentation, "SPA Buffers".
#[derive(Drop)]
pub struct Pool {
    free: HeapCircularBuffer<u32>,
}

impl Model for Pool {
    ghost use Rattle.io_areas.specs.Queue.{Queue};

    ghost Value = { Queue };

    ghost view = { λ p. record { free = p.free.items; blocks = p.free.capacity } };
}

impl Pool {
    /// A pool of 1 to 8 blocks, all of them free, ascending. All memory that it ever needs is taken
    /// here.
    pub fn new(alloc: Global, blocks: u32) -> Result<Pool, Memory>
        requires { (1 ≤ blocks) × (blocks ≤ buffers_limit) }
        ensures { IfOk result (λ pool. (pool.free ≡ numbers_below blocks)
            × (pool.blocks ≡ blocks)) }
    {
        let Ok(mut free) = HeapCircularBuffer::with_capacity(alloc, blocks as usize) else {
            return Err(Memory);
        };
        for id in 0..blocks {
            free.push_back(id);
        }
        Ok(Pool { free })
    }

    /// Puts a block's number at the back: it is used again after all that are free. Takes no
    /// memory.
    pub fn recycle(&mut self, id: u32)
        requires room { length self.old.free < self.old.blocks }
        requires taken { ¬ Contains self.old.free id }
        ensures free { self.new.free ≡ self.old.free ++ id ∷ [] }
        ensures blocks { self.new.blocks ≡ self.old.blocks }
    {
        self.free.push_back(id);
    }

    /// Takes the number that has been free longest. Takes no memory.
    pub fn next(&mut self) -> u32
        requires { 0 < length self.old.free }
        ensures free { self.old.free ≡ result ∷ self.new.free }
        ensures blocks { self.new.blocks ≡ self.old.blocks }
    {
        match self.free.pop_front() {
            Some(id) => id,
            None => 0,
        }
    }
}
