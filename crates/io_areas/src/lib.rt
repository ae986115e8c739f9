//! The free blocks of a pool, the calls of a cycle on io areas and blocks, over the steps of a
//! board, and the turns of a node that they make up.
//!
//! A `Pool` has the numbers of its free blocks: what was free longest is used next.
//!
//! A node that works, its Start stored, writes so: `load_for_write` for each link of a pool, then
//! `reclaim`, whose block is free again, then `fill` of a free block, `announce`, and `publish` for
//! each link: `write_output` does all of it. It reads so:
//! `take`, `read` as often as it likes, and `give_back`: `read_input` does each once. When all
//! links from it are published and all links into it are given back it may finish. None of these
//! calls takes memory, waits or fails.
#![tactic(auto)]

mod free_blocks;
mod input_turn;
mod output_turn;
mod pool;
mod reading;
mod sample_words;
mod writing;

pub use free_blocks::free_at_start;
pub use input_turn::read_input;
pub use output_turn::{OutputWritten, write_output};
pub use pool::Pool;
pub use reading::{give_back, read, take};
pub use writing::{announce, fill, load_for_write, publish, reclaim};
