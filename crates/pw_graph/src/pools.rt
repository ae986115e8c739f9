//! The pools of a shape: for each output port with a link, the blocks that hold what it gives.
ghost use Rattle.std.specs.Prelude.{◌≡◌, ℕ, ◌≤◌, max, filter, fold, map, IsTrue, ◌↔◌, All, AllPairs, IfOk, length};

use crate::ids::PortId;
use crate::shape::{Shape, ShapeLink};
use pw_lists::{Items, Memory};
use std::alloc::Global;

/// A pool. A block of it holds one quantum of `channels` channels in `words` words of four samples.
#[derive(Drop)]
pub struct PoolShape {
    pub port: PortId,
    pub channels: u32,
    pub blocks: u32,
    pub words: u32,
    /// The numbers of the links from the port, ascending.
    pub links: Items<u32>,
}
