//! One epoch as the threads see it: who waits for whom, and which links carry samples.

use crate::ids::PortId;
use pw_lists::Items;

/// An active node: how many nodes it waits for, and which wait for it.
#[derive(Debug, Drop)]
pub struct ShapeNode {
    pub node: u32,
    pub required: u32,
    /// Ascending followers, then the driver.
    pub targets: Items<u32>,
}

/// A live link. `delayed` says that it is late: it carries what was made one cycle earlier.
#[derive(Clone, Copy, Debug, Drop)]
pub struct ShapeLink {
    pub from: PortId,
    pub to: PortId,
    pub channels: u32,
    pub buffers: u32,
    pub delayed: bool,
}

/// An epoch of `cycles` cycles, the first of which has the number `first`, with `quantum` frames
/// each.
#[derive(Debug)]
pub struct Shape {
    pub quantum: u32,
    pub first: u32,
    pub cycles: u32,
    pub driver: u32,
    /// The active nodes, ascending, with the driver among them.
    pub nodes: Items<ShapeNode>,
    /// Numbered by place.
    pub links: Items<ShapeLink>,
}

impl Drop for Shape {
    fn drop(self) {
        let Shape {
            quantum: _,
            first: _,
            cycles: _,
            driver: _,
            nodes: _,
            links: _,
        } = self;
    }
}
