//! Gains at frames.

use pw_lists::Items;

/// From a frame on, a gain.
#[derive(Clone, Copy, PartialEq, Eq, Drop)]
pub struct Point {
    /// The number of the frame, from 0.
    pub offset: u32,
    /// A factor in 1/256, from -32767 to 32767.
    pub g: i32,
}

/// Points, whose offsets do not fall.
#[derive(Drop)]
pub struct Points {
    pub items: Items<Point>,
}
