//! A node of a loop in an epoch.
use crate::inputs::Input;
use pw_lists::Items;

/// A node of a loop: the links that it reads and the pools that it fills, by number, ascending, and
/// how many samples a quantum has at each of its ports.
#[derive(Drop)]
pub(crate) struct Member {
    pub node: u32,
    /// Its place among the loop's nodes.
    pub at: u32,
    pub inputs: Items<Input>,
    pub pools: Items<u32>,
    /// The number of its first output: how many inputs its kind has.
    pub first_output: u32,
    /// Samples at its first and at its second input, 0 where the kind has none.
    pub first_width: usize,
    pub second_width: usize,
    /// Samples at its first and at its second output, 0 where no link reads it.
    pub left_width: usize,
    pub right_width: usize,
}
