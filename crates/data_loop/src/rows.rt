//! Rows for one quantum of a node.

/// Rows as long as the greatest quantum of a port of the loop's nodes: the sums and the
/// samples of the inputs, and the samples of the outputs.
#[derive(Drop)]
pub(crate) struct Rows {
    pub sum_a: Vec<i32>,
    pub sum_b: Vec<i32>,
    pub a: Vec<i16>,
    pub b: Vec<i16>,
    pub left: Vec<i16>,
    pub right: Vec<i16>,
}
