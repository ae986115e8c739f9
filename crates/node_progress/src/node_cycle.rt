//! One cycle of a node.

/// A cycle of a node in an epoch, and what its two inputs get in it; the row of an input that its
/// kind has not is empty.
#[derive(Clone, Copy, Drop)]
pub struct NodeCycle<'a> {
    pub epoch: u32,
    pub cycle: u32,
    pub node: u32,
    pub a: &'a [i16],
    pub b: &'a [i16],
}
