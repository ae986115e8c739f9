//! What a board is made for.
use pw_graph::Shape;
use pw_lists::Items;

/// A shape, and the number of the loop's seat that has each node, by index in the shape. The
/// driver's entry is not looked at. Loops' seats have the numbers below `seats`.
#[derive(Drop)]
pub struct BoardShape {
    pub shape: Shape,
    pub seat_of: Items<u32>,
    pub seats: u32,
}
