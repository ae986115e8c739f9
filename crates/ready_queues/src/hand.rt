//! What one way knows of the queue of one loop.
use std::collections::LinkedList;

/// What a way has done with the queue of a loop. No value of it is made: only contracts see it, as
/// the view of the way's pass to the queue.
pub struct Hand {
    /// Whether the queue has been named for its loop.
    pub named: bool,
    /// The loop of each node.
    pub owner: LinkedList<u32>,
    /// The loop that the queue is of.
    pub number: u32,
    /// The numbers that the way pushed, in their order.
    pub pushed: LinkedList<u32>,
    /// The numbers that the way received, in their order.
    pub received: LinkedList<u32>,
}
