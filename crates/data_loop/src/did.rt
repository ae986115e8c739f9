//! The answer of a turn.

/// What a turn of a loop did.
#[derive(Clone, Copy, Drop)]
pub enum Did {
    /// This node had its turn.
    Ran { node: u32 },
    /// Nothing: each of the loop's followers with cycles left was tried, and was not yet triggered.
    Idle,
}
