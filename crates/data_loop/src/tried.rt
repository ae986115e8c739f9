//! The answer of one try.

/// What one try of a member did.
#[derive(Clone, Copy, PartialEq, Eq, Drop)]
pub enum Tried {
    /// Nothing: the node has ended all cycles of the epoch.
    Ended,
    /// Nothing: the status word of the node was another one than TRIGGERED of its next cycle.
    NotYet { found: u64 },
    /// Its whole turn.
    Ran,
}
