//! The answer of a claim.

/// What a claim found.
#[derive(Clone, Copy, PartialEq, Eq, Drop)]
pub enum Claim {
    /// The node is awake in this cycle.
    Awake { cycle: u32 },
    /// The status word was another one than TRIGGERED of the node's next cycle.
    NotYet { found: u64 },
}
