//! How far the followers of a loop are.

/// No follower has ended fewer cycles than `least`, and those before the index `from` have ended
/// more.
#[derive(Clone, Copy, Drop)]
pub(crate) struct Progress {
    pub least: u32,
    pub from: usize,
}
