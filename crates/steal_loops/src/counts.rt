//! What the threads of a run count, for tests. Signs and queues change only the time of a run, so
//! no clause says how often they serve.

/// How a thread found the cell of a step.
#[derive(Clone, Copy, Drop)]
pub(crate) enum Hint {
    /// Its own last step woke the node, and it kept the node.
    Kept,
    /// The node was the oldest number in its queue.
    Given,
    /// The node had a sign.
    Signed,
    /// It went through all cells.
    Scanned,
}

/// How many steps were found by each kind of hint; 2^64 - 1 where they are more.
#[derive(Clone, Copy, PartialEq, Eq, Drop)]
pub struct HintCounts {
    /// The thread kept the node, which its last step woke.
    pub kept: u64,
    /// The node was the oldest number in the worker's queue.
    pub given: u64,
    /// The node had a sign.
    pub signed: u64,
    /// The thread went through all cells.
    pub scanned: u64,
}

/// What all threads of a run counted together.
#[derive(Clone, Copy, Drop)]
pub struct RunCounts {
    /// How many numbers the workers took out of their queues; 2^64 - 1 where they are more.
    pub taken: u64,
    /// How the steps of cells were found.
    pub hints: HintCounts,
}

impl HintCounts {
    /// No step.
    pub(crate) fn new() -> HintCounts {
        HintCounts {
            kept: 0,
            given: 0,
            signed: 0,
            scanned: 0,
        }
    }

    /// One step more that was found so.
    pub(crate) fn note(&mut self, hint: Hint) {
        match hint {
            Hint::Kept => self.kept = self.kept.saturating_add(1),
            Hint::Given => self.given = self.given.saturating_add(1),
            Hint::Signed => self.signed = self.signed.saturating_add(1),
            Hint::Scanned => self.scanned = self.scanned.saturating_add(1),
        }
    }

    /// The steps of another thread too.
    pub(crate) fn add(&mut self, other: HintCounts) {
        self.kept = self.kept.saturating_add(other.kept);
        self.given = self.given.saturating_add(other.given);
        self.signed = self.signed.saturating_add(other.signed);
        self.scanned = self.scanned.saturating_add(other.scanned);
    }
}
