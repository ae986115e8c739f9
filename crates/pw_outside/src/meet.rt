//! A gate that shows that two nodes run beside each other. A tool of tests: no clause speaks of its
//! flags.

use crate::gate::Gate;
use std::sync::atomic::{AtomicU64, Ordering};

// How often a node looks for the other.
const LOOKS: u32 = 100_000_000;

/// Lets two nodes look for each other in each cycle. A single thread cannot make them meet.
#[derive(Drop)]
pub struct Meet {
    a: u32,
    b: u32,
    // For each of the two, the cycle that it entered last, plus 1.
    entered_a: AtomicU64,
    entered_b: AtomicU64,
    // The cycle in which it found the other last, plus 1.
    found_a: AtomicU64,
    found_b: AtomicU64,
    met: AtomicU64,
}

impl Meet {
    /// A gate for the nodes `a` and `b`. Takes no memory.
    pub fn new(a: u32, b: u32) -> Meet {
        Meet {
            a,
            b,
            entered_a: AtomicU64::new(0),
            entered_b: AtomicU64::new(0),
            found_a: AtomicU64::new(0),
            found_b: AtomicU64::new(0),
            met: AtomicU64::new(0),
        }
    }

    /// Whether there was a cycle in which each of the two found the other. Takes no memory.
    pub fn met(&self) -> bool {
        self.met.load(Ordering::SeqCst) == 1
    }

    // One of the two enters. Only its first entry into a cycle counts: it says so, looks for the
    // other, and says where it found it.
    fn look(
        &self,
        mark: u64,
        own: &AtomicU64,
        other: &AtomicU64,
        found: &AtomicU64,
        found_by_other: &AtomicU64,
    ) {
        if own.load(Ordering::SeqCst) >= mark {
            return;
        }
        own.store(mark, Ordering::SeqCst);
        if !waits_for(other, mark) {
            return;
        }
        found.store(mark, Ordering::SeqCst);
        if found_by_other.load(Ordering::SeqCst) == mark {
            self.met.store(1, Ordering::SeqCst);
        }
    }
}

// Looks until the other has entered the cycle, which it may have left since, or often enough.
fn waits_for(other: &AtomicU64, mark: u64) -> bool {
    for _look in 0..LOOKS {
        if other.load(Ordering::SeqCst) >= mark {
            return true;
        }
    }
    false
}

impl Gate for Meet {
    fn enter(&self, node: u32, cycle: u32) {
        let mark = u64::from(cycle) + 1;
        if node == self.a {
            self.look(
                mark,
                &self.entered_a,
                &self.entered_b,
                &self.found_a,
                &self.found_b,
            );
        } else if node == self.b {
            self.look(
                mark,
                &self.entered_b,
                &self.entered_a,
                &self.found_b,
                &self.found_a,
            );
        }
    }
}
