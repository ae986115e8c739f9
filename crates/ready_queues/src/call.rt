//! The word by which a thread sees that it was called, before it sleeps.
//!
//! A thread that sleeps is slow to come back. So one that has nothing to do looks at its word for
//! some microseconds first. The word is only a hint: what a thread rests on is its token, and
//! contracts see nothing of the word.
ghost use Rattle.std.specs.Prelude.{◌≡◌, ◌≤◌, ◌⊎◌, false};
ghost use Rattle.ready_queues.specs.Looking.{IsInVain, spins_limit};

use crossbeam_utils::CachePadded;
use std::hint;
use std::sync::atomic::{AtomicU64, Ordering};

// A thread spins so often at most, and looks so often before each spin: some 15 microseconds in
// all. A spin is one pause of the processor, which takes 12 to 140 of its cycles. So most of the
// time goes into looks: where a pause is long, the whole takes less than twice as long.
const SPINS: u32 = 256;

const LOOKS: u32 = 64;

// A thread that has looked in vain so often in a row does not spin, but for one look in so many.
// Nobody can call a thread that spins where all share one processor, or other work has the rest.
const VAIN: u64 = 8;

const ONE_IN: u64 = 256;

const QUIET: u64 = 0;

const CALLED: u64 = 1;

/// What a thread saw that looked whether it was called. Between its looks it spun, and did nothing
/// else.
#[derive(Drop)]
pub struct Look {
    /// Whether it was called.
    pub called: bool,
    /// How often it spun before it knew.
    pub spins: u32,
}

/// Whether a thread was called since it last found that there was nothing to do, and how often in a
/// row it has looked in vain. Nothing else is on the cache lines of the word, since its thread
/// reads it while others work, nor on those of the count, which is the thread's own.
#[derive(Drop)]
pub(crate) struct Call {
    word: CachePadded<AtomicU64>,
    vain: CachePadded<AtomicU64>,
}

// How often a thread may spin that has looked so often in vain.
fn spins_after(vain: u64) -> u32
    ensures { (result ≡ spins_limit) ⊎ (result ≡ 0) }
{
    if vain < VAIN || vain % ONE_IN == 0 {
        SPINS
    } else {
        0
    }
}

impl Call {
    pub(crate) fn new() -> Call {
        Call {
            word: CachePadded::new(AtomicU64::new(QUIET)),
            vain: CachePadded::new(AtomicU64::new(0)),
        }
    }

    /// Calls the thread. One atomic store.
    pub(crate) fn make(&self) {
        let word: &AtomicU64 = &self.word;
        word.store(CALLED, Ordering::SeqCst);
    }

    /// Forgets that the thread was called. One atomic store.
    pub(crate) fn forget(&self) {
        let word: &AtomicU64 = &self.word;
        word.store(QUIET, Ordering::SeqCst);
    }

    /// Forgets it where there was nothing to do.
    pub(crate) fn forget_if(&self, nothing: bool) {
        if nothing {
            self.forget();
        }
    }

    // Whether the thread was called. One atomic load.
    fn is_made(&self) -> bool {
        let word: &AtomicU64 = &self.word;
        word.load(Ordering::SeqCst) == CALLED
    }

    // Looks until the thread is called, `LOOKS` times at most. Whether it was.
    fn is_seen(&self) -> bool {
        for _look in 0..LOOKS {
            if self.is_made() {
                return true;
            }
        }
        false
    }

    // Looks until the thread is called, and spins so often at most.
    fn look_for(&self, most: u32) -> Look
        ensures most { result.spins ≤ most }
        ensures vain { result.called ≡ false → result.spins ≡ most }
    {
        for spins in 0..most {
            if self.is_seen() {
                return Look {
                    called: true,
                    spins,
                };
            }
            hint::spin_loop();
        }
        Look {
            called: self.is_made(),
            spins: most,
        }
    }

    // Notes what a look found, after so many in vain. A thread that was called before it spun has
    // not learnt whether spinning helps.
    fn note(&self, vain: u64, look: &Look) {
        let count: &AtomicU64 = &self.vain;
        if !look.called {
            count.store(vain.saturating_add(1), Ordering::SeqCst);
        } else if look.spins > 0 {
            count.store(0, Ordering::SeqCst);
        }
    }

    /// Looks until the thread is called, and spins `SPINS` times at most; not at all where its last
    /// looks were in vain, but for one look in `ONE_IN`. It never yields: on a machine with other
    /// work the thread would give a whole time slice away.
    pub(crate) fn look(&self) -> Look
        ensures most { result.spins ≤ spins_limit }
        ensures vain { result.called ≡ false → IsInVain result.spins }
    {
        let count: &AtomicU64 = &self.vain;
        let vain = count.load(Ordering::SeqCst);
        let look = self.look_for(spins_after(vain));
        self.note(vain, &look);
        look
    }
}
