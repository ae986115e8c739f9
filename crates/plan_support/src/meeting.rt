//! A gate that shows that many nodes are awake at once. A tool of tests: no clause speaks of its
//! flags.

use crate::work::WorkRow;
use pw_outside::Gate;
use std::sync::atomic::{AtomicU64, Ordering};

// How often a node looks for the others.
const LOOKS: u32 = 100_000_000;

/// Holds each of some nodes until all of them are in, or it has looked often enough. A single
/// thread cannot make two of them meet.
#[derive(Drop)]
pub struct MeetAll {
    // Each node is a bit.
    all: u64,
    entered: AtomicU64,
    met: AtomicU64,
}

impl MeetAll {
    /// A gate for the nodes of these bits. Takes no memory.
    pub fn new(all: u64) -> MeetAll {
        MeetAll {
            all,
            entered: AtomicU64::new(0),
            met: AtomicU64::new(0),
        }
    }

    // Whether all nodes are in, as soon as they are.
    fn are_in(&self) -> bool {
        for _look in 0..LOOKS {
            if self.entered.load(Ordering::SeqCst) == self.all {
                return true;
            }
        }
        false
    }

    /// Whether each of them found all others. Takes no memory.
    pub fn met(&self) -> bool {
        self.met.load(Ordering::SeqCst) == self.all
    }
}

impl Gate for MeetAll {
    fn enter(&self, node: u32, _cycle: u32) {
        let bit = 1u64.rotate_left(node);
        if self.all & bit == 0 {
            return;
        }
        self.entered.fetch_or(bit, Ordering::SeqCst);
        if self.are_in() {
            self.met.fetch_or(bit, Ordering::SeqCst);
        }
    }
}

/// Seventeen squares into a sink that drives, for one cycle, since each look for the others may be
/// in vain. By 16 loops the first sixteen are each of another loop.
pub const SEVENTEEN_SQUARES: WorkRow<'static> = WorkRow {
    text: "quantum 2\n\
        square s0 48000 1 4 100\nsquare s1 48000 1 4 100\nsquare s2 48000 1 4 100\n\
        square s3 48000 1 4 100\nsquare s4 48000 1 4 100\nsquare s5 48000 1 4 100\n\
        square s6 48000 1 4 100\nsquare s7 48000 1 4 100\nsquare s8 48000 1 4 100\n\
        square s9 48000 1 4 100\nsquare s10 48000 1 4 100\nsquare s11 48000 1 4 100\n\
        square s12 48000 1 4 100\nsquare s13 48000 1 4 100\nsquare s14 48000 1 4 100\n\
        square s15 48000 1 4 100\nsquare s16 48000 1 4 100\n\
        sink o o.wav\ndriver o 1\n\
        link s0.out o.in\nlink s1.out o.in\nlink s2.out o.in\nlink s3.out o.in\n\
        link s4.out o.in\nlink s5.out o.in\nlink s6.out o.in\nlink s7.out o.in\n\
        link s8.out o.in\nlink s9.out o.in\nlink s10.out o.in\nlink s11.out o.in\n\
        link s12.out o.in\nlink s13.out o.in\nlink s14.out o.in\nlink s15.out o.in\n\
        link s16.out o.in\n\
        cycles 1\n",
    channels: 0,
    samples: &[],
};
