//! What all threads have of the queues and parkers.
ghost use Rattle.std.specs.Prelude.{◌≡◌, ◌≤◌, length, All};
ghost use Rattle.crossbeam_queue.specs.Passes.{ruled_capacity};
ghost use Rattle.pw_lists.specs.Limits.{dummy_node};
ghost use Rattle.ready_queues.specs.Lanes.{loops_limit};

use crate::call::Call;
use crate::lane::Lane;
use crate::parking::Unparker;
use pw_lists::Items;

/// For each loop a queue of 64 numbers and the unparker of that loop, and the unparker of the
/// driver's thread with its call.
#[derive(Drop)]
pub struct Ways {
    pub(crate) owner: Items<u32>,
    pub(crate) loops: u32,
    pub(crate) lanes: Items<Lane>,
    pub(crate) driver: Unparker,
    pub(crate) call: Call,
    ghost count: { length lanes ≡ loops },
    ghost few: { loops ≤ loops_limit },
    ghost nodes: { length owner ≤ dummy_node },
    ghost owners: { All (λ l. l ≤ loops) owner },
    ghost rooms: { All (λ lane. ruled_capacity lane.queue ≡ 64) lanes },
}

impl Ways {
    /// How many loops there are. Takes no memory.
    pub fn loops(&self) -> u32
        ensures { result ≡ self.now.loops }
    {
        self.loops
    }
}
