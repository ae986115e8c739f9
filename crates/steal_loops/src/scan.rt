//! The driver thread's scan over the cells, and how it waits.
ghost use Rattle.std.specs.Prelude.{◌≡◌};
ghost use Rattle.steal_loops.specs.working.Cells.{AreCells};
ghost use Rattle.steal_loops.specs.working.Claimants.{IsScan};

use crate::claimant::Claimant;
use crate::rounds::visit_next;
use crate::shared::Shared;
use crossbeam_utils::Backoff;
use driver_cycle::rest_unless;
use pw_outside::Gate;
use std::sync::Wait;

/// What the driver's thread goes through the cells with: what it takes them with, how many workers
/// were not started, and for how many rounds in a row it did nothing.
#[derive(Drop)]
pub(crate) struct Scan {
    pub claimant: Claimant,
    pub absent: usize,
    pub idle: usize,
    pub backoff: Backoff,
}

impl Scan {
    // Something was done.
    fn begin_anew(&mut self)
        ensures { self.new.claimant ≡ self.old.claimant }
    {
        self.idle = 0;
        self.backoff.reset();
    }

    // Whether it went through all cells since something was done.
    fn has_seen_all(&self) -> bool {
        self.idle > self.claimant.ended.len().saturating_add(LOOKS)
    }
}

// The rounds after which a `Backoff` is completed, and some more.
const LOOKS: usize = 16;

// A visit of one cell more. Where that does nothing the thread lets others run; once it has seen
// all cells it rests until it is unparked, if a worker was started.
fn look_on<R: Wait, G: Gate>(rt: &R, gate: &G, shared: &Shared, scan: &mut Scan)
    requires cells { AreCells shared.now }
    requires scan { IsScan shared.now scan.old }
    ensures scan { IsScan shared.now scan.new }
{
    if visit_next(rt, gate, shared, &mut scan.claimant) {
        scan.begin_anew();
        return;
    }
    if !scan.has_seen_all() {
        scan.backoff.snooze();
        return;
    }
    rest_unless(rt, false, scan.absent, &shared.ways, &mut scan.claimant.way);
    scan.begin_anew();
}

/// The end of a round, in which something was done or not. Where nothing was, the thread lets
/// others run; after some such rounds in a row it also goes through all cells, one a round, and
/// then rests. It may wait. Takes no memory.
pub(crate) fn end_round<R: Wait, G: Gate>(
    rt: &R,
    gate: &G,
    shared: &Shared,
    scan: &mut Scan,
    done: bool,
)
    requires cells { AreCells shared.now }
    requires scan { IsScan shared.now scan.old }
    ensures scan { IsScan shared.now scan.new }
{
    if done {
        scan.begin_anew();
        return;
    }
    scan.idle = scan.idle.saturating_add(1);
    if !scan.backoff.is_completed() {
        scan.backoff.snooze();
        return;
    }
    look_on(rt, gate, shared, scan);
}
