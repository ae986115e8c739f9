//! What a worker does until all cells are at their end.
ghost use Rattle.std.specs.Prelude.{◌≡◌, ◌<◌, IsTrue};
ghost use Rattle.crossbeam_utils.specs.Token.{parker_view};
ghost use Rattle.steal_loops.specs.working.Cells.{AreCells, HaveFinished};
ghost use Rattle.steal_loops.specs.working.Claimants.{IsClaimant, IsWorker, IsNewWorker};
ghost use Rattle.ready_queues.specs.Starting.{IsStarted};

use crate::claimant::{Claimant, are_all};
use crate::counts::Hint;
use crate::ready::{visit_kept, visit_signed, visit_some};
use crate::rounds::visit_next;
use crate::shared::Shared;
use crossbeam_utils::Backoff;
use pw_outside::Gate;
use std::sync::Wait;

// Looks at the oldest number in the worker's queue. Whether there was one, and the node has no
// sign any more, or the visit of its cell did something.
fn visit_given<R: Wait, G: Gate>(rt: &R, gate: &G, shared: &Shared, claimant: &mut Claimant) -> bool
    requires cells { AreCells shared.now }
    requires claimant { IsClaimant shared.now claimant.old }
    requires own { claimant.old.way.number < shared.now.ways.loops }
    ensures claimant { IsClaimant shared.now claimant.new }
    ensures number { claimant.new.way.number ≡ claimant.old.way.number }
    ensures awake { parker_view claimant.new.way.own ≡ parker_view claimant.old.way.own }
    ensures begins { claimant.new.way.begins ≡ claimant.old.way.begins }
{
    let Some(node) = shared.ways.receive(rt, &mut claimant.way) else {
        return false;
    };
    if !shared.signs.take(node) {
        return true;
    }
    visit_signed(rt, gate, shared, claimant, node, Hint::Given)
}

// One round: of the node that the worker keeps, else of the oldest number in its queue, else of
// some node that has a sign. Whether something was done.
fn go_round<R: Wait, G: Gate>(rt: &R, gate: &G, shared: &Shared, claimant: &mut Claimant) -> bool
    requires cells { AreCells shared.now }
    requires claimant { IsClaimant shared.now claimant.old }
    requires own { claimant.old.way.number < shared.now.ways.loops }
    requires started { IsStarted claimant.old.way }
    ensures claimant { IsClaimant shared.now claimant.new }
    ensures number { claimant.new.way.number ≡ claimant.old.way.number }
    ensures awake { parker_view claimant.new.way.own ≡ parker_view claimant.old.way.own }
    ensures begins { claimant.new.way.begins ≡ claimant.old.way.begins }
{
    if visit_kept(rt, gate, shared, claimant) {
        return true;
    }
    if visit_given(rt, gate, shared, claimant) {
        return true;
    }
    visit_some(rt, gate, shared, claimant)
}

// One round, and where several before it found nothing a visit of one cell more. Whether all cells
// were found at their end; where nothing was done else, the thread lets others run.
fn is_over<R: Wait, G: Gate>(
    rt: &R,
    gate: &G,
    shared: &Shared,
    claimant: &mut Claimant,
    backoff: &Backoff,
) -> bool
    requires cells { AreCells shared.now }
    requires claimant { IsClaimant shared.now claimant.old }
    requires own { claimant.old.way.number < shared.now.ways.loops }
    requires started { IsStarted claimant.old.way }
    ensures claimant { IsClaimant shared.now claimant.new }
    ensures number { claimant.new.way.number ≡ claimant.old.way.number }
    ensures awake { parker_view claimant.new.way.own ≡ parker_view claimant.old.way.own }
    ensures begins { claimant.new.way.begins ≡ claimant.old.way.begins }
    ensures over { IsTrue result → HaveFinished shared.now claimant.new.seat }
{
    if go_round(rt, gate, shared, claimant) {
        backoff.reset();
        return false;
    }
    if backoff.is_completed() {
        if visit_next(rt, gate, shared, claimant) {
            return false;
        }
        if are_all(claimant.ended.as_slice()) {
            return true;
        }
    }
    backoff.snooze();
    false
}

/// The rounds of a worker, until it has found every cell at its end: it visits the cell of the
/// node that its last step woke and that it kept, else that of the oldest number in its queue,
/// else one whose node has a sign. It does not rest; where it found nothing it lets others run,
/// and after some such rounds in a row it also goes through all cells, one a round. It may wait.
/// Takes no memory.
///
/// On a machine with other work a worker that lets others run gives a whole time slice away. That
/// does little harm here, where the other threads run what it would have run.
/// Condition: the way is that of a worker, and was not started.
pub(crate) fn run_worker<R: Wait, G: Gate>(
    rt: &R,
    gate: &G,
    shared: &Shared,
    claimant: Claimant,
) -> Claimant
    requires cells { AreCells shared.now }
    requires worker { IsNewWorker shared.now claimant }
    ensures worker { IsWorker shared.now result }
    ensures over { HaveFinished shared.now result.seat }
    ensures awake { parker_view result.way.own ≡ parker_view claimant.way.own }
    ensures started { IsStarted result.way }
{
    let mut claimant = claimant;
    let backoff = Backoff::new();
    shared.ways.start(&mut claimant.way);
    for _ in rt.forever() {
        if is_over(rt, gate, shared, &mut claimant, &backoff) {
            break;
        }
    }
    claimant
}
