//! What a thread does with one cell.
ghost use Rattle.std.specs.Prelude.{◌≡◌, ◌<◌, IfNone, IfSome, length};
ghost use Rattle.crossbeam_utils.specs.Token.{parker_view};
ghost use Rattle.data_loop.specs.Loops.{plan_of};
ghost use Rattle.steal_shelf.specs.working.CellSteps.{HasStepped};
ghost use Rattle.steal_shelf.specs.Seats.{cells_of, IsAllowed};
ghost use Rattle.steal_loops.specs.working.Cells.{AreCells};
ghost use Rattle.steal_loops.specs.working.Steps.{HasMade};
ghost use Rattle.steal_loops.specs.working.Claimants.{IsClaimant};
ghost use Rattle.steal_loops.specs.working.Visits.{HasVisited};

use crate::cell_steps::{Step, step_cell};
use crate::claimant::Claimant;
use crate::counts::Hint;
use crate::shared::Shared;
use data_loop::LoopState;
use pw_outside::Gate;
use std::sync::Wait;

/// What became of a visit of a cell.
#[derive(Clone, Copy, Drop)]
pub(crate) enum Visited {
    /// The cell is with another thread.
    Out,
    /// All its epochs are done.
    Ended,
    /// One step of it was made.
    Stepped(Step),
}

// Whether a step changed more than what is known of a board.
fn is_advance(step: Step) -> bool {
    match step {
        Step::Early => false,
        _ => true,
    }
}

/// Whether a visit did something: the node ran, or the cell is in its next epoch.
pub(crate) fn has_done(visit: Visited) -> bool {
    match visit {
        Visited::Stepped(step) => is_advance(step),
        _ => false,
    }
}

// Whether a step leaves the node as ready as it was.
fn is_passage(step: Step) -> bool {
    match step {
        Step::Passed => true,
        _ => false,
    }
}

/// Whether a node that was woken before the visit may still be ready after it: another thread has
/// its cell, or the cell went into its next epoch.
pub(crate) fn leaves_ready(visit: Visited) -> bool {
    match visit {
        Visited::Out => true,
        Visited::Ended => false,
        Visited::Stepped(step) => is_passage(step),
    }
}

// One step of a cell that was fetched.
fn advance<G: Gate>(shared: &Shared, cell: u32, state: &mut LoopState, gate: &G) -> Step
    requires cells { AreCells shared.now }
    requires allowed { IsAllowed shared.now.shelf cell state.old }
    requires left { state.old.epoch < length (plan_of state.old).epochs }
    ensures allowed { IsAllowed shared.now.shelf cell state.new }
    ensures stepped { HasStepped shared.now.boards state.old state.new }
    ensures made { HasMade shared.now.boards result state.old state.new }
{
    let _ = cell;
    step_cell(&shared.boards, state, gate)
}

/// One step of a cell that was fetched, unless all its epochs are done: None. Takes no memory,
/// does not wait.
pub(crate) fn advance_unless_ended<G: Gate>(
    shared: &Shared,
    cell: u32,
    state: &mut LoopState,
    gate: &G,
) -> Option<Step>
    requires cells { AreCells shared.now }
    requires allowed { IsAllowed shared.now.shelf cell state.old }
    ensures allowed { IsAllowed shared.now.shelf cell state.new }
    ensures stepped { IfSome result (λ _. HasStepped shared.now.boards state.old state.new) }
    ensures made { IfSome result (λ did. HasMade shared.now.boards did state.old state.new) }
    ensures ended { IfNone result (state.new ≡ state.old) }
    ensures end { IfNone result (state.new.epoch ≡ length (plan_of state.new).epochs) }
{
    if state.at_end() {
        return None;
    }
    Some(advance(shared, cell, state, gate))
}

/// One try of a cell: where it is at home, one step of it, after which it is put back. What it
/// woke is sent, but for the first node that has a cell: the thread keeps that, to visit its cell
/// next. One that is found at its end is noted, and not tried again. A step is counted by the hint
/// that led to the cell. It may wait where it sends. Takes no memory.
/// Condition: there is such a cell.
pub(crate) fn visit<R: Wait, G: Gate>(
    rt: &R,
    gate: &G,
    shared: &Shared,
    claimant: &mut Claimant,
    cell: u32,
    hint: Hint,
) -> Visited
    requires cells { AreCells shared.now }
    requires claimant { IsClaimant shared.now claimant.old }
    requires cell { cell < length (cells_of shared.now.shelf) }
    ensures claimant { IsClaimant shared.now claimant.new }
    ensures number { claimant.new.way.number ≡ claimant.old.way.number }
    ensures awake { parker_view claimant.new.way.own ≡ parker_view claimant.old.way.own }
    ensures begins { claimant.new.way.begins ≡ claimant.old.way.begins }
    ensures visited { HasVisited shared.now cell result claimant.old claimant.new }
{
    if claimant.has_ended(cell) {
        return Visited::Ended;
    }
    let Some(mut state) = shared.shelf.fetch(&mut claimant.seat, cell) else {
        return Visited::Out;
    };
    let stepped = advance_unless_ended(shared, cell, &mut state, gate);
    let woke = state.woke();
    shared.shelf.put_back(&mut claimant.seat, cell, state);
    match stepped {
        Some(step) => {
            claimant.hints.note(hint);
            shared.signs.give_up(claimant.kept);
            let (kept, others) = shared.signs.split(woke);
            claimant.kept = kept;
            shared.signs.set(others);
            shared.ways.forward(rt, &mut claimant.way, others);
            Visited::Stepped(step)
        }
        None => {
            claimant.ended[cell as usize] = true;
            Visited::Ended
        }
    }
}
