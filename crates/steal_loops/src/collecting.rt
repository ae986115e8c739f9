//! How the cells of a run are taken from the shelf in the end.
ghost use Rattle.std.specs.Prelude.{◌≡◌, ◌+◌, ◌<◌, ◌≤◌, [], IsTrue, length};
ghost use Rattle.steal_shelf.specs.Seats.{cells_of, IsSeatOf, IsAllowed};
ghost use Rattle.steal_loops.specs.working.Cells.{AreCells, IsFinished, AreCollected};

use crate::shared::Shared;
use crate::visiting::advance_unless_ended;
use data_loop::LoopState;
use pw_lists::Room;
use pw_outside::Gate;
use std::sync::Wait;
use steal_shelf::ShelfSeat;

// A cell, as soon as no other thread has it.
fn take_cell<R: Wait>(rt: &R, shared: &Shared, seat: &mut ShelfSeat, cell: u32) -> LoopState
    requires seat { IsSeatOf shared.now.shelf seat.old }
    requires cell { cell < length (cells_of shared.now.shelf) }
    ensures seat { IsSeatOf shared.now.shelf seat.new }
    ensures allowed { IsAllowed shared.now.shelf cell result }
{
    for _ in rt.forever() {
        if let Some(state) = shared.shelf.fetch(seat, cell) {
            return state;
        }
    }
    unreachable!()
}

// One step of a cell that was taken for good, or the finding that all its epochs are done.
fn is_finished<G: Gate>(shared: &Shared, cell: u32, state: &mut LoopState, gate: &G) -> bool
    requires cells { AreCells shared.now }
    requires allowed { IsAllowed shared.now.shelf cell state.old }
    ensures allowed { IsAllowed shared.now.shelf cell state.new }
    ensures finished { IsTrue result → IsFinished shared.now cell state.new }
{
    match advance_unless_ended(shared, cell, state, gate) {
        None => true,
        Some(_did) => false,
    }
}

// Takes a cell from the shelf for good, and gives it steps until all its epochs are done.
fn collect<R: Wait, G: Gate>(
    rt: &R,
    gate: &G,
    shared: &Shared,
    seat: &mut ShelfSeat,
    cell: u32,
) -> LoopState
    requires cells { AreCells shared.now }
    requires seat { IsSeatOf shared.now.shelf seat.old }
    requires cell { cell < length (cells_of shared.now.shelf) }
    ensures seat { IsSeatOf shared.now.shelf seat.new }
    ensures finished { IsFinished shared.now cell result }
{
    let mut state = take_cell(rt, shared, seat, cell);
    for _ in rt.forever() {
        if is_finished(shared, cell, &mut state, gate) {
            break;
        }
    }
    state
}

/// Takes all cells from the shelf for good, in their order, each after all its epochs. The list
/// is empty, and has room for all. It waits for who has a cell; once the workers are joined, none
/// has. Takes no memory.
pub(crate) fn collect_all<R: Wait, G: Gate>(
    rt: &R,
    gate: &G,
    shared: &Shared,
    seat: &mut ShelfSeat,
    done: &mut Room<LoopState>,
)
    requires cells { AreCells shared.now }
    requires seat { IsSeatOf shared.now.shelf seat.old }
    requires empty { done.old.list ≡ [] }
    requires room { length (cells_of shared.now.shelf) ≤ done.old.spare }
    ensures collected { AreCollected shared.now (length (cells_of shared.now.shelf))
        done.new.list }
    ensures spare { done.new.spare + length (cells_of shared.now.shelf) ≡ done.old.spare }
{
    for cell in 0..shared.seating.loops() {
        done.push_spare(collect(rt, gate, shared, seat, cell));
    }
}
