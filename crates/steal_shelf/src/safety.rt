//! What the rule of the shelf says of its cells.
ghost use Rattle.steal_shelf.specs.Seats.{cells_of};
ghost use Rattle.steal_shelf.specs.ShelfRule.{ShelfState, Holds};
ghost use Rattle.steal_shelf.specs.ShelfSafety.{AreAlone};
ghost use Rattle.steal_shelf.specs.ShelfReach.{AreInReach};

use crate::shelf::Shelf;

/// A law, which does nothing: in each state of a shelf between any two steps no cell is with two
/// seats, and a cell that is with one is out of its slot.
pub fn cells_are_alone(_shelf: &Shelf)
    ensures { (s : ShelfState) → Holds (cells_of _shelf.now) s
        → AreAlone (cells_of _shelf.now) s }
{}

/// A law, which does nothing: in each state of a shelf between any two steps each cell is at home,
/// where the next try of any seat finds it, or just one seat has it and can put it back. So none is
/// lost.
pub fn cells_are_in_reach(_shelf: &Shelf)
    ensures { (s : ShelfState) → Holds (cells_of _shelf.now) s
        → AreInReach (cells_of _shelf.now) s }
{}
