//! The rule of the shelf, and the kinds of step that keep it.
use crate::view::CellView;
use atomic_table::{Play, Seat, Split, Table, TableRule};
use data_loop::LoopState;
use pw_lists::Items;
use std::alloc::Global;
use std::marker::{Brand, PhantomData};
use std::snapshot::Snapshot;

/// The rule that holds of the words, the slots and the views of a shelf between any two steps.
pub struct ShelfRule;

/// The cells as they were given. It has no bytes.
#[derive(Drop)]
pub struct Origin {
    pub cells: Snapshot<Items<LoopState>>,
}

impl TableRule<Option<LoopState>, CellView, Origin> for ShelfRule {
    ghost use Rattle.steal_shelf.specs.ShelfRule.{Holds, root_view};

    ghost holds = { λ origin. Holds origin.cells.value };

    ghost first = { λ origin. root_view origin.cells.value };
}

/// A word and a slot for each cell.
pub(crate) type ShelfTable = Table<Option<LoopState>, CellView, Origin, ShelfRule, Global>;

/// The right of one seat to step on one cell.
pub(crate) type CellSeat = Seat<Option<LoopState>, CellView>;

/// One try to take the turn of a cell: the exchange of 0 for 1.
pub(crate) struct Tries;

impl Play<Option<LoopState>, CellView> for Tries {
    ghost use Rattle.steal_shelf.specs.working.ShelfSteps.{HasTried};

    ghost then = { λ step. HasTried step.word };
}

/// The end of a turn: 0 is stored, and the slot goes home.
pub(crate) struct Returns;

impl Play<Option<LoopState>, CellView> for Returns {
    ghost use Rattle.steal_shelf.specs.working.ShelfSteps.{HasReturned};

    ghost then = { λ _ me _. HasReturned me };
}

/// The number of the cell that a new token is for, named at the call.
pub(crate) trait Numbered {
    ghost use Rattle.std.specs.Prelude.{ℕ};

    ghost number: { ℕ };
}

impl Numbered for Brand {
    ghost number = { 0 };
}

/// A new token of a cell.
pub(crate) struct Deals<N> {
    name: PhantomData<N>,
}

impl<N: Numbered> Split<CellView> for Deals<N> {
    ghost use Rattle.steal_shelf.specs.working.ShelfSteps.{dealt};

    ghost left = { λ v. v };

    ghost right = { λ v. dealt N.number v };
}
