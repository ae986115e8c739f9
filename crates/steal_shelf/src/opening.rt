//! How a shelf begins.
ghost use Rattle.std.specs.Prelude.{◌≡◌, ◌<◌, [], All, IfOk, Some, length, map};
ghost use Rattle.data_loop.specs.Loops.{IsBetweenEpochs};
ghost use Rattle.steal_shelf.specs.NewShelf.{IsFirstCell, AreOfOneRun};
ghost use Rattle.steal_shelf.specs.Seats.{table_of, cells_of, IsSeatOf, IsNewSeat};
ghost use Rattle.steal_shelf.specs.ShelfRule.{root_view};

use crate::dealing::deal_seats;
use crate::rule::{CellSeat, Origin};
use crate::shelf::{Shelf, ShelfSeat};
use atomic_table::Table;
use data_loop::LoopState;
use pw_lists::{Items, Memory};
use std::alloc::Global;
use std::snapshot::Snapshot;

// A slot for each cell, which has the cell.
fn slots_of(alloc: Global, cells: Items<LoopState>) -> Result<Items<Option<LoopState>>, Memory>
    ensures { IfOk result (λ slots. slots ≡ map (λ c. Some c) cells) }
{
    let mut slots = Items::new(alloc);
    for cell in cells.into_vec() {
        slots.push(Some(cell))?;
    }
    Ok(slots)
}

// A shelf of these cells, each of which is at home, and its first seat, which has no cell.
fn open_shelf(alloc: Global, cells: Items<LoopState>) -> Result<(Shelf, CellSeat), Memory>
    requires between { All IsBetweenEpochs cells }
    ensures cells { IfOk result (λ made. cells_of made.0 ≡ cells) }
    ensures root { IfOk result (λ made. (made.1.table_id ≡ table_of made.0)
        × (made.1.me ≡ (root_view cells, []))) }
{
    let origin = Origin {
        cells: Snapshot::of(&cells),
    };
    let words = Items::filled(alloc, cells.len(), 0u64)?;
    let slots = slots_of(alloc, cells)?;
    match Table::new(alloc, words.as_slice(), slots.into_vec(), &origin) {
        Ok((table, root)) => Ok((Shelf { table }, root)),
        Err(_refused) => Err(Memory),
    }
}

impl Shelf {
    /// A shelf of these cells, all of which are at home, and its seats. After `Memory` the cells
    /// are dropped.
    ///
    /// Memory: a word and a slot for each cell, and for each seat a few words for each cell.
    /// Condition: there is a seat; each cell is the loop of one node before its first epoch; all
    /// are of one run.
    pub fn new(
        alloc: Global,
        cells: Items<LoopState>,
        seats: u32,
    ) -> Result<(Shelf, Items<ShelfSeat>), Memory>
        requires some { 0 < seats }
        requires cells { All IsFirstCell cells }
        requires alike { AreOfOneRun cells }
        ensures cells { IfOk result (λ made. cells_of made.0 ≡ cells) }
        ensures count { IfOk result (λ made. length made.1 ≡ seats) }
        ensures seats { IfOk result (λ made. All (IsSeatOf made.0) made.1) }
        ensures new { IfOk result (λ made. All (IsNewSeat made.0) made.1) }
    {
        let count = cells.len();
        let (shelf, mut root) = open_shelf(alloc, cells)?;
        let seats = deal_seats(alloc, &shelf, &mut root, count, seats)?;
        Ok((shelf, seats))
    }
}
