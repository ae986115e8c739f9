//! How the seats of a shelf are made.
ghost use Rattle.std.specs.Prelude.{◌≡◌, All, IfOk, length};
ghost use Rattle.steal_shelf.specs.Seats.{table_of, cells_of};
ghost use Rattle.steal_shelf.specs.working.Tokens.{AreDealt};

use crate::rule::CellSeat;
use crate::shelf::{Shelf, ShelfSeat};
use crate::token::deal_token;
use pw_lists::{Items, Memory};
use std::alloc::Global;

// A seat, which is a token of each cell.
fn deal_seat(
    alloc: Global,
    shelf: &Shelf,
    root: &mut CellSeat,
    cells: usize,
) -> Result<ShelfSeat, Memory>
    requires own { root.old.table_id ≡ table_of shelf.now }
    requires cells { cells ≡ length (cells_of shelf.now) }
    ensures own { (root.new.table_id ≡ root.old.table_id) × (root.new.me ≡ root.old.me) }
    ensures seat { IfOk result (AreDealt root.old.table_id root.old.me.0 cells) }
{
    let mut tokens = Vec::with_capacity(alloc, cells)?;
    for cell in 0..cells {
        if tokens.push(deal_token(shelf, root, cell)).is_err() {
            return Err(Memory);
        }
    }
    Ok(ShelfSeat { tokens })
}

/// All seats of a shelf that has `cells` cells: each has a token of each cell, and no turn.
pub(crate) fn deal_seats(
    alloc: Global,
    shelf: &Shelf,
    root: &mut CellSeat,
    cells: usize,
    seats: u32,
) -> Result<Items<ShelfSeat>, Memory>
    requires own { root.old.table_id ≡ table_of shelf.now }
    requires cells { cells ≡ length (cells_of shelf.now) }
    ensures count { IfOk result (λ all. length all ≡ seats) }
    ensures seats { IfOk result (All (AreDealt root.old.table_id root.old.me.0 cells)) }
{
    let mut all = Items::new(alloc);
    for _seat in 0..seats {
        all.push(deal_seat(alloc, shelf, root, cells)?)?;
    }
    Ok(all)
}
