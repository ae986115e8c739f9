//! What one seat has of one cell.
ghost use Rattle.std.specs.Prelude.{◌≡◌, ◌<◌, [], ◌∷◌, true, false, None, Some, IfSome, IfNone, length};
ghost use Rattle.steal_shelf.specs.Seats.{table_of, cells_of};
ghost use Rattle.steal_shelf.specs.working.ShelfSteps.{IsCellOf, dealt, tried, taken, rested};
ghost use Rattle.steal_shelf.specs.working.Tokens.{IsDealt};

use crate::rule::{CellSeat, Deals, Numbered, Returns, Tries};
use crate::shelf::Shelf;
use data_loop::LoopState;
use std::marker::{Brand, Model};

/// The right of one seat to one cell.
#[derive(Drop)]
pub(crate) struct Token {
    pub seat: CellSeat,
    pub cell: usize,
}

/// One try of the token's cell: None exactly where its one exchange found 1. Takes no memory.
pub(crate) fn fetch_token(shelf: &Shelf, token: &mut Token) -> Option<LoopState>
    requires own { token.old.seat.table_id ≡ table_of shelf.now }
    requires cell { token.old.cell ≡ token.old.seat.me.0.cell }
    requires inside { token.old.cell < length (cells_of shelf.now) }
    ensures own { (token.new.seat.table_id ≡ token.old.seat.table_id)
        × (token.new.cell ≡ token.old.cell) }
    ensures some { IfSome result (λ s. IsCellOf token.old.seat.me.0 s
        × (token.old.seat.me.0.has ≡ false)
        × (token.new.seat.me.0 ≡ taken s token.old.seat.me.0)
        × (token.new.seat.me.1 ≡ (token.old.cell, None) ∷ token.old.seat.me.1)) }
    ensures none { IfNone result ((token.new.seat.me.0 ≡ tried token.old.seat.me.0)
        × (token.new.seat.me.1 ≡ token.old.seat.me.1)) }
{
    let words = &shelf.table.shared;
    if words.compare_exchange::<Tries>(&mut token.seat, token.cell, 0, 1) != 0 {
        return None;
    }
    words.exchange(&mut token.seat, token.cell, None)
}

/// Puts the cell that the token has back into its slot, and ends the turn. Takes no memory.
pub(crate) fn put_token(shelf: &Shelf, token: &mut Token, state: LoopState)
    requires own { token.old.seat.table_id ≡ table_of shelf.now }
    requires cell { token.old.cell ≡ token.old.seat.me.0.cell }
    requires inside { token.old.cell < length (cells_of shelf.now) }
    requires has { (token.old.seat.me.0.has ≡ true)
        × (token.old.seat.me.1 ≡ (token.old.cell, None) ∷ []) }
    requires allowed { IsCellOf token.old.seat.me.0 state }
    ensures own { (token.new.seat.table_id ≡ token.old.seat.table_id)
        × (token.new.cell ≡ token.old.cell) }
    ensures rests { (token.new.seat.me.0 ≡ rested (Some state) token.old.seat.me.0)
        × (token.new.seat.me.1 ≡ []) }
{
    let words = &shelf.table.shared;
    let _none = words.exchange(&mut token.seat, token.cell, Some(state));
    words.store::<Returns>(&mut token.seat, token.cell, 0);
}

// A new right to a cell, which the type of the call names.
fn deal<N: Numbered>(shelf: &Shelf, root: &mut CellSeat, _cell: usize) -> CellSeat
    requires own { root.old.table_id ≡ table_of shelf.now }
    requires some { 0 < length (cells_of shelf.now) }
    ensures own { (root.new.table_id ≡ root.old.table_id) × (root.new.me ≡ root.old.me) }
    ensures new { (result.table_id ≡ root.old.table_id)
        × (result.me ≡ (dealt N.number root.old.me.0, [])) }
{
    shelf.table.shared.split_seat::<Deals<N>>(root)
}

/// A new token of a cell, without its turn. The first seat, which splits, stays as it is. Takes no
/// memory.
pub(crate) fn deal_token(shelf: &Shelf, root: &mut CellSeat, cell: usize) -> Token
    requires own { root.old.table_id ≡ table_of shelf.now }
    requires some { 0 < length (cells_of shelf.now) }
    ensures own { (root.new.table_id ≡ root.old.table_id) × (root.new.me ≡ root.old.me) }
    ensures new { IsDealt root.old.table_id root.old.me.0 cell result }
{
    let seat = deal::<Brand>(shelf, root, cell);
    Token { seat, cell }
}
