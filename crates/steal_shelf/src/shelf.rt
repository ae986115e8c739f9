//! The shelf, and the right of one thread to fetch cells from it.
ghost use Rattle.std.specs.Prelude.{◌≡◌, length};

use crate::rule::ShelfTable;
use crate::token::Token;

/// The cells of a run. All threads share it.
#[derive(Drop)]
pub struct Shelf {
    pub(crate) table: ShelfTable,
    ghost count: { let words = table.shared in
        words.table_id.words ≡ length words.key.cells.value },
}

/// What one thread has of each cell: its turn, or not. It may cross threads, and have several cells
/// at once.
#[derive(Drop)]
pub struct ShelfSeat {
    pub(crate) tokens: Vec<Token>,
}
