//! The word that says whether a loop's own thread runs it.
ghost use Rattle.std.specs.Prelude.{◌≡◌};

use crate::start_rule::StartTable;

/// Whether a loop's own thread runs it. All threads share it.
#[derive(Drop)]
pub(crate) struct StartWord {
    pub(crate) table: StartTable,
    ghost count: { let words = table.shared in words.table_id.words ≡ 1 },
}
