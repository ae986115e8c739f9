//! What one thread takes cells with.
ghost use Rattle.std.specs.Prelude.{◌≡◌, ◌<◌, All, Bool, IfOk, IsTrue, false, length, replicate, slice_index_or, true};

use crate::counts::HintCounts;
use data_loop::Way;
use pw_lists::{Items, Memory};
use std::alloc::Global;
use steal_shelf::ShelfSeat;

/// What one thread takes cells with: its seat of the shelf, its way to the queues, and which
/// cells it has found at their end. Where it looks first: for the node that its last step woke
/// and that it kept, for the signs from node `node` on, and for the cells from `next` on. And how
/// many steps it found by which hint.
#[derive(Drop)]
pub(crate) struct Claimant {
    pub seat: ShelfSeat,
    pub way: Way,
    pub ended: Vec<bool>,
    pub kept: Option<u32>,
    pub node: u32,
    pub next: usize,
    pub hints: HintCounts,
}

impl Claimant {
    /// With a seat and a way; it has found none of the `cells` cells at its end. Threads begin to
    /// look at places that are apart.
    ///
    /// Memory: a flag for each cell.
    pub(crate) fn new(
        alloc: Global,
        seat: ShelfSeat,
        way: Way,
        cells: usize,
    ) -> Result<Claimant, Memory>
        ensures seat { IfOk result (λ t. t.seat ≡ seat) }
        ensures way { IfOk result (λ t. t.way ≡ way) }
        ensures ended { IfOk result (λ t. t.ended.items ≡ replicate cells false) }
    {
        let ended = Items::filled(alloc, cells, false)?.into_vec();
        let node = way.number() % 4 * 16;
        Ok(Claimant {
            seat,
            way,
            ended,
            kept: None,
            node,
            next: 0,
            hints: HintCounts::new(),
        })
    }

    /// Whether it has found this cell at its end. Condition: there is such a cell.
    pub(crate) fn has_ended(&self, cell: u32) -> bool
        requires { cell < length self.now.ended.items }
        ensures { (d : Bool) → slice_index_or self.now.ended.items cell d ≡ result }
    {
        self.ended[cell as usize]
    }
}

/// The cell to look at, of `cells`, where `next` is one or the number after the last.
pub(crate) fn cell_at(next: usize, cells: usize) -> usize {
    if next < cells { next } else { 0 }
}

/// Whether all cells were found at their end.
pub(crate) fn are_all(ended: &[bool]) -> bool
    ensures { IsTrue result → All (λ e. e ≡ true) ended.now }
{
    for cell in 0..ended.len() {
        if !ended[cell] {
            return false;
        }
    }
    true
}
