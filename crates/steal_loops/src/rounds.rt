//! How a thread goes through all cells, one after the other.
ghost use Rattle.std.specs.Prelude.{◌≡◌};
ghost use Rattle.crossbeam_utils.specs.Token.{parker_view};
ghost use Rattle.steal_loops.specs.working.Cells.{AreCells};
ghost use Rattle.steal_loops.specs.working.Claimants.{IsClaimant};

use crate::claimant::{Claimant, cell_at};
use crate::counts::Hint;
use crate::shared::Shared;
use crate::visiting::{has_done, visit};
use pw_outside::Gate;
use std::sync::Wait;

/// Visits the cell after the last, unless there is none or it was found at its end. Whether the
/// visit did something. It may wait where it sends. Takes no memory.
pub(crate) fn visit_next<R: Wait, G: Gate>(
    rt: &R,
    gate: &G,
    shared: &Shared,
    claimant: &mut Claimant,
) -> bool
    requires cells { AreCells shared.now }
    requires claimant { IsClaimant shared.now claimant.old }
    ensures claimant { IsClaimant shared.now claimant.new }
    ensures number { claimant.new.way.number ≡ claimant.old.way.number }
    ensures awake { parker_view claimant.new.way.own ≡ parker_view claimant.old.way.own }
    ensures begins { claimant.new.way.begins ≡ claimant.old.way.begins }
{
    let cell = cell_at(claimant.next, claimant.ended.len());
    claimant.next = cell.saturating_add(1);
    if cell >= claimant.ended.len() {
        return false;
    }
    has_done(visit(rt, gate, shared, claimant, cell as u32, Hint::Scanned))
}
