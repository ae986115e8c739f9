//! How a thread finds the cells that are ready, by the signs of their nodes.
ghost use Rattle.std.specs.Prelude.{◌≡◌};
ghost use Rattle.crossbeam_utils.specs.Token.{parker_view};
ghost use Rattle.steal_loops.specs.working.Cells.{AreCells};
ghost use Rattle.steal_loops.specs.working.Claimants.{IsClaimant};

use crate::claimant::Claimant;
use crate::counts::Hint;
use crate::shared::Shared;
use crate::visiting::{has_done, leaves_ready, visit};
use pw_outside::Gate;
use std::sync::Wait;

/// Visits the cell of a node whose sign this thread took, or that it kept: `hint` says which. The
/// sign is set again where the node may still be ready. The next look begins behind the node, so
/// that a sign that is set again hides no other. Whether the visit did something. It may wait
/// where it sends. Takes no memory.
pub(crate) fn visit_signed<R: Wait, G: Gate>(
    rt: &R,
    gate: &G,
    shared: &Shared,
    claimant: &mut Claimant,
    node: u32,
    hint: Hint,
) -> bool
    requires cells { AreCells shared.now }
    requires claimant { IsClaimant shared.now claimant.old }
    ensures claimant { IsClaimant shared.now claimant.new }
    ensures number { claimant.new.way.number ≡ claimant.old.way.number }
    ensures awake { parker_view claimant.new.way.own ≡ parker_view claimant.old.way.own }
    ensures begins { claimant.new.way.begins ≡ claimant.old.way.begins }
{
    let cell = shared.seating.holder(node);
    if cell >= shared.seating.loops() {
        return false;
    }
    let found = visit(rt, gate, shared, claimant, cell, hint);
    if leaves_ready(found) {
        shared.signs.set_again(node);
    }
    claimant.node = node.wrapping_add(1);
    has_done(found)
}

/// Visits the cell of the node that this thread's last step woke and that it kept: what that node
/// reads lies near. Whether the visit did something. It may wait where it sends. Takes no memory.
pub(crate) fn visit_kept<R: Wait, G: Gate>(
    rt: &R,
    gate: &G,
    shared: &Shared,
    claimant: &mut Claimant,
) -> bool
    requires cells { AreCells shared.now }
    requires claimant { IsClaimant shared.now claimant.old }
    ensures claimant { IsClaimant shared.now claimant.new }
    ensures number { claimant.new.way.number ≡ claimant.old.way.number }
    ensures awake { parker_view claimant.new.way.own ≡ parker_view claimant.old.way.own }
    ensures begins { claimant.new.way.begins ≡ claimant.old.way.begins }
{
    let Some(node) = claimant.kept else {
        return false;
    };
    claimant.kept = None;
    visit_signed(rt, gate, shared, claimant, node, Hint::Kept)
}

/// Visits the cell of some node that has a sign. Whether the visit did something. It may wait
/// where it sends. Takes no memory.
pub(crate) fn visit_some<R: Wait, G: Gate>(
    rt: &R,
    gate: &G,
    shared: &Shared,
    claimant: &mut Claimant,
) -> bool
    requires cells { AreCells shared.now }
    requires claimant { IsClaimant shared.now claimant.old }
    ensures claimant { IsClaimant shared.now claimant.new }
    ensures number { claimant.new.way.number ≡ claimant.old.way.number }
    ensures awake { parker_view claimant.new.way.own ≡ parker_view claimant.old.way.own }
    ensures begins { claimant.new.way.begins ≡ claimant.old.way.begins }
{
    match shared.signs.take_next(claimant.node) {
        Some(node) => visit_signed(rt, gate, shared, claimant, node, Hint::Signed),
        None => false,
    }
}

// A visit of a cell that is ready, if one is found: first that of the node that is kept. Whether
// it did something.
fn visit_one<R: Wait, G: Gate>(rt: &R, gate: &G, shared: &Shared, claimant: &mut Claimant) -> bool
    requires cells { AreCells shared.now }
    requires claimant { IsClaimant shared.now claimant.old }
    ensures claimant { IsClaimant shared.now claimant.new }
    ensures number { claimant.new.way.number ≡ claimant.old.way.number }
{
    if visit_kept(rt, gate, shared, claimant) {
        return true;
    }
    visit_some(rt, gate, shared, claimant)
}

/// Visits cells that are ready, until none is found or there were as many visits as cells. Whether
/// a visit did something. It may wait where it sends. Takes no memory.
pub(crate) fn visit_ready<R: Wait, G: Gate>(
    rt: &R,
    gate: &G,
    shared: &Shared,
    claimant: &mut Claimant,
) -> bool
    requires cells { AreCells shared.now }
    requires claimant { IsClaimant shared.now claimant.old }
    ensures claimant { IsClaimant shared.now claimant.new }
    ensures number { claimant.new.way.number ≡ claimant.old.way.number }
{
    let mut done = false;
    for _ in 0..claimant.ended.len() {
        if !visit_one(rt, gate, shared, claimant) {
            break;
        }
        done = true;
    }
    done
}
