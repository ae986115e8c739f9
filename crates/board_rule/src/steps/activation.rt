//! The atomic steps on activation words. Nodes are indexes; `C` is what the step gives its seat to
//! know.
ghost use Rattle.board_rule.specs.OnBoard.{IsOn, layout};
ghost use Rattle.std.specs.Prelude.{◌≡◌, ℕ, ◌-◌, ◌<◌, ◌^◌, slice_index};
ghost use Rattle.pw_graph.specs.Words.{finished_word, not_triggered_word, triggered_word};
ghost use Rattle.board_rule.specs.Layout.{nodes};
ghost use Rattle.board_rule.specs.Steps.{taken, cycle_of, reset_of, Lowers, lowered, Triggers, triggered, Claims, claimed, IsReadyToFinish};
ghost use Rattle.board_rule.specs.Steps.{finished, StoresPending, pending_stored, StoresStatus, status_stored};

use crate::board::Board;
use crate::rule::BoardToken;
use crate::steps::change::{Becomes, Change, Learned};
use crate::steps::statuses::{awake, finished, not_triggered, triggered};

/// Lowers a target: one `fetch_sub` of its pending word.
pub(crate) fn lower<C: Change>(
    board: &Board,
    token: &mut BoardToken,
    at: usize,
    target: usize,
) -> u64
    requires table { IsOn board.now token.old.table_id }
    requires phase { Lowers C.is_driver (layout board.now) token.old.me.0 at }
    requires target { slice_index ((layout board.now).targets at)
        (taken C.is_driver token.old.me.0 at)
        ≡ target }
    requires inside { target < nodes (layout board.now) }
    requires after { (found : ℕ) → C.after found
        ≡ lowered C.is_driver (layout board.now) token.old.me.0 at found }
    requires says { (found : ℕ) → 0 < found → C.says found }
    ensures same { (token.new.table_id ≡ token.old.table_id) × (token.new.id ≡ token.old.id)
        × (token.new.me.1 ≡ token.old.me.1) }
    ensures after { token.new.me.0 ≡ C.after result }
    ensures says { C.says result }
{
    let word = board.pending_word(target);
    board.table.shared.fetch_sub::<Learned<C>>(token, word, 1)
}

/// Stores TRIGGERED of a cycle in the status word of a target.
pub(crate) fn trigger<C: Change>(
    board: &Board,
    token: &mut BoardToken,
    at: usize,
    target: usize,
    cycle: u32,
)
    requires table { IsOn board.now token.old.table_id }
    requires phase { Triggers C.is_driver (layout board.now) token.old.me.0 at }
    requires target { slice_index ((layout board.now).targets at)
        (taken C.is_driver token.old.me.0 at - 1)
        ≡ target }
    requires inside { target < nodes (layout board.now) }
    requires cycle { cycle ≡ cycle_of C.is_driver token.old.me.0 at }
    requires after { (found : ℕ)
        → C.after found ≡ triggered C.is_driver (layout board.now) token.old.me.0 at }
    ensures same { (token.new.table_id ≡ token.old.table_id) × (token.new.id ≡ token.old.id)
        × (token.new.me.1 ≡ token.old.me.1) }
    ensures after { token.new.me.0 ≡ C.after (triggered_word cycle) }
{
    let word = board.status_word(target);
    let new = triggered(cycle);
    board.table.shared.store::<Becomes<C>>(token, word, new);
}

/// Exchanges TRIGGERED of a cycle for AWAKE of it in the status word of the node.
pub(crate) fn claim<C: Change>(board: &Board, token: &mut BoardToken, at: usize, cycle: u32) -> u64
    requires table { IsOn board.now token.old.table_id }
    requires phase { Claims C.is_driver (layout board.now) token.old.me.0 at }
    requires inside { at < nodes (layout board.now) }
    requires cycle { cycle ≡ cycle_of C.is_driver token.old.me.0 at }
    requires after { (found : ℕ) → C.after found
        ≡ claimed C.is_driver (layout board.now) token.old.me.0 at found }
    ensures same { (token.new.table_id ≡ token.old.table_id) × (token.new.id ≡ token.old.id)
        × (token.new.me.1 ≡ token.old.me.1) }
    ensures after { token.new.me.0 ≡ C.after result }
{
    let word = board.status_word(at);
    let old = triggered(cycle);
    let new = awake(cycle);
    board
        .table
        .shared
        .compare_exchange::<Becomes<C>>(token, word, old, new)
}

/// Stores FINISHED of a cycle in the status word of the node.
pub(crate) fn finish<C: Change>(board: &Board, token: &mut BoardToken, at: usize, cycle: u32)
    requires table { IsOn board.now token.old.table_id }
    requires phase { IsReadyToFinish C.is_driver (layout board.now) token.old.me.0 at }
    requires inside { at < nodes (layout board.now) }
    requires cycle { cycle ≡ cycle_of C.is_driver token.old.me.0 at }
    requires after { (found : ℕ) → C.after found ≡ finished C.is_driver token.old.me.0 at }
    ensures same { (token.new.table_id ≡ token.old.table_id) × (token.new.id ≡ token.old.id)
        × (token.new.me.1 ≡ token.old.me.1) }
    ensures after { token.new.me.0 ≡ C.after (finished_word cycle) }
{
    let word = board.status_word(at);
    let new = finished(cycle);
    board.table.shared.store::<Becomes<C>>(token, word, new);
}

/// Stores the required count in the pending word of the node that is reset next.
pub(crate) fn reset_pending<C: Change>(board: &Board, token: &mut BoardToken, at: usize)
    requires table { IsOn board.now token.old.table_id }
    requires phase { StoresPending (layout board.now) token.old.me.0 }
    requires at { at ≡ reset_of token.old.me.0.lead.drive }
    requires inside { at < nodes (layout board.now) }
    requires after { (found : ℕ) → C.after found ≡ pending_stored token.old.me.0 }
    ensures same { (token.new.table_id ≡ token.old.table_id) × (token.new.id ≡ token.old.id)
        × (token.new.me.1 ≡ token.old.me.1) }
    ensures after { token.new.me.0 ≡ C.after ((layout board.now).required at) }
{
    let word = board.pending_word(at);
    let new = board.required(at);
    board.table.shared.store::<Becomes<C>>(token, word, new);
}

/// Stores NOT_TRIGGERED of a cycle in the status word of the node whose pending word is reset.
pub(crate) fn reset_status<C: Change>(board: &Board, token: &mut BoardToken, at: usize, cycle: u32)
    requires table { IsOn board.now token.old.table_id }
    requires phase { StoresStatus (layout board.now) token.old.me.0 }
    requires at { at ≡ reset_of token.old.me.0.lead.drive }
    requires inside { at < nodes (layout board.now) }
    requires cycle { cycle ≡ token.old.me.0.lead.cycle }
    requires after { (found : ℕ)
        → C.after found ≡ status_stored (layout board.now) token.old.me.0 }
    ensures same { (token.new.table_id ≡ token.old.table_id) × (token.new.id ≡ token.old.id)
        × (token.new.me.1 ≡ token.old.me.1) }
    ensures after { token.new.me.0 ≡ C.after (not_triggered_word cycle) }
{
    let word = board.status_word(at);
    let new = not_triggered(cycle);
    board.table.shared.store::<Becomes<C>>(token, word, new);
}
