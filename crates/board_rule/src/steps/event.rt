//! The atomic steps on tickets, events and late sets. Nodes are indexes; `C` is what the step gives
//! its seat to know.
ghost use Rattle.board_rule.specs.OnBoard.{IsOn, layout};
ghost use Rattle.pw_lists.specs.Limits.{dummy_node};
ghost use Rattle.std.specs.Prelude.{◌≡◌, ℕ, ◌+◌, ◌<◌, ◌≤◌};
ghost use Rattle.pw_graph.specs.Layout.{event_count};
ghost use Rattle.pw_graph.specs.EventWords.{event_node, event_word_of};
ghost use Rattle.board_rule.specs.Layout.{nodes, first};
ghost use Rattle.board_rule.specs.events.EventSteps.{Draws, draws, ticket_of, event_due, StoresEvent, event_stored, Looks, looked, StoresLate};
ghost use Rattle.board_rule.specs.events.EventSteps.{late_stored};

use crate::board::Board;
use crate::rule::BoardToken;
use crate::steps::change::{Becomes, Change, Learned};
use pw_graph::{Event, event_word};

/// Draws a ticket: one `fetch_add` of the ticket word.
pub(crate) fn draw<C: Change>(board: &Board, token: &mut BoardToken, at: usize) -> u64
    requires table { IsOn board.now token.old.table_id }
    requires phase { Draws C.is_driver (layout board.now) token.old.me.0 at }
    requires after { (found : ℕ) → C.after found ≡ draws C.is_driver token.old.me.0 at found }
    requires says { (found : ℕ) → found < event_count board.now.board_shape.shape
        → C.says found }
    ensures same { (token.new.table_id ≡ token.old.table_id) × (token.new.id ≡ token.old.id)
        × (token.new.me.1 ≡ token.old.me.1) }
    ensures after { token.new.me.0 ≡ C.after result }
    ensures says { C.says result }
{
    let word = board.ticket_word();
    board.table.shared.fetch_add::<Learned<C>>(token, word, 1)
}

/// Stores an event in the word of a ticket.
pub(crate) fn store<C: Change>(
    board: &Board,
    token: &mut BoardToken,
    at: usize,
    ticket: u64,
    event: &Event,
)
    requires table { IsOn board.now token.old.table_id }
    requires phase { StoresEvent C.is_driver (layout board.now) token.old.me.0 at }
    requires ticket { ticket ≡ ticket_of C.is_driver token.old.me.0 at }
    requires drawn { ticket < event_count board.now.board_shape.shape }
    requires event { event.now ≡ event_due C.is_driver (layout board.now) token.old.me.0 at }
    requires node { event_node event.now ≤ dummy_node }
    requires after { (found : ℕ)
        → C.after found ≡ event_stored C.is_driver token.old.me.0 at }
    ensures same { (token.new.table_id ≡ token.old.table_id) × (token.new.id ≡ token.old.id)
        × (token.new.me.1 ≡ token.old.me.1) }
    ensures after { token.new.me.0 ≡ C.after (event_word_of event.now) }
{
    let word = board.event_word(ticket);
    let new = event_word(event);
    board.table.shared.store::<Becomes<C>>(token, word, new);
}

/// Loads the status word of a follower in a check.
pub(crate) fn look<C: Change>(board: &Board, token: &mut BoardToken, at: usize) -> u64
    requires table { IsOn board.now token.old.table_id }
    requires phase { Looks (layout board.now) token.old.me.0 at }
    requires inside { at < nodes (layout board.now) }
    requires after { (found : ℕ)
        → C.after found ≡ looked (layout board.now) token.old.me.0 at found }
    ensures same { (token.new.table_id ≡ token.old.table_id) × (token.new.id ≡ token.old.id)
        × (token.new.me.1 ≡ token.old.me.1) }
    ensures after { token.new.me.0 ≡ C.after result }
{
    let word = board.status_word(at);
    board.table.shared.load::<Becomes<C>>(token, word)
}

/// Stores the late set of a cycle, counted from the first.
pub(crate) fn store_late<C: Change>(board: &Board, token: &mut BoardToken, past: usize, late: u64)
    requires table { IsOn board.now token.old.table_id }
    requires phase { StoresLate (layout board.now) token.old.me.0 late }
    requires cycle { first (layout board.now) + past ≡ token.old.me.0.lead.cycle }
    requires within { past < board.now.board_shape.shape.cycles }
    requires after { (found : ℕ) → C.after found ≡ late_stored token.old.me.0 }
    ensures same { (token.new.table_id ≡ token.old.table_id) × (token.new.id ≡ token.old.id)
        × (token.new.me.1 ≡ token.old.me.1) }
    ensures after { token.new.me.0 ≡ C.after late }
{
    let word = board.late_word(past);
    board.table.shared.store::<Becomes<C>>(token, word, late);
}
