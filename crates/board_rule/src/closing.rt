//! The end of a board.
ghost use Rattle.board_rule.specs.OnBoard.{IsOn, layout};
ghost use Rattle.std.specs.Prelude.{◌≡◌, ℕ, ◌+◌, ◌<◌, ◌≤◌, [], ◌∷◌, ◌++◌, List, length, true, false, slice_index};
ghost use Rattle.std.specs.Prelude.{slice_index_or, count_by, filter};
ghost use Rattle.pw_graph.specs.declared.event.Event.{Event};
ghost use Rattle.pw_graph.specs.EventWords.{event_word_of};
ghost use Rattle.pw_graph.specs.History.{is_tick, IsLegalHistory};
ghost use Rattle.pw_graph.specs.Layout.{late_place, event_place, event_count};
ghost use Rattle.board_rule.specs.Layout.{layout_of};
ghost use Rattle.board_rule.specs.events.TicketOrder.{AreInTicketOrder};
ghost use Rattle.board_rule.specs.events.Closing.{HasEndedAll, last_view, kept_view, expected, IsInRange, LateOf, AreRecorded};

use crate::board::Board;
use crate::closed::Closed;
use crate::driver_seat::DriverSeat;
use crate::opening::{Cut, Parts};
use crate::rule::BoardToken;
use pw_graph::{Event, event_of};
use pw_lists::{Items, Room};
use std::alloc::Global;
use std::marker::Brand;

type Words = atomic_table::Closed<Option<u64>, Global>;

// Splits the view off that is kept of the board. After it no seat is split off any more.
fn keep<C: Cut>(board: &Board, token: &mut BoardToken) -> BoardToken
    requires table { IsOn board.now token.old.table_id }
    requires is_driver { token.old.me.0.number ≡ (layout board.now).seats }
    requires ended { HasEndedAll (layout board.now) token.old.me.0 }
    requires left { C.left ≡ last_view (layout board.now) token.old.me.0 }
    requires right { C.right ≡ kept_view (layout board.now) token.old.me.0 }
    ensures left { (token.new.table_id ≡ token.old.table_id) × (token.new.me.0 ≡ C.left) }
    ensures right { result.me.0 ≡ C.right }
{
    board.table.shared.split_seat::<Parts<C>>(token)
}

// The event of a word, with its late set where it is a Tick.
fn event_at(words: &Words, lates: usize, first: u32, word: u64) -> Event
    requires full { (k : ℕ) → 0 ≤ k → k < words.now.words.len
        → slice_index_or words.now.words.filled k false ≡ true }
    requires is { ((e : Event) × (word ≡ event_word_of e) × IsInRange first e
        × LateOf first lates e words.now.words.items) }
    ensures { (e : Event) → word ≡ event_word_of e → IsInRange first e
        → LateOf first lates e words.now.words.items → result ≡ e }
{
    match event_of(word, 0) {
        Event::Tick { cycle, .. } => Event::Tick {
            cycle,
            late: words.word(lates + (cycle - first) as usize),
        },
        event => event,
    }
}

// All events that are recorded.
fn history(
    words: &Words,
    lates: usize,
    events: usize,
    first: u32,
    room: Room<Event>,
) -> Items<Event>
    requires full { (k : ℕ) → 0 ≤ k → k < words.now.words.len
        → slice_index_or words.now.words.filled k false ≡ true }
    requires recorded { ((all : List Event)
        × AreRecorded first lates events all words.now.words.items) }
    requires empty { room.list ≡ [] }
    requires spare { slice_index words.now.words.items 0 ≤ room.spare }
    ensures { (all : List Event) → AreRecorded first lates events all words.now.words.items
        → result ≡ all }
{
    let mut room = room;
    for t in 0..words.word(0) {
        let word = words.word(events + t as usize);
        room.push_spare(event_at(words, lates, first, word));
    }
    room.into_items()
}

impl Board {
    /// Ends the board: its words become the list of its events, in memory that `new` took.
    /// Condition: the seat is the board's driver's, and has ended all cycles.
    pub fn close(self, seat: DriverSeat) -> Closed
        requires table { IsOn self seat.table }
        requires ended { HasEndedAll (layout_of self.board_shape) seat.knows }

        ensures board_shape { result.board_shape ≡ self.board_shape }
        ensures expect { expected result ≡ seat.knows.expect }
        // The events are those of the tickets, in their order, and a legal history of the epoch,
        // with one Tick for each check that the seat made.
        ensures order { AreInTicketOrder (layout_of self.board_shape) seat.knows result.events }
        ensures legal { IsLegalHistory (self.board_shape.shape ∷ []) result.events }
        ensures ticks { count_by is_tick result.events ≡ seat.knows.lead.checks }
        // Those Ticks have exactly the late sets that the seat stored, in their order.
        ensures lates { filter is_tick result.events ≡ seat.knows.lead.lates }
        ensures count { length result.events ≤ event_count self.board_shape.shape }
    {
        let DriverSeat {
            token,
            lead: _,
            reads: _,
            woke: _,
        } = seat;
        let mut token = token;
        let kept = keep::<Brand>(&self, &mut token);
        let lates = self.first_late();
        let events = self.first_event();
        let Board {
            table,
            board_shape,
            rows: _,
            slot_rows: _,
            spare,
        } = self;
        let words = table.close_with(token);
        let events = history(&words, lates, events, board_shape.shape.first, spare);
        words.free();
        Closed {
            board_shape,
            events,
            kept,
        }
    }
}
