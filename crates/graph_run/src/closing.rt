//! The end of all boards of a run.
ghost use Rattle.std.specs.Prelude.{◌≡◌, ◌≤◌, ◌+◌, ◌++◌, [], length, map, sum_by, count_by};
ghost use Rattle.std.specs.List.{AllZip};
ghost use Rattle.pw_graph.specs.History.{is_tick};
ghost use Rattle.board_rule.specs.events.Closing.{expected};
ghost use Rattle.graph_run.specs.Closing.{HasEnded, events_on, AreClosedOf, events_in, IsLegalOn};

use board_rule::{Board, Closed, DriverSeat};
use pw_graph::Event;
use pw_lists::{Items, Room};

/// What is left of a run's boards: the closed boards in order, and all their events one after the
/// other.
#[derive(Drop)]
pub struct ClosedBoards {
    pub closed: Items<Closed>,
    pub history: Items<Event>,
}

// Appends events. Takes no memory.
fn append(history: &mut Room<Event>, events: &[Event])
    requires { length events.now ≤ history.old.spare }
    ensures list { history.new.list ≡ history.old.list ++ events.now }
    ensures spare { history.old.spare ≤ history.new.spare + length events.now }
{
    for event in events {
        history.push_spare(*event);
    }
}

/// Closes boards whose drivers have ended all cycles, in order. `closed` and `history` are empty,
/// and have room for all boards and for all their events. Takes no memory.
pub fn close_all(
    boards: Items<Board>,
    drivers: Items<DriverSeat>,
    closed: Room<Closed>,
    history: Room<Event>,
) -> ClosedBoards
    requires ended { AllZip HasEnded boards drivers }
    requires empty { (closed.list ≡ []) × (history.list ≡ []) }
    requires room { length boards ≤ closed.spare }
    requires events { events_on boards ≤ history.spare }
    ensures shapes { AreClosedOf boards result.closed }
    ensures expect { map expected result.closed ≡ map (λ s. s.knows.expect) drivers }
    // The events of the boards one after the other are a legal history of their epochs, with a
    // Tick for each check.
    ensures history { result.history ≡ events_in result.closed }
    ensures legal { IsLegalOn boards result.history }
    ensures ticks { count_by is_tick result.history
        ≡ sum_by (λ s. s.knows.lead.checks) drivers }
{
    let mut closed = closed;
    let mut history = history;
    let mut rest = boards.into_vec().into_iter();
    for driver in drivers.into_vec() {
        if let Some(board) = rest.next() {
            let one = board.close(driver);
            append(&mut history, one.events().as_slice());
            closed.push_spare(one);
        }
    }
    ClosedBoards {
        closed: closed.into_items(),
        history: history.into_items(),
    }
}
