//! What happened in a call.

use board_rule::Closed;
use pw_graph::Event;
use pw_lists::Items;

/// The events of a run, and the boards that it closed, one an epoch. Both are empty where no run
/// was made.
#[derive(Drop)]
pub struct Played {
    pub history: Items<Event>,
    pub closed: Items<Closed>,
}
