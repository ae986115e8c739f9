//! What is left of a board when its last step is made.
ghost use Rattle.std.specs.Prelude.{◌≡◌};

use crate::board_shape::BoardShape;
use crate::rule::BoardToken;
use pw_graph::Event;
use pw_lists::Items;

/// A closed board: what it was made for, the samples that its seats agreed on, and the events of
/// its whole epoch in the order of their tickets. Only `Board::close` makes one.
#[derive(Drop)]
pub struct Closed {
    pub(crate) board_shape: BoardShape,
    pub(crate) events: Items<Event>,
    pub(crate) kept: BoardToken,
}

impl Closed {
    /// The events of the epoch, in the order of their tickets. Takes no memory.
    pub fn events(&self) -> &Items<Event>
        ensures { result.now ≡ self.now.events }
    {
        &self.events
    }
}
