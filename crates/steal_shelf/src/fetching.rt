//! How a thread takes a cell from the shelf, and how it puts it back.
ghost use Rattle.std.specs.Prelude.{◌<◌, IfSome, IfNone, length};
ghost use Rattle.steal_shelf.specs.Seats.{cells_of, IsSeatOf, HasCell, IsAllowed};
ghost use Rattle.steal_shelf.specs.Fetching.{HasFetched, HasFoundOut, HasPutBack, AreOthersLeft};

use crate::shelf::{Shelf, ShelfSeat};
use crate::token::{fetch_token, put_token};
use data_loop::LoopState;

impl Shelf {
    /// One try of a cell: the loop of its node, where it is on its way through the boards; the seat
    /// then knows that it took it so, one time more. None exactly where the one exchange of this call found the
    /// cell out, also where it is with this seat; then the seat knows one more try of it. Takes no
    /// memory, does not wait.
    /// Condition: the seat is this shelf's, and there is such a cell.
    pub fn fetch(&self, seat: &mut ShelfSeat, cell: u32) -> Option<LoopState>
        requires seat { IsSeatOf self.now seat.old }
        requires cell { cell < length (cells_of self.now) }
        ensures some { IfSome result (λ state. HasFetched cell state seat.old seat.new
            × IsAllowed self.now cell state) }
        ensures none { IfNone result (HasFoundOut cell seat.old seat.new) }
        ensures seat { IsSeatOf self.now seat.new }
        ensures others { AreOthersLeft cell seat.old seat.new }
    {
        fetch_token(self, &mut seat.tokens[cell as usize])
    }

    /// Puts a cell back that the seat has; the seat then knows that it left it so, one time more.
    /// Takes no memory, does not wait.
    /// Condition: the seat is this shelf's and has the cell, and the state is one that the cell may
    /// have on its way.
    pub fn put_back(&self, seat: &mut ShelfSeat, cell: u32, state: LoopState)
        requires seat { IsSeatOf self.now seat.old }
        requires cell { cell < length (cells_of self.now) }
        requires has { HasCell seat.old cell }
        requires allowed { IsAllowed self.now cell state }
        ensures back { HasPutBack cell state seat.old seat.new }
        ensures seat { IsSeatOf self.now seat.new }
        ensures others { AreOthersLeft cell seat.old seat.new }
    {
        put_token(self, &mut seat.tokens[cell as usize], state);
    }
}
