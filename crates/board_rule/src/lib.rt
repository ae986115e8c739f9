//! The rule over the words and the views of one board.
#![tactic(auto)]

mod board;
mod board_shape;
mod closed;
mod closing;
mod copying;
mod dealing;
mod driver_seat;
mod expect;
mod indexes;
mod layout;
mod lead;
mod left;
mod loop_seat;
mod node_indexes;
mod opening;
mod owners;
mod progress;
mod rows;
mod rule;
mod safety;
mod seat;
mod shares;
mod slots;
mod starts;
mod steps;
mod view;
mod writing;

pub use board::Board;
pub use board_shape::BoardShape;
pub use closed::Closed;
pub use driver_seat::DriverSeat;
pub use expect::Expect;
pub use left::{left_at_start, left_of, tell};
pub use loop_seat::LoopSeat;
pub use node_indexes::index_in;
pub use rule::BoardRule;
pub use safety::buffers_are_safe;
pub use seat::BoardSeat;
pub use view::{
    BlockView, DriverPhase, DriverView, Found, NodeView, Owners, Phase, ReadView, Trail, View,
    WriteView,
};
