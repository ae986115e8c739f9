//! No state of a board is stuck, and each run of steps has few advances: laws over the rule that
//! `board_rule` keeps, carried by functions that do nothing.
#![tactic(auto)]

mod progress;

pub use progress::{
    board_goes_on, board_is_never_stuck, end_is_reached, new_boards_can_start, runs_are_bounded,
    some_work_is_there,
};
