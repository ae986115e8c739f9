//! The driver's thread on the board of an epoch, with all loops.

use board_rule::DriverSeat;
use data_loop::LoopState;

/// The driver's seat, the loop that has the drivers, and the others by their numbers; whether a
/// cycle is begun, and whether it has had its check.
#[derive(Drop)]
pub struct Crew {
    pub seat: DriverSeat,
    pub own: LoopState,
    pub others: Vec<LoopState>,
    pub waits: bool,
    pub checked: bool,
}
