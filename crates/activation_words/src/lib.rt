//! The calls of a cycle over the steps of a board.
//!
//! The driver's thread calls `begin`, then `claim_driver` until the driver is awake, with at most
//! one `check_late` before that, then `start` and `finish` of the driver's node, and `end`. A loop
//! calls `claim` of its followers, and for each that is awake `start`, its work, and `finish`. None
//! of these calls takes memory, waits or fails.
#![tactic(auto)]

mod answer;
mod beginning;
mod claiming;
mod ending;
mod late_check;
mod running;
mod telling;

pub use answer::Claim;
pub use beginning::begin;
pub use claiming::{claim, claim_driver};
pub use ending::end;
pub use late_check::check_late;
pub use running::{finish, start};
