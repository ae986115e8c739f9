//! How a call of `pipegraph` ended, and what it found: the types that `pw_top` answers by, for
//! whoever says in words what they mean. What it stored and put is the work of `command_frame`, to
//! which each status is an end with a line (`ending`, `status_line`).
#![tactic(auto)]

mod clash;
mod ending;
mod found;
mod status;
mod status_line;

pub use clash::Clash;
pub use command_frame::{Content, Store, Work};
pub use found::{Found, What};
pub use status::{PodWhy, Status};
