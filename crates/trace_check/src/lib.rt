//! Whether the events of a trace are a legal history of a plan, and if not, after which event no
//! legal history can follow.
//!
//! `check` goes over the events once. Of the cycle that it is in it keeps which nodes have started
//! and finished, as sets of node numbers, and of the epoch which nodes have to finish before each.
//! `reason_of` goes the same way, and says what is wrong where they stop.
#![tactic(auto)]

mod causes;
mod checking;
mod following;
mod next_event;
mod node_sets;
mod order;
mod reasons;
mod so_far;
mod trace;

pub use causes::Cause;
pub use checking::{Verdict, check};
pub use reasons::{Reason, reason_of};
pub use trace::{Finding, check_trace};
