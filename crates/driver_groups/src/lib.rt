//! Several plans at once, each on its own boards and by one thread of its own.
//!
//! `run_parts` takes all memory, then runs the first plan by the caller's thread and each other in
//! a thread of its own; one whose start is refused is run by the caller's thread after the first.
#![tactic(auto)]

mod crew;
mod finishing;
mod group_run;
mod preparing;

pub use group_run::{run_parts, run_parts_with};
