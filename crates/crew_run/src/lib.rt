//! One run by several threads, whatever its members are: a `Crew` says what a member's thread does,
//! what the caller's thread leads with, and what the run ends with; `run` starts the members, leads,
//! joins, and collects.
//!
//! A member runs in a thread of its own, unless the caller names it or its start is refused, by the
//! system or by the `Starts` of the `Roster`: then the caller's thread has it while it leads.
#![tactic(auto)]

mod crew;
mod joining;
mod launching;
mod places;
mod roster;
mod scope;
mod starting;
mod starts;

pub use crew::{Crew, Work};
pub use places::{Places, places_for};
pub use roster::Roster;
pub use scope::run;
pub use starting::{Given, Handle};
pub use starts::{AnyStarts, Starts};
