//! The shape of an epoch: its driver, its active nodes, and who waits for whom.

mod activity;
mod counting;
mod driving;
mod linked;

pub(crate) use activity::is_live;
pub use activity::{active_nodes, live_wires};
pub use counting::{bare_nodes, counted};
pub use driving::{Candidate, driver_of};
pub(crate) use linked::is_in;
