//! Ready queues and parking: how a loop learns which of its nodes were triggered, and how it
//! sleeps until then.
//!
//! Each loop has a queue of node numbers. Whoever triggers a node puts its number into the queue of
//! the node's loop and unparks that loop. A loop takes numbers out of its own queue, and parks
//! where it has nothing to do. So a loop need not try all its nodes to find the one that is ready.
//!
//! `send` unparks the driver's thread too, always. `forward` unparks only who needs it: the loop of
//! each node, but not the one whose thread makes the call; and the driver's thread for a node of
//! its own, or of a loop that no thread was seen to `start`, which the driver's thread may run.
//!
//! Only a loop's own way can be started, and once. So a way that was not started is that of a loop
//! that no thread was seen to run.
#![tactic(auto)]

mod call;
mod dealing;
mod end;
mod forwarding;
mod hand;
mod lane;
mod node_bits;
mod opening;
mod parking;
mod queue;
mod receiving;
mod safety;
mod sending;
mod start_rule;
mod start_view;
mod start_word;
mod starting;
mod way;
mod ways;

pub use call::Look;
pub use hand::Hand;
pub use parking::{ParkingRule, Woken};
pub use queue::QueueRule;
pub use safety::no_start_is_seen;
pub use start_rule::StartRule;
pub use start_view::StartView;
pub use way::Way;
pub use ways::Ways;
