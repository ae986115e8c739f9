//! The links of a graph: how each is negotiated, and what is refused.
//!
//! `Links` are the links that are there, in the order in which they were made. `link` decides by
//! the first of its conditions that holds: it is there already, it would close a loop, its ports
//! have no format or no number of buffers in common, there are 256 links; else it is made, and its
//! ports take the format. `unlink` takes one away, and a node without a link gives its formats up.
//! Links at a marked node are asynchronous, and may close loops.
#![tactic(auto)]

mod common_formats;
mod link;
mod links;
mod negotiation;
mod outgoing;
mod reachability;
mod reached;
mod unlinking;

pub use link::Link;
pub use links::Links;
pub use negotiation::Linked;
pub use unlinking::Unlinked;
