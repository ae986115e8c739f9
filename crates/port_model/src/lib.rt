//! The ports of a graph: what each offers, its format, and its count of buffers.
//!
//! A port offers what its kind does, narrowed by the files of a script, and with only the values
//! that the ports of its node share. Once it has a format it offers only that, until its node
//! gives its formats up. `Ports` has all nodes; contracts see it as a list of nodes with the states
//! of their ports.
#![tactic(auto)]

mod buffers;
mod copying;
mod forms;
mod kind_offers;
mod narrowing;
mod places;
mod port_state;
mod ports;
mod release;
mod sharing;
mod values;

pub use narrowing::Narrowed;
pub use port_state::{Node, PortState};
pub use ports::Ports;
pub use sharing::Offered;
