//! The state of a node through a run: what it stands for from cycle to cycle and from epoch to
//! epoch, by the cycle function, and what one cycle more asks for.
//!
//! Nothing here knows of boards or of threads: a loop that brings a node what its inputs get may
//! rest on these contracts, whatever brings it.
#![tactic(auto)]

mod frames;
mod node_cycle;
mod one_cycle;
mod preparing;
mod restarting;
mod run_model;

pub use frames::{takes_part, worked_cycles, works_in};
pub use node_cycle::NodeCycle;
pub use one_cycle::work;
pub use preparing::prepare_node;
pub use restarting::{enter_next, restart_in};
pub use run_model::RunModel;
