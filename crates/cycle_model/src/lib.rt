//! The cycle function: the samples of every port in every cycle, as recursion over whole streams,
//! and a plain program that computes it from a plan and its waves.
#![tactic(auto)]

mod cycles;
mod epochs;
mod inputs;
mod kinds;
mod one_cycle;
mod order;
mod received;
mod reference;
mod waves;

pub use received::Received;
pub use reference::render;
pub use waves::waves_fit;
