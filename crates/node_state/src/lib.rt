//! Node states: what a node keeps between quanta, so that its outputs, quantum after quantum, are
//! its kind's function of whole streams.
//!
//! `NodeState::prepare` takes all memory; `process` does one quantum. What a state keeps *stands
//! for* what the node has received so far (`specs/StandsFor.antt`): a source's place in its file, a
//! square's place in its period, a delay's line, a sink's stream, a meter's peak, and nothing for
//! the other kinds.
#![tactic(auto)]

mod kind_state;
mod kinds;
mod node_state;
mod preparing;
mod processing;
mod rows;
mod taking;

pub use node_state::NodeState;
