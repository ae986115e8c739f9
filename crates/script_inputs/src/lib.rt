//! The ports of a script's nodes and the waves of its sources: what a plan asks for beside the
//! script, from waves and formats in memory.
//!
//! `inputs_of` goes over the lines once. A node's ports offer what its kind does, those of a source
//! by its wave; an `offer` line narrows its port by its format. The first line that is refused is
//! named.
#![tactic(auto)]

mod fault;
mod given;
mod inputs;
mod lines;
mod making;

pub use fault::InputFault;
pub use inputs::Inputs;
pub use making::inputs_of;
