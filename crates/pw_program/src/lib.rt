//! What the program `pipegraph` does with the words of its command line, over any files, output and
//! error output: the top call, then a sentence or notes on the error output, then the number to end
//! with. What the run loaded and put is kept for these; nothing is opened after the run.
#![tactic(auto)]

mod asking;
mod ended;
mod exit;
mod pipegraph;
mod program;
mod running;

pub use asking::Asked;
pub use ended::{Ended, Exit};
pub use exit::run_read;
pub use program::run_program;
