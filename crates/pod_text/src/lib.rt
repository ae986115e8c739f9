//! PODs from text: what people write, as the values that `pipegraph` reads.
//!
//! `read_gains` reads a list of gains at frames, and `sequence_of` makes the control sequence that
//! has these points; `make_pod` does what the words of a command line ask for.
#![tactic(auto)]

mod choices;
mod decibels;
mod delivering;
mod fault;
mod format_words;
mod gain_lines;
mod gains;
mod line_faults;
mod loading;
mod making;
mod numbers;
mod offers;
mod requests;
mod sentences;
mod sequences;
mod showing;
mod source;
mod status;
mod top;
mod usage_faults;
mod word_rules;
mod words;

pub use choices::choice_said;
pub use dump_reading::DumpWhy;
pub use fault::{ListFault, ListWhy};
pub use gains::read_gains;
pub use sequences::sequence_of;
pub use source::Source;
pub use status::Status;
pub use top::{Report, make_pod};
