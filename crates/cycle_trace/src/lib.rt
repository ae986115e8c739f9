//! The text of a run: what its link lines did, its events, and what its sinks and meters have; and
//! the events of a trace, read back from their lines.
#![tactic(auto)]

mod event_lines;
mod event_reading;
mod event_words;
mod link_lines;
mod printing;
mod result_lines;
mod words;

pub use event_reading::{TraceFault, read_events};
pub use printing::run_text;
