//! The text of a value, read back: what `dump_text` of `pod_codec` writes.
#![tactic(auto)]

mod bytes;
mod cutting;
mod elements;
mod fault;
mod heads;
mod lines;
mod names;
mod numbers;
mod reading;
mod strings;
mod values;

pub use fault::{DumpFault, DumpWhy};
pub use reading::read_dump;
