//! The outside as traits, and objects that take its place in tests.
//!
//! `Files` loads and stores by name, a `Sink` takes the printed text, a `Ticker` says when a late
//! check is due, and a `Gate` is entered by each node before it works. The objects of `in_memory`
//! hold their files and their text in memory: `MemFiles` and `MemSink` fail at the calls that a
//! test names, `SureFiles` and `SureSink` never.
#![tactic(auto)]

mod every;
mod files;
mod gate;
mod in_memory;
mod meet;
mod output;
mod ticker;

pub use every::Every;
pub use files::{FileFail, Files, Loaded};
pub use gate::{Gate, Open};
pub use in_memory::mem_files::MemFiles;
pub use in_memory::mem_sink::MemSink;
pub use in_memory::sure_files::SureFiles;
pub use in_memory::sure_sink::SureSink;
pub use meet::Meet;
pub use output::Sink;
pub use ticker::{Never, Ticker};
