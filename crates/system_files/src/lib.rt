//! The outside of a program: the words of its command line, the files of the system, and standard
//! output.
#![tactic(auto)]

mod command_line;
mod disk;
mod disk_files;
#[cfg(test)]
mod in_memory;
mod std_sink;
mod unread;
mod why;

pub use command_line::{first_without_text, read_words, words_of};
pub use disk::{Disk, SystemDisk};
pub use disk_files::DiskFiles;
pub use std_sink::StdSink;
pub use unread::Unread;
pub use why::{FileWhy, TellsWhy, why_words};
