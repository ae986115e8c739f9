//! How a program of the command line ends, whatever the program: the words that were read are done,
//! or it is said why they were not read; the sentence is put on the error output; and there is a
//! number to end with.
//!
//! A program says by `Utility` what it does with its words and which sentence it has for that, and
//! `run_read` ends it. `put_sentence` is a part of that, for a program that keeps more.
#![tactic(auto)]

mod exit;
mod running;
mod sentences;
mod utility;

pub use exit::Exit;
pub use running::run_read;
pub use sentences::put_sentence;
pub use utility::{Done, Utility};
