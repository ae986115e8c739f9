//! Files in memory for the tests of command lines, and runs of the program as rows.
#![tactic(auto)]

mod command_line;
mod comparing;
mod filling;
mod held;
mod long_files;
mod rows;
mod script_files;
mod waves;

pub use command_line::{run_line, words_of};
pub use comparing::Stored;
pub use filling::{Faults, SURE, add, files_of};
pub use held::{FileRow, Held};
pub use long_files::LongFiles;
pub use rows::{
    RUN, Row, ends_so, first_unlike, front_unlike, is_so, is_so_with, is_so_with_blanks,
};
pub use script_files::{S_WAV, SCRIPT, SINK, SOURCE};
