//! The commands.

pub mod automate;
pub mod check_traces;
pub mod dump;
pub mod filter_files;
pub mod groups;
pub mod run;
pub mod soak;
