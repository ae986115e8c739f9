//! The outside in memory: files and outputs that fail where they are set to, or never.

pub mod mem_files;
pub mod mem_sink;
pub mod names;
pub mod sure_files;
pub mod sure_sink;
