//! The greatest numbers that the commands of a script may have.
use pw_graph::NODES;

/// The nodes of a script: their numbers are those below `DUMMY`.
pub(crate) const NODES_LIMIT: usize = NODES - 1;

/// The lines `cycles` and `drain`.
pub(crate) const EPOCHS_LIMIT: u32 = 1024;

/// The cycles of a line.
pub(crate) const CYCLES_LIMIT: u32 = 1_000_000;

/// A driver's priority.
pub(crate) const PRIORITY_LIMIT: u32 = 1_000_000;

/// A data loop's number.
pub(crate) const LOOP_LIMIT: u32 = 15;

/// The bytes of a file word.
pub(crate) const FILE_BYTES_LIMIT: usize = 255;

/// The bytes of a node's name after its first.
pub(crate) const NAME_REST_LIMIT: usize = 30;
