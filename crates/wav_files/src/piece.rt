//! Waves are read and written piece by piece, so that no memory is written over twice.

/// How many samples a piece has at most.
pub(crate) const PIECE: usize = 4096;
