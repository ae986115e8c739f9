//! The form of a file's samples.

/// `rate` frames a second, each of `channels` samples.
#[derive(Clone, Copy, Drop)]
pub(crate) struct Form {
    pub(crate) rate: u32,
    pub(crate) channels: u32,
}
