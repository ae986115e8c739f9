//! A wave: the samples of a WAV file.

use pw_lists::Items;

/// A wave of `rate` frames a second, each of `channels` samples, one for each channel in turn.
/// The number of samples is a multiple of `channels`.
#[derive(Drop)]
pub struct Wav {
    /// 1 to 384000.
    pub rate: u32,
    /// 1 to 8.
    pub channels: u32,
    pub samples: Items<i16>,
}

/// The wave of a source node.
#[derive(Drop)]
pub struct WavIn {
    pub node: u32,
    pub wav: Wav,
}
