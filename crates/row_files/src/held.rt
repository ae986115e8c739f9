//! What files hold, as rows say it.

use crate::waves::{append_wave, append_words};
use pw_lists::{Items, Memory};
use std::alloc::Global;

/// What a file holds.
#[derive(Clone, Copy, Drop)]
pub enum Held<'a> {
    Bytes(&'a [u8]),
    /// Numbers of four bytes, the lowest byte first.
    Words(&'a [u32]),
    /// A WAV file of one channel.
    Mono(&'a [i16]),
    /// A WAV file of two channels.
    Stereo(&'a [i16]),
}

/// A file: its name and what it holds.
pub type FileRow<'a> = (&'a str, Held<'a>);

// Appends what a file holds.
fn append(bytes: &mut Items<u8>, held: Held<'_>) -> Result<(), Memory> {
    match held {
        Held::Bytes(all) => bytes.extend(all),
        Held::Words(words) => append_words(bytes, words),
        Held::Mono(samples) => append_wave(bytes, 1, samples),
        Held::Stereo(samples) => append_wave(bytes, 2, samples),
    }
}

/// The bytes of a file.
pub fn bytes_of(alloc: Global, held: Held<'_>) -> Result<Items<u8>, Memory> {
    let mut bytes = Items::new(alloc);
    match append(&mut bytes, held) {
        Ok(()) => Ok(bytes),
        Err(memory) => Err(memory),
    }
}
