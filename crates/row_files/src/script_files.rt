//! A script, its source and what its sink keeps, and the files of a test.

use crate::held::{FileRow, Held};
use pw_lists::{Items, Memory};
use std::alloc::Global;

/// One source to one sink: the source is on line 2, the sink on line 3.
pub const SCRIPT: &'static [u8] =
    b"quantum 2\nsource s s.wav\nsink o o.wav\nlink s.out o.in\ncycles 2\n";

/// A WAV file of the samples 7 8 9, mono at 48000.
pub const SOURCE: [u8; 50] = [
    b'R', b'I', b'F', b'F', 0x2a, 0, 0, 0, b'W', b'A', b'V', b'E', b'f', b'm', b't', b' ', 0x10, 0,
    0, 0, 1, 0, 1, 0, 0x80, 0xbb, 0, 0, 0, 0x77, 1, 0, 2, 0, 0x10, 0, b'd', b'a', b't', b'a', 6, 0,
    0, 0, 7, 0, 8, 0, 9, 0,
];

/// The file that the sink writes: 7 8 9 0.
pub const SINK: [u8; 52] = [
    b'R', b'I', b'F', b'F', 0x2c, 0, 0, 0, b'W', b'A', b'V', b'E', b'f', b'm', b't', b' ', 0x10, 0,
    0, 0, 1, 0, 1, 0, 0x80, 0xbb, 0, 0, 0, 0x77, 1, 0, 2, 0, 0x10, 0, b'd', b'a', b't', b'a', 8, 0,
    0, 0, 7, 0, 8, 0, 9, 0, 0, 0,
];

/// The source, under its name.
pub const S_WAV: FileRow<'static> = ("s.wav", Held::Bytes(&SOURCE));

/// `len` blanks. Nothing is ensured of them, since a list that long is not to be computed in a
/// proof.
pub fn blanks(alloc: Global, len: usize) -> Result<Items<u8>, Memory> {
    Items::filled(alloc, len, b' ')
}
