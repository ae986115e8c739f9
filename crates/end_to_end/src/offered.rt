//! Files of one rate each, that several tests find.

use row_files::Held;

/// A WAV file of the sample 7, mono at 44100.
pub const AT_44100: Held<'static> = Held::Bytes(
    b"RIFF\x26\0\0\0WAVEfmt \x10\0\0\0\x01\0\x01\0\x44\xac\0\0\x88\x58\x01\0\x02\0\x10\0\
    data\x02\0\0\0\x07\0",
);

/// A format of the rate 48000.
pub const AT_48000: Held<'static> = Held::Words(&[32, 15, 262147, 3, 65539, 0, 4, 4, 48_000, 0]);
