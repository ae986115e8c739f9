//! The chunks of a file, each given by the bytes from its head to the end of the file. RIFF.
ghost use Rattle.std.specs.Prelude.{◌≡◌, ◌+◌, ◌≤◌, length, bytes_eq};
ghost use Rattle.wav_files.specs.Chunks.{is_riff, chunk_at, is_whole, is_format, is_data, after};

use byteorder::{ByteOrder, LittleEndian};

/// How many bytes are before the first chunk.
pub(crate) const FRONT: usize = 12;

/// How many bytes a chunk's head has.
pub(crate) const HEAD: usize = 8;

/// Whether two texts are the same.
pub(crate) fn is_text(bytes: &[u8], text: &[u8]) -> bool
    ensures { result ≡ bytes_eq bytes.now text.now }
{
    bytes == text
}

/// Whether the bytes begin as those of a WAV file do. The size there is not compared.
pub(crate) fn is_riff(bytes: &[u8]) -> bool
    ensures { result ≡ is_riff bytes.now }
{
    bytes.len() >= FRONT && is_text(&bytes[..4], b"RIFF") && is_text(&bytes[8..12], b"WAVE")
}

/// Whether the chunk is one of a format.
pub(crate) fn is_format(chunk: &[u8]) -> bool
    requires { 8 ≤ length chunk.now }
    ensures { result ≡ is_format (chunk_at chunk.now) }
{
    is_text(&chunk[..4], b"fmt ")
}

/// Whether the chunk is one of samples.
pub(crate) fn is_data(chunk: &[u8]) -> bool
    requires { 8 ≤ length chunk.now }
    ensures { result ≡ is_data (chunk_at chunk.now) }
{
    is_text(&chunk[..4], b"data")
}

/// The size in the chunk's head.
pub(crate) fn size_of(chunk: &[u8]) -> u32
    requires { 8 ≤ length chunk.now }
    ensures { result ≡ (chunk_at chunk.now).size }
{
    LittleEndian::read_u32(&chunk[4..])
}

/// The bytes after the chunk's head.
pub(crate) fn body_of(chunk: &[u8]) -> &[u8]
    requires { 8 ≤ length chunk.now }
    ensures bytes { result.now ≡ (chunk_at chunk.now).body }
    ensures length { length result.now + 8 ≡ length chunk.now }
{
    &chunk[HEAD..]
}

/// Whether all bytes of the chunk are there.
pub(crate) fn is_whole(chunk: &[u8]) -> bool
    requires { 8 ≤ length chunk.now }
    ensures { result ≡ is_whole (chunk_at chunk.now) }
{
    size_of(chunk) as usize <= body_of(chunk).len()
}

/// The bytes after the chunk and its padding.
pub(crate) fn after(chunk: &[u8]) -> &[u8]
    requires { 8 ≤ length chunk.now }
    ensures bytes { result.now ≡ after (chunk_at chunk.now) }
    ensures shorter { length result.now + 8 ≤ length chunk.now }
{
    let size = size_of(chunk) as usize;
    let body = body_of(chunk);
    let next = size + size % 2;
    if next < body.len() {
        &body[next..]
    } else {
        &[]
    }
}
