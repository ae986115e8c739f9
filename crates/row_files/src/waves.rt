//! WAV files of some samples, at 48000 frames a second.

use pw_lists::{Items, Memory};

/// Frames a second.
const RATE: u32 = 48_000;

/// The numbers before the samples, which have `size` bytes.
fn head(channels: u32, size: u32) -> [u32; 11] {
    let frame = channels.wrapping_mul(2);
    [
        u32::from_le_bytes(*b"RIFF"),
        size.wrapping_add(36),
        u32::from_le_bytes(*b"WAVE"),
        u32::from_le_bytes(*b"fmt "),
        16,
        channels.wrapping_mul(65_536).wrapping_add(1),
        RATE,
        frame.wrapping_mul(RATE),
        frame.wrapping_add(16 * 65_536),
        u32::from_le_bytes(*b"data"),
        size,
    ]
}

/// Appends numbers of four bytes, the lowest byte first.
pub fn append_words(bytes: &mut Items<u8>, words: &[u32]) -> Result<(), Memory> {
    for word in words {
        bytes.extend(word.to_le_bytes().as_slice())?;
    }
    Ok(())
}

fn append_samples(bytes: &mut Items<u8>, samples: &[i16]) -> Result<(), Memory> {
    for sample in samples {
        bytes.extend(sample.to_le_bytes().as_slice())?;
    }
    Ok(())
}

/// Appends a WAV file of these samples.
pub fn append_wave(bytes: &mut Items<u8>, channels: u32, samples: &[i16]) -> Result<(), Memory> {
    let Ok(count) = u32::try_from(samples.len()) else {
        return Err(Memory);
    };
    let head = head(channels, count.wrapping_mul(2));
    append_words(bytes, head.as_slice())?;
    append_samples(bytes, samples)
}
