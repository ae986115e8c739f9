//! The bytes of a wave. RIFF WAVE, PCM of 16 bits.
ghost use Rattle.std.specs.Prelude.{◌≡◌, ◌+◌, ◌*◌, ◌≤◌, ◌++◌, length, OnOk, OnErr};
ghost use Rattle.std.specs.Prelude.{vec_len, vec_capacity};
ghost use Rattle.wav_files.specs.WavReading.{samples_in, wav_of};
ghost use Rattle.wav_files.specs.WavSamples.{piece_limit};
ghost use Rattle.wav_files.specs.WavWriting.{IsWave, sample_bytes, wav_bytes, wav_header};

use crate::header::{HEADER, header_of};
use crate::piece::PIECE;
use crate::wav::Wav;
use byteorder::{ByteOrder, LittleEndian};
use pw_lists::{Items, Memory};
use std::alloc::Global;
use std::mem;

/// Writes samples over twice as many bytes.
fn fill_samples(samples: &[i16], to: &mut [u8])
    requires { length to.old ≡ 2 * length samples.now }
    ensures bytes { to.new ≡ sample_bytes samples.now }
    ensures read_back { samples_in to.new ≡ samples.now }
{
    for i in 0..samples.len() {
        LittleEndian::write_i16(&mut to[2 * i..], samples[i]);
    }
}

/// Appends the bytes of a piece of a wave. There is room for them.
fn append_piece(samples: &[i16], to: &mut Vec<u8>)
    requires piece { length samples.now ≤ piece_limit }
    requires room { vec_len to.old + 2 * length samples.now ≤ vec_capacity to.old }
    ensures bytes { to.new.items ≡ to.old.items ++ sample_bytes samples.now }
    ensures capacity { vec_capacity to.old ≤ vec_capacity to.new }
    ensures read_back { samples_in (sample_bytes samples.now) ≡ samples.now }
{
    let mut row = [0; 2 * PIECE];
    let bytes = &mut row[..2 * samples.len()];
    fill_samples(samples, bytes);
    match to.extend_from_slice(bytes) {
        Ok(()) => (),
        Err(_refused) => unreachable!(),
    }
}

/// Appends the bytes of samples. There is room for them.
fn append_samples(samples: &[i16], to: &mut Vec<u8>)
    requires room { vec_len to.old + 2 * length samples.now ≤ vec_capacity to.old }
    ensures bytes { to.new.items ≡ to.old.items ++ sample_bytes samples.now }
    ensures read_back { samples_in (sample_bytes samples.now) ≡ samples.now }
{
    let mut left = samples;
    'pieces: while !left.is_empty() {
        let (piece, later) = left.split_at(left.len().min(PIECE));
        append_piece(piece, to);
        left = later;
    }
}

/// Appends the bytes before the samples of a wave. There is room for them.
fn append_header(wav: &Wav, to: &mut Vec<u8>)
    requires wave { IsWave wav.now }
    requires room { vec_len to.old + 44 ≤ vec_capacity to.old }
    ensures bytes { to.new.items
        ≡ to.old.items ++ wav_header wav.now.rate wav.now.channels (2 * length wav.now.samples) }
    ensures capacity { vec_capacity to.old ≤ vec_capacity to.new }
{
    let header = header_of(wav.rate, wav.channels, (2 * wav.samples.len()) as u32);
    match to.extend_from_slice(&header) {
        Ok(()) => (),
        Err(_refused) => unreachable!(),
    }
}

/// Appends the file of a wave to a vector. After `Memory` the vector is as before.
fn append_wave(wav: &Wav, to: &mut Vec<u8>) -> Result<(), Memory>
    requires { IsWave wav.now }
    ensures ok { OnOk result (to.new.items ≡ to.old.items ++ wav_bytes wav.now) }
    ensures read_back { OnOk result (wav_of (wav_bytes wav.now) ≡ Ok wav.now) }
    ensures err { OnErr result (to.new.items ≡ to.old.items) }
{
    to.reserve(HEADER + 2 * wav.samples.len())?;
    append_header(wav, to);
    append_samples(wav.samples.as_slice(), to);
    Ok(())
}

/// Appends the file of a wave: 44 bytes, then two for each sample. `read_wav` reads this wave from
/// it.
/// After `Memory` the list is as before.
///
/// The wave has a rate of 1 to 384000, 1 to 8 channels, whole frames and at most 134217728 samples.
/// Makes the room at once, then fills it; nothing else is taken of memory.
pub fn write_wav(alloc: Global, wav: &Wav, to: &mut Items<u8>) -> Result<(), Memory>
    requires { IsWave wav.now }
    ensures ok { OnOk result (to.new ≡ to.old ++ wav_bytes wav.now) }
    ensures read_back { OnOk result (wav_of (wav_bytes wav.now) ≡ Ok wav.now) }
    ensures err { OnErr result (to.new ≡ to.old) }
{
    let mut bytes = mem::replace(to, Items::new(alloc)).into_vec();
    let answer = append_wave(wav, &mut bytes);
    *to = Items::from_vec(bytes);
    answer
}
