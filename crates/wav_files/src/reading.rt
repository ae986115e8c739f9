//! The wave of a file. RIFF WAVE, PCM of 16 bits.
ghost use Rattle.std.specs.Prelude.{◌≡◌, ◌+◌, ◌*◌, ◌/◌, ◌%◌, ◌≤◌, ◌++◌, length, vec_len};
ghost use Rattle.std.specs.Prelude.{vec_capacity, IfOk, IfSome, MatchResult};
ghost use Rattle.pw_lists.specs.Limits.{wav_bytes_limit};
ghost use Rattle.wav_files.specs.Chunks.{chunk_at, chunks_of};
ghost use Rattle.wav_files.specs.FormatChunk.{IsForm};
ghost use Rattle.wav_files.specs.WavReading.{IsReading, data_of, form_after, parts_from, parts_of, passed, samples_in, wav_of};
ghost use Rattle.wav_files.specs.WavSamples.{piece_limit};
ghost use Rattle.wav_files.specs.WavWriting.{IsWave};

use crate::chunks::{FRONT, HEAD, after, body_of, is_data, is_format, is_riff, is_whole, size_of};
use crate::fault::WavFault;
use crate::form::Form;
use crate::format_chunk::form_of;
use crate::piece::PIECE;
use crate::wav::Wav;
use byteorder::{ByteOrder, LittleEndian};
use pw_lists::{Items, Memory};
use std::alloc::Global;

/// The size that means "up to the end of the file".
const ENDLESS: u32 = 0xffff_ffff;

/// What a chunk of samples gives.
#[tactic(auto, unfolding(crate::specs::WavReading::data_of))]
fn data_of(known: Option<Form>, chunk: &[u8]) -> Result<(Form, &[u8]), WavFault>
    requires head { 8 ≤ length chunk.now }
    requires known { IfSome known IsForm }
    ensures parts { MatchResult result
        (λ parts. data_of known (chunk_at chunk.now) ≡ Ok (parts.0, parts.1.now))
        (λ fault. data_of known (chunk_at chunk.now) ≡ Err fault) }
    ensures form { IfOk result (λ parts. IsForm parts.0) }
    ensures whole { IfOk result (λ parts. length parts.1.now % (2 * parts.0.channels) ≡ 0) }
    ensures small { IfOk result (λ parts. length parts.1.now + 8 ≤ length chunk.now) }
{
    let Some(form) = known else {
        return Err(WavFault::NoFmt);
    };
    let frame = 2 * form.channels;
    let size = size_of(chunk);
    let body = body_of(chunk);
    if size == ENDLESS {
        return Ok((form, &body[..body.len() - body.len() % frame as usize]));
    }
    if !is_whole(chunk) {
        return Err(WavFault::Truncated);
    }
    if size % frame != 0 {
        return Err(WavFault::Uneven);
    }
    Ok((form, &body[..size as usize]))
}

/// What is known of the form after a chunk that is passed over.
fn passed(known: Option<Form>, chunk: &[u8]) -> Result<Option<Form>, WavFault>
    requires { 8 ≤ length chunk.now }
    ensures { result ≡ passed known (chunk_at chunk.now) }
{
    if is_whole(chunk) {
        Ok(known)
    } else {
        Err(WavFault::Truncated)
    }
}

/// What is known of the form after a chunk of no samples.
#[tactic(auto, unfolding(crate::specs::WavReading::form_after))]
fn form_after(known: Option<Form>, chunk: &[u8]) -> Result<Option<Form>, WavFault>
    requires head { 8 ≤ length chunk.now }
    requires known { IfSome known IsForm }
    ensures next { result ≡ form_after known (chunk_at chunk.now) }
    ensures form { IfOk result (λ next. IfSome next IsForm) }
{
    match known {
        None if is_format(chunk) => match form_of(chunk) {
            Ok(form) => Ok(Some(form)),
            Err(fault) => Err(fault),
        },
        _ => passed(known, chunk),
    }
}

/// What a row of chunks gives, up to the first one of samples.
fn parts_in(chunks: &[u8]) -> Result<(Form, &[u8]), WavFault>
    ensures parts { MatchResult result
        (λ parts. parts_from None (chunks_of chunks.now) ≡ Ok (parts.0, parts.1.now))
        (λ fault. parts_from None (chunks_of chunks.now) ≡ Err fault) }
    ensures form { IfOk result (λ parts. IsForm parts.0) }
    ensures whole { IfOk result (λ parts. length parts.1.now % (2 * parts.0.channels) ≡ 0) }
    ensures small { IfOk result (λ parts. length parts.1.now ≤ length chunks.now) }
{
    let mut known = None;
    let mut left = chunks;
    'chunks: while left.len() >= HEAD {
        if is_data(left) {
            return data_of(known, left);
        }
        match form_after(known, left) {
            Ok(next) => known = next,
            Err(fault) => return Err(fault),
        }
        left = after(left);
    }
    match known {
        None => Err(WavFault::NoFmt),
        Some(_form) => Err(WavFault::NoData),
    }
}

/// What a file gives.
#[tactic(auto, unfolding(crate::specs::WavReading::parts_of))]
fn parts_of(bytes: &[u8]) -> Result<(Form, &[u8]), WavFault>
    ensures parts { MatchResult result
        (λ parts. parts_of bytes.now ≡ Ok (parts.0, parts.1.now))
        (λ fault. parts_of bytes.now ≡ Err fault) }
    ensures form { IfOk result (λ parts. IsForm parts.0) }
    ensures whole { IfOk result (λ parts. length parts.1.now % (2 * parts.0.channels) ≡ 0) }
    ensures small { IfOk result (λ parts. length parts.1.now ≤ length bytes.now) }
{
    if !is_riff(bytes) {
        return Err(WavFault::NotRiff);
    }
    parts_in(&bytes[FRONT..])
}

/// Appends the samples in a piece of a file. There is room for them.
fn append_piece(bytes: &[u8], to: &mut Vec<i16>)
    requires even { length bytes.now % 2 ≡ 0 }
    requires piece { length bytes.now ≤ 2 * piece_limit }
    requires room { vec_len to.old + length bytes.now / 2 ≤ vec_capacity to.old }
    ensures list { to.new.items ≡ to.old.items ++ samples_in bytes.now }
    ensures capacity { vec_capacity to.old ≤ vec_capacity to.new }
{
    let mut row = [0; PIECE];
    let samples = &mut row[..bytes.len() / 2];
    LittleEndian::read_i16_into(bytes, samples);
    match to.extend_from_slice(samples) {
        Ok(()) => (),
        Err(_refused) => unreachable!(),
    }
}

/// Appends the samples in bytes of an even number. There is room for them.
fn append_samples(bytes: &[u8], to: &mut Vec<i16>)
    requires even { length bytes.now % 2 ≡ 0 }
    requires room { vec_len to.old + length bytes.now / 2 ≤ vec_capacity to.old }
    ensures { to.new.items ≡ to.old.items ++ samples_in bytes.now }
{
    let mut left = bytes;
    'pieces: while !left.is_empty() {
        let (piece, later) = left.split_at(left.len().min(2 * PIECE));
        append_piece(piece, to);
        left = later;
    }
}

/// The samples in bytes of an even number. The room is made at once.
fn samples_of(alloc: Global, bytes: &[u8]) -> Result<Items<i16>, Memory>
    requires { length bytes.now % 2 ≡ 0 }
    ensures { IfOk result (λ samples. samples ≡ samples_in bytes.now) }
{
    let mut samples = Vec::with_capacity(alloc, bytes.len() / 2)?;
    append_samples(bytes, &mut samples);
    Ok(Items::from_vec(samples))
}

/// The wave of a file: the format of its first chunk "fmt ", and the samples of its first chunk
/// "data". Other chunks are passed over, and what follows the samples is not looked at; the size of
/// the file in its head is not compared.
///
/// A fault is the first from the left. `NotRiff`: the file does not begin as a RIFF WAVE file.
/// `NoFmt`, `NoData`: it ends, or its samples begin, before a format; it ends before samples.
/// `Truncated`: a chunk's size goes past the end. `Uneven`: the samples are not whole frames. A
/// size of 2 ^ 32 - 1 of the samples means the whole frames of all that is there.
///
/// A format is checked in this order: less than 16 bytes are `BadFmt`; `Truncated`; less than 40
/// bytes of an extensible one are `BadFmt`; `NotPcm16`, where it is not PCM of 16 bits;
/// `ChannelsOrRate`, where there are not 1 to 8 channels and 1 to 384000 frames a second; `BadFmt`,
/// where a frame is not of two bytes a channel.
///
/// Takes memory only for the samples, once the file is known to have no fault; without it the
/// answer is `Memory`.
#[tactic(auto, unfolding(crate::specs::WavReading::wav_of))]
pub fn read_wav(alloc: Global, bytes: &[u8]) -> Result<Wav, WavFault>
    ensures cases { IsReading (wav_of bytes.now) result }
    ensures wave { length bytes.now ≤ wav_bytes_limit → IfOk result IsWave }
{
    match parts_of(bytes) {
        Err(fault) => Err(fault),
        Ok((form, data)) => match samples_of(alloc, data) {
            Ok(samples) => Ok(Wav {
                rate: form.rate,
                channels: form.channels,
                samples,
            }),
            Err(_none) => Err(WavFault::Memory),
        },
    }
}
