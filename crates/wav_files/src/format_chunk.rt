//! The format chunk of a file. WAVEFORMATEX and WAVEFORMATEXTENSIBLE.
ghost use Rattle.std.specs.Prelude.{◌≡◌, ◌+◌, ◌≤◌, length, drop, true, IfOk, IfSome, if◌then◌else◌};
ghost use Rattle.byteorder.specs.Endian.{little_number};
ghost use Rattle.wav_files.specs.Chunks.{chunk_at};
ghost use Rattle.wav_files.specs.FormatChunk.{IsForm, is_extensible, is_pcm16, is_form, named_form, form_of};

use crate::chunks::{body_of, is_text, is_whole, size_of};
use crate::fault::WavFault;
use crate::form::Form;
use byteorder::{ByteOrder, LittleEndian};
use pw_lists::{CHANNELS_LIMIT, RATE_LIMIT};

/// The tag of plain PCM.
const PLAIN: u16 = 1;

/// The tag of an extensible chunk, which names what it is by a subformat.
const EXTENSIBLE: u16 = 0xfffe;

/// The subformat of PCM.
const PCM: [u8; 16] = [
    0x01, 0, 0, 0, 0, 0, 0x10, 0, 0x80, 0, 0, 0xaa, 0, 0x38, 0x9b, 0x71,
];

/// The number of 16 bits at a place.
fn u16_at(bytes: &[u8], place: usize) -> u16
    requires { place + 2 ≤ length bytes.now }
    ensures { result ≡ little_number 2 (drop place bytes.now) }
{
    LittleEndian::read_u16(&bytes[place..])
}

/// Whether the chunk says that samples are PCM of 16 bits.
fn is_pcm16(chunk: &[u8]) -> bool
    requires whole { 24 ≤ length chunk.now }
    requires extensible { is_extensible (chunk_at chunk.now) ≡ true → 48 ≤ length chunk.now }
    ensures { result ≡ is_pcm16 (chunk_at chunk.now) }
{
    let fields = body_of(chunk);
    let tag = u16_at(fields, 0);
    let pcm = tag == PLAIN || (tag == EXTENSIBLE && is_text(&fields[24..40], PCM.as_slice()));
    pcm && u16_at(fields, 14) == 16
}

/// The form that the chunk names, if it is one.
fn named_form(chunk: &[u8]) -> Option<Form>
    requires { 24 ≤ length chunk.now }
    ensures form { result ≡ (if is_form (named_form (chunk_at chunk.now))
        then Some (named_form (chunk_at chunk.now)) else None) }
    ensures in_range { IfSome result IsForm }
{
    let fields = body_of(chunk);
    let rate = LittleEndian::read_u32(&fields[4..]);
    let channels = u32::from(u16_at(fields, 2));
    if 1 <= rate && rate <= RATE_LIMIT && 1 <= channels && channels <= CHANNELS_LIMIT {
        Some(Form { rate, channels })
    } else {
        None
    }
}

/// The form that a format chunk gives. Faults, in order: `BadFmt` for less than 16 bytes,
/// `Truncated`, `BadFmt` for less than 40 bytes of an extensible chunk, `NotPcm16`,
/// `ChannelsOrRate`, and `BadFmt` where a frame is not of two bytes a channel.
#[tactic(auto, unfolding(crate::specs::FormatChunk::form_of))]
pub(crate) fn form_of(chunk: &[u8]) -> Result<Form, WavFault>
    requires { 8 ≤ length chunk.now }
    ensures form { result ≡ form_of (chunk_at chunk.now) }
    ensures in_range { IfOk result IsForm }
{
    let size = size_of(chunk);
    if size < 16 {
        return Err(WavFault::BadFmt);
    }
    if !is_whole(chunk) {
        return Err(WavFault::Truncated);
    }
    let fields = body_of(chunk);
    if u16_at(fields, 0) == EXTENSIBLE && size < 40 {
        return Err(WavFault::BadFmt);
    }
    if !is_pcm16(chunk) {
        return Err(WavFault::NotPcm16);
    }
    let Some(form) = named_form(chunk) else {
        return Err(WavFault::ChannelsOrRate);
    };
    if u32::from(u16_at(fields, 12)) != 2 * form.channels {
        return Err(WavFault::BadFmt);
    }
    Ok(form)
}
