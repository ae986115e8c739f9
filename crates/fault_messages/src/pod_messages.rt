//! Why a POD is refused, in words.
ghost use Rattle.std.specs.Prelude.{◌≡◌, ◌++◌, OnOk};
ghost use Rattle.fault_messages.specs.PodMessages.{pod_words, carried, number_text, size_part, short_part};
ghost use Rattle.fault_messages.specs.PodMessages.{pod_behind, pod_said};

use crate::key_names::put_key;
use pw_lists::{Memory, Text, append_decimal};
use run_results::PodWhy;

/// The letters that a WAV file begins with, as a number of four bytes.
const RIFF: u32 = 0x46464952;

// The words; where a number is carried, it follows them.
fn pod_words(why: PodWhy) -> &'static [u8]
    ensures { result.now ≡ pod_words why }
{
    match why {
        PodWhy::Short { .. } => b"a POD passes the end of what holds it, at byte ",
        PodWhy::TypeUnknown { .. } => b"a type that is not read, at byte ",
        PodWhy::Size { .. } => b"a size that its type does not have, at byte ",
        PodWhy::Uneven { .. } => b"values that do not fill their body, at byte ",
        PodWhy::Deep { .. } => b"a POD more than 16 deep, at byte ",
        PodWhy::Large { .. } => b"a POD of more than 1048576 bytes: ",
        PodWhy::Nul { .. } => b"a string without a nul at its end, at byte ",
        PodWhy::Rest { .. } => b"the file goes on behind its POD, at byte ",
        PodWhy::NotObject => b"the POD is no object",
        PodWhy::KeyTwice { .. } => b"a property stands twice, under key ",
        PodWhy::FlagsChoice { .. } => b"a choice of flags, under key ",
        PodWhy::BadRange { .. } => b"a range that is none, under key ",
        PodWhy::BadStep { .. } => b"a step that is none, under key ",
        PodWhy::EmptyChoice { .. } => b"a choice without a value, under key ",
        PodWhy::NotFormat => b"the object is no format",
        PodWhy::Clash { .. } => b"nothing is left of what the port offers, under key ",
        PodWhy::NotSequence => b"the POD is no control sequence",
        PodWhy::OffsetFalls { .. } => b"an offset below the one before, in control ",
        PodWhy::NotProps { .. } => b"a value that is no properties object, in control ",
        PodWhy::GainForm { .. } => b"a gain that is no Int from -32767 to 32767, in control ",
    }
}

// The number that the fault carries.
fn carried(why: PodWhy) -> Option<u32>
    ensures { result ≡ carried why }
{
    match why {
        PodWhy::Short { offset } => Some(offset),
        PodWhy::TypeUnknown { offset, .. } => Some(offset),
        PodWhy::Size { offset } => Some(offset),
        PodWhy::Uneven { offset } => Some(offset),
        PodWhy::Deep { offset } => Some(offset),
        PodWhy::Large { size } => Some(size),
        PodWhy::Nul { offset } => Some(offset),
        PodWhy::Rest { offset } => Some(offset),
        PodWhy::NotObject | PodWhy::NotFormat | PodWhy::NotSequence => None,
        PodWhy::KeyTwice { key } => Some(key),
        PodWhy::FlagsChoice { key } => Some(key),
        PodWhy::BadRange { key } => Some(key),
        PodWhy::BadStep { key } => Some(key),
        PodWhy::EmptyChoice { key } => Some(key),
        PodWhy::Clash { key } => Some(key),
        PodWhy::OffsetFalls { index } => Some(index),
        PodWhy::NotProps { index } => Some(index),
        PodWhy::GainForm { index } => Some(index),
    }
}

fn put_carried(text: &mut Text, why: PodWhy) -> Result<(), Memory>
    ensures { OnOk result (text.new ≡ text.old ++ number_text (carried why)) }
{
    match carried(why) {
        None => Ok(()),
        Some(n) => append_decimal(text, u64::from(n)),
    }
}

// What is said of a size: that it is the beginning of a WAV file, or what makes a POD.
fn size_part(size: u32) -> &'static [u8]
    ensures { result.now ≡ size_part size }
{
    if size == RIFF {
        b"; it begins with RIFF, as a WAV file does"
    } else {
        b"; pipegraph-pods makes a POD of a list or of a dump's text"
    }
}

// What is said of a file that is shorter than the POD that it begins with.
fn short_part(offset: u32) -> &'static [u8]
    ensures { result.now ≡ short_part offset }
{
    if offset == 0 {
        b"; pipegraph-pods makes a POD of a list or of a dump's text"
    } else {
        b""
    }
}

// What is after the number.
fn put_pod_behind(text: &mut Text, why: PodWhy) -> Result<(), Memory>
    ensures { OnOk result (text.new ≡ text.old ++ pod_behind why) }
{
    match why {
        PodWhy::Short { offset } => text.extend(short_part(offset)),
        PodWhy::Large { size } => text.extend(size_part(size)),
        PodWhy::KeyTwice { key } => put_key(text, key),
        PodWhy::FlagsChoice { key } => put_key(text, key),
        PodWhy::BadRange { key } => put_key(text, key),
        PodWhy::BadStep { key } => put_key(text, key),
        PodWhy::EmptyChoice { key } => put_key(text, key),
        PodWhy::Clash { key } => put_key(text, key),
        PodWhy::GainForm { .. } => text.extend(b"; 256 is 0 dB"),
        _ => Ok(()),
    }
}

/// Why a POD is refused.
pub fn put_pod(text: &mut Text, why: PodWhy) -> Result<(), Memory>
    ensures { OnOk result (text.new ≡ text.old ++ pod_said why) }
{
    text.extend(pod_words(why))?;
    put_carried(text, why)?;
    put_pod_behind(text, why)
}
