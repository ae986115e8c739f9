//! Sinks, and a stored wave, whose samples reach the limits of 16 bits, in words.
ghost use Rattle.std.specs.Prelude.{◌≡◌, ◌++◌, decimal, map, string_bytes, OnOk};
ghost use Rattle.fault_messages.specs.ClippedSinks.{limit_words, clipped_said, clipped_part, clipped_note};
ghost use Rattle.shown_words.specs.Escaping.{escaped};
ghost use Rattle.fault_messages.specs.ClippedSinks.{wave_said, wave_part, stored_note};

use crate::note_heads::put_note_head;
use crate::places::word_at;
use crate::putting::{put_behind, put_shown_number};
use crate::sink_waves::{at_limit, samples_at};
use pw_lists::{Memory, Text, append_decimal};
use run_results::Store;

#[tactic(auto, unfolding(crate::specs::ClippedSinks::limit_words))]
fn limit_words(count: u64) -> &'static [u8]
    ensures { result.now ≡ limit_words count }
{
    if count == 1 {
        b" sample at the limit of 16 bits"
    } else {
        b" samples at the limit of 16 bits"
    }
}

#[tactic(auto, unfolding(crate::specs::ClippedSinks::clipped_said))]
fn put_clipped(text: &mut Text, name: &[u8], count: u64) -> Result<(), Memory>
    ensures { OnOk result (text.new ≡ text.old ++ clipped_said name.now count) }
{
    put_behind(text, name, b" has ")?;
    append_decimal(text, count)?;
    text.extend(limit_words(count))
}

// The note on so many samples.
fn put_clipped_part(
    text: &mut Text,
    words: &[String],
    number: u32,
    name: &[u8],
    count: u64,
) -> Result<(), Memory>
    ensures { OnOk result (text.new ≡ text.old
        ++ clipped_part (map string_bytes words.now) number name.now count) }
{
    if count == 0 {
        return Ok(());
    }
    put_note_head(text, words, number)?;
    put_clipped(text, name, count)?;
    text.extend(b"\n")
}

/// The note on the line of a sink, by the samples that it stored. Cost: one look at each sample.
pub fn put_clipped_note(
    text: &mut Text,
    words: &[String],
    samples: &[i16],
    number: u32,
    name: &[u8],
) -> Result<(), Memory>
    ensures { OnOk result (text.new ≡ text.old
        ++ clipped_note (map string_bytes words.now) samples.now number name.now) }
{
    put_clipped_part(text, words, number, name, at_limit(samples))
}

// A word as it is shown, with words before and after it, and that so many samples are at the limit.
fn put_shown_count(
    text: &mut Text,
    before: &[u8],
    word: &[u8],
    between: &[u8],
    count: u64,
) -> Result<(), Memory>
    ensures { OnOk result (text.new ≡ text.old ++ (before.now ++ (escaped word.now
        ++ (between.now ++ (decimal count ++ limit_words count))))) }
{
    put_shown_number(text, before, word, between, count, limit_words(count))
}

// That so many samples of a file are at the limit.
#[tactic(auto, unfolding(crate::specs::ClippedSinks::wave_said))]
fn put_wave_said(text: &mut Text, file: &[u8], count: u64) -> Result<(), Memory>
    ensures { OnOk result (text.new ≡ text.old ++ wave_said file.now count) }
{
    put_shown_count(text, b"pipegraph: ", file, b": ", count)
}

fn put_wave_part(text: &mut Text, file: &[u8], count: u64) -> Result<(), Memory>
    ensures { OnOk result (text.new ≡ text.old ++ wave_part file.now count) }
{
    if count == 0 {
        return Ok(());
    }
    put_wave_said(text, file, count)?;
    text.extend(b"\n")
}

/// The note on the wave that is stored in the file of the third word after the command. Cost: one
/// look at each sample.
pub fn put_stored_note(text: &mut Text, words: &[String], stores: &[Store]) -> Result<(), Memory>
    ensures { OnOk result (text.new ≡ text.old
        ++ stored_note (map string_bytes words.now) stores.now) }
{
    match samples_at(stores, 3) {
        None => Ok(()),
        Some(samples) => put_wave_part(text, word_at(words, 3), at_limit(samples)),
    }
}
