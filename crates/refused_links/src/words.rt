//! The words of a choice.
ghost use Rattle.std.specs.Prelude.{◌≡◌, ◌++◌, OnOk};
ghost use Rattle.std.specs.List.{flat_map};
ghost use Rattle.std.specs.Fmt.{signed_decimal};
ghost use Rattle.refused_links.specs.Words.{value_words, next_words, enum_words, range_words, step_words, choice_words};

use format_filter::Choice;
use pod_codec::Pod;
use pw_lists::{Memory, Text, append_decimal};

// Appends a number.
fn put_number(text: &mut Text, n: i64) -> Result<(), Memory>
    ensures { OnOk result (text.new ≡ text.old ++ signed_decimal n) }
{
    if n < 0 {
        text.extend(b"-".as_slice())?;
        append_decimal(text, n.unsigned_abs())
    } else {
        append_decimal(text, n.unsigned_abs())
    }
}

// Appends a word and a number.
fn put_after(text: &mut Text, word: &[u8], n: i64) -> Result<(), Memory>
    ensures { OnOk result (text.new ≡ text.old ++ (word.now ++ signed_decimal n)) }
{
    text.extend(word)?;
    put_number(text, n)
}

// Appends the words of a value.
fn put_value(text: &mut Text, value: &Pod) -> Result<(), Memory>
    ensures { OnOk result (text.new ≡ text.old ++ value_words value.now) }
{
    match value {
        Pod::Id(n) => append_decimal(text, u64::from(*n)),
        Pod::Int(n) => put_number(text, i64::from(*n)),
        Pod::Long(n) => put_number(text, *n),
        _ => text.extend(b"a value that is no number".as_slice()),
    }
}

// Appends the words of an alternative that is not the first.
fn put_next(text: &mut Text, value: &Pod) -> Result<(), Memory>
    ensures { OnOk result (text.new ≡ text.old ++ next_words value.now) }
{
    text.extend(b" or ".as_slice())?;
    put_value(text, value)
}

// Appends the words of the alternatives after the first.
fn put_more(text: &mut Text, values: &[Pod]) -> Result<(), Memory>
    ensures { OnOk result (text.new ≡ text.old ++ flat_map next_words values.now) }
{
    for value in values {
        put_next(text, value)?;
    }
    Ok(())
}

// Appends the words of alternatives.
fn put_values(text: &mut Text, values: &[Pod]) -> Result<(), Memory>
    ensures { OnOk result (text.new ≡ text.old ++ enum_words values.now) }
{
    match values.split_first() {
        Some((first, rest)) => {
            put_value(text, first)?;
            put_more(text, rest)
        }
        None => Ok(()),
    }
}

// Appends the words of the least and the greatest number.
#[tactic(auto, unfolding(crate::specs::Words::range_words))]
fn put_range(text: &mut Text, min: i64, max: i64) -> Result<(), Memory>
    ensures { OnOk result (text.new ≡ text.old ++ range_words min max) }
{
    put_number(text, min)?;
    put_after(text, b" to ".as_slice(), max)
}

// Appends the words of a step.
#[tactic(auto, unfolding(crate::specs::Words::step_words))]
fn put_step(text: &mut Text, step: i64) -> Result<(), Memory>
    ensures { OnOk result (text.new ≡ text.old ++ step_words step) }
{
    put_after(text, b" in steps of ".as_slice(), step)
}

/// Appends what a choice admits in words: `48000`, `44100 or 48000`, `1 to 8`, `8000 to 96000 in
/// steps of 100`. Alternatives stand in their order; the pick is not told, and no value but a
/// number is spelled out.
///
/// Public source: PipeWire's documentation, "SPA POD", Choice; the words are this project's.
pub fn put_choice(text: &mut Text, choice: &Choice) -> Result<(), Memory>
    ensures { OnOk result (text.new ≡ text.old ++ choice_words choice.now) }
{
    match choice {
        Choice::Only(value) => put_value(text, value),
        Choice::Enum { alts, .. } => put_values(text, alts.as_slice()),
        Choice::Range { min, max, .. } => put_range(text, *min, *max),
        Choice::Step { min, max, step, .. } => {
            put_range(text, *min, *max)?;
            put_step(text, *step)
        }
    }
}
