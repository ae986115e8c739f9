//! What should be at the places of a command line.
ghost use Rattle.std.specs.Prelude.{◌≡◌, ◌++◌, [], codes, OnOk};
ghost use Rattle.word_hints.specs.Guesses.{guesses, question};
ghost use Rattle.pod_text.specs.WordRules.{commands, in_rule, out_rule, made_rule, values_rule, format_rule, rule_at, format_names, names_at};

use crate::source::Source;
use pw_lists::{Memory, Text};
use word_hints::put_question;

// A file that is read.
fn in_rule(source: Source) -> &'static [u8]
    ensures { result.now ≡ in_rule source }
{
    match source {
        Source::Gains => {
            b"LIST is a file of lines `FRAME GAIN`, or - for standard input; \
              a file has 1 to 255 bytes and does not begin with -"
        }
        Source::Dump => {
            b"TEXT is a file that has what `pipegraph dump` prints, or - for standard \
              input; a file has 1 to 255 bytes and does not begin with -"
        }
    }
}

// A file that is written.
fn out_rule() -> &'static [u8]
    ensures { result.now ≡ out_rule }
{
    b"OUT is a file, or - for standard output; \
      a file has 1 to 255 bytes and does not begin with -"
}

// What should be at a place of `gains` or of `pod`.
#[tactic(auto, unfolding(crate::specs::WordRules::made_rule))]
fn made_rule(source: Source, index: u32) -> &'static [u8]
    ensures { result.now ≡ made_rule source index }
{
    if index == 1 {
        in_rule(source)
    } else if index == 2 {
        out_rule()
    } else {
        b"no word comes after OUT"
    }
}

// The numbers of a format.
fn values_rule() -> &'static [u8]
    ensures { result.now ≡ values_rule }
{
    b"VALUES is A, A|B, MIN..MAX or MIN..MAX/STEP, of whole numbers up to \
      2147483647 without a leading zero; MIN is at most MAX, and STEP at least 1"
}

// What should be at a place of `format`.
#[tactic(auto, unfolding(crate::specs::WordRules::format_rule))]
fn format_rule(index: u32) -> &'static [u8]
    ensures { result.now ≡ format_rule index }
{
    if index == 1 {
        out_rule()
    } else if index == 2 {
        b"after OUT comes rate, as in: format OUT rate 48000 channels 2"
    } else if index == 3 {
        values_rule()
    } else if index == 4 {
        b"after the rate comes channels, as in: format OUT rate 48000 channels 2"
    } else if index == 5 {
        values_rule()
    } else if index == 6 {
        b"after the channels comes mandatory, or nothing"
    } else if index == 7 {
        b"KEY is rate or channels"
    } else {
        b"no word comes after KEY"
    }
}

/// What should be at a place, by what the command reads.
pub(crate) fn rule_at(source: Option<Source>, index: u32) -> &'static [u8]
    ensures { result.now ≡ rule_at source index }
{
    match source {
        Some(source) => made_rule(source, index),
        None => format_rule(index),
    }
}

/// Asks for the command that is near the first word.
pub(crate) fn put_command(text: &mut Text, word: &[u8]) -> Result<(), Memory>
    ensures { OnOk result (text.new ≡ text.old
        ++ question (codes "pipegraph-pods ") (guesses word.now commands)) }
{
    let commands = [b"gains".as_slice(), b"pod".as_slice(), b"format".as_slice()];
    put_question(text, b"pipegraph-pods ", word, &commands)
}

// Asks for the name that is near a word of `format`.
#[tactic(auto, unfolding(crate::specs::WordRules::format_names))]
fn put_format_name(text: &mut Text, word: &[u8], index: u32) -> Result<(), Memory>
    ensures { OnOk result (text.new ≡ text.old
        ++ question [] (guesses word.now (format_names index))) }
{
    if index == 2 {
        put_question(text, &[], word, &[b"rate".as_slice()])
    } else if index == 4 {
        put_question(text, &[], word, &[b"channels".as_slice()])
    } else if index == 6 {
        put_question(text, &[], word, &[b"mandatory".as_slice()])
    } else if index == 7 {
        put_question(
            text,
            &[],
            word,
            &[b"rate".as_slice(), b"channels".as_slice()],
        )
    } else {
        Ok(())
    }
}

/// Asks for the name that is near a word at a later place, by what the command reads.
pub(crate) fn put_name(
    text: &mut Text,
    source: Option<Source>,
    word: &[u8],
    index: u32,
) -> Result<(), Memory>
    ensures { OnOk result (text.new ≡ text.old
        ++ question [] (guesses word.now (names_at source index))) }
{
    match source {
        Some(_source) => Ok(()),
        None => put_format_name(text, word, index),
    }
}
