//! What is wrong with the words of a command line.
ghost use Rattle.std.specs.Prelude.{◌≡◌, ◌-◌, ◌++◌, map, string_bytes, OnOk};
ghost use Rattle.pod_text.specs.Showing.{shown};
ghost use Rattle.pod_text.specs.UsageFaults.{word, no_command, rule_of, meant_of};
ghost use Rattle.pod_text.specs.UsageFaults.{wrong_word, missing_word, first_fault, later_fault, usage_fault};

use crate::showing::put_shown;
use crate::word_rules::{put_command, put_name, rule_at};
use crate::words::source_of;
use pw_lists::{Memory, Text};

/// The word of a command line with this index; nothing where there is none.
pub(crate) fn word_at(words: &[String], index: u32) -> &[u8]
    ensures { result.now ≡ word (map string_bytes words.now) index }
{
    match words.get(index as usize) {
        Some(word) => word.as_bytes(),
        None => b"".as_slice(),
    }
}

// The first word, which is no command.
#[tactic(auto, unfolding(crate::specs::UsageFaults::no_command))]
fn put_no_command(text: &mut Text, word: &[u8]) -> Result<(), Memory>
    ensures { OnOk result (text.new ≡ text.old ++ no_command word.now) }
{
    put_shown(text, word)?;
    text.extend(b" is no command")?;
    put_command(text, word)
}

// The word before one.
fn word_before(words: &[String], index: u32) -> &[u8]
    ensures { result.now ≡ word (map string_bytes words.now) (index - 1) }
{
    word_at(words, index.saturating_sub(1))
}

// A word as it is shown, and the one before it.
fn put_word(text: &mut Text, words: &[String], index: u32) -> Result<(), Memory>
    ensures { OnOk result (text.new ≡ text.old
        ++ shown (word (map string_bytes words.now) index)) }
{
    put_shown(text, word_at(words, index))
}

fn put_before(text: &mut Text, words: &[String], index: u32) -> Result<(), Memory>
    ensures { OnOk result (text.new ≡ text.old
        ++ shown (word (map string_bytes words.now) (index - 1))) }
{
    put_shown(text, word_before(words, index))
}

// What should be at a place.
fn rule_of(words: &[String], index: u32) -> &'static [u8]
    ensures { result.now ≡ rule_of (map string_bytes words.now) index }
{
    rule_at(source_of(word_at(words, 0)), index)
}

fn put_rule(text: &mut Text, words: &[String], index: u32) -> Result<(), Memory>
    ensures { OnOk result (text.new ≡ text.old
        ++ rule_of (map string_bytes words.now) index) }
{
    text.extend(rule_of(words, index))
}

// Asks for the name that a later word may mean.
fn put_meant(text: &mut Text, words: &[String], index: u32) -> Result<(), Memory>
    ensures { OnOk result (text.new ≡ text.old
        ++ meant_of (map string_bytes words.now) index) }
{
    put_name(
        text,
        source_of(word_at(words, 0)),
        word_at(words, index),
        index,
    )
}

// A later word at fault.
fn put_wrong(text: &mut Text, words: &[String], index: u32) -> Result<(), Memory>
    ensures { OnOk result (text.new ≡ text.old
        ++ wrong_word (map string_bytes words.now) index) }
{
    put_word(text, words, index)?;
    text.extend(b" is wrong here: ")?;
    put_rule(text, words, index)?;
    put_meant(text, words, index)?;
    Ok(())
}

// A word that is missing, after others.
fn put_missing(text: &mut Text, words: &[String], index: u32) -> Result<(), Memory>
    ensures { OnOk result (text.new ≡ text.old
        ++ missing_word (map string_bytes words.now) index) }
{
    text.extend(b"a word is missing after ")?;
    put_before(text, words, index)?;
    text.extend(b": ")?;
    put_rule(text, words, index)?;
    Ok(())
}

// The first word at fault, or that there is none.
fn put_first(text: &mut Text, words: &[String]) -> Result<(), Memory>
    ensures { OnOk result (text.new ≡ text.old ++ first_fault (map string_bytes words.now)) }
{
    if words.is_empty() {
        text.extend(b"a command is missing")
    } else {
        put_no_command(text, word_at(words, 0))
    }
}

// A later word at fault, or one that is missing.
fn put_later(text: &mut Text, words: &[String], index: u32) -> Result<(), Memory>
    ensures { OnOk result (text.new ≡ text.old
        ++ later_fault (map string_bytes words.now) index) }
{
    if (index as usize) < words.len() {
        put_wrong(text, words, index)
    } else {
        put_missing(text, words, index)
    }
}

/// What is wrong with the words at an index.
pub(crate) fn put_usage(text: &mut Text, words: &[String], index: u32) -> Result<(), Memory>
    ensures { OnOk result (text.new ≡ text.old
        ++ usage_fault (map string_bytes words.now) index) }
{
    if index == 0 {
        put_first(text, words)
    } else {
        put_later(text, words, index)
    }
}
