//! What is wrong with the words of a command line, in words.
ghost use Rattle.std.specs.Prelude.{◌≡◌, ◌-◌, ◌++◌, map, string_bytes, OnOk};
ghost use Rattle.fault_messages.specs.MainWords.{main_meant, option_meant, wanted};
ghost use Rattle.fault_messages.specs.Places.{word};
ghost use Rattle.fault_messages.specs.Usages.{other_main, main_text, file_rule, script_rule, no_option, option_rule, run_rule};
ghost use Rattle.fault_messages.specs.Usages.{argument_rule, other_rule, word_text, missing_text, usage_text};

use crate::lines::begins;
use crate::main_words::{has_both, is_option, is_script_path, main_meant, option_meant, wanted};
use crate::places::{is_dash, word_at};
use crate::putting::{put_before, put_behind, put_quoted_shown, put_two_quoted};
use pw_lists::{Memory, Text};

// The first word, where no command is near.
#[tactic(auto, unfolding(crate::specs::Usages::other_main))]
fn put_other_main(text: &mut Text, word: &[u8]) -> Result<(), Memory>
    ensures { OnOk result (text.new ≡ text.old ++ other_main word.now) }
{
    if word == b"pipegraph".as_slice() {
        put_behind(text, word, b" is no command, but the name of this program")
    } else if is_script_path(word) {
        put_quoted_shown(
            text,
            word,
            b" is no command; did you mean: pipegraph run ",
            word,
            b"?",
        )
    } else {
        put_behind(text, word, b" is no command")
    }
}

// The first word, which is no command.
fn put_main(text: &mut Text, word: &[u8]) -> Result<(), Memory>
    ensures { OnOk result (text.new ≡ text.old ++ main_text word.now (main_meant word.now)) }
{
    match main_meant(word) {
        None => put_other_main(text, word),
        Some(name) => put_two_quoted(text, word, b" is no command; did you mean ", name, b"?"),
    }
}

// A word where a file is wanted.
#[tactic(auto, unfolding(crate::specs::Usages::file_rule))]
fn put_file_rule(text: &mut Text, word: &[u8]) -> Result<(), Memory>
    ensures { OnOk result (text.new ≡ text.old ++ file_rule word.now) }
{
    if is_dash(word) {
        put_behind(
            text,
            word,
            b" is no file word; standard input is /dev/stdin",
        )
    } else {
        put_behind(
            text,
            word,
            b": a file word has 1 to 255 bytes, the first of them no -",
        )
    }
}

#[tactic(auto, unfolding(crate::specs::Usages::script_rule))]
fn put_script_rule(text: &mut Text, word: &[u8]) -> Result<(), Memory>
    ensures { OnOk result (text.new ≡ text.old ++ script_rule word.now) }
{
    if begins(word, b"-") && !is_dash(word) {
        put_behind(
            text,
            word,
            b" is no SCRIPT; SCRIPT comes before the options",
        )
    } else {
        put_file_rule(text, word)
    }
}

// A word that is no option.
fn put_no_option(text: &mut Text, word: &[u8]) -> Result<(), Memory>
    ensures { OnOk result (text.new ≡ text.old ++ no_option word.now (option_meant word.now)) }
{
    match option_meant(word) {
        None => put_behind(
            text,
            word,
            b" is no option; these are --loops N, --ticks N, --trace and --steal",
        ),
        Some(name) => put_two_quoted(text, word, b" is no option; did you mean ", name, b"?"),
    }
}

// A word where an option is wanted.
#[tactic(auto, unfolding(crate::specs::Usages::option_rule))]
fn put_option_rule(text: &mut Text, word: &[u8]) -> Result<(), Memory>
    ensures { OnOk result (text.new ≡ text.old ++ option_rule word.now) }
{
    if is_option(word) {
        put_behind(text, word, b" is there already")
    } else if has_both(word) {
        put_behind(
            text,
            word,
            b": the value is a word of its own, as in --loops 2",
        )
    } else {
        put_no_option(text, word)
    }
}

// A word of `run`, by its place and the word before it.
#[tactic(auto, unfolding(crate::specs::Usages::run_rule))]
fn put_run_rule(text: &mut Text, place: u32, previous: &[u8], word: &[u8]) -> Result<(), Memory>
    ensures { OnOk result (text.new ≡ text.old ++ run_rule place previous.now word.now) }
{
    if place == 1 {
        put_script_rule(text, word)
    } else if previous == b"--loops".as_slice() {
        put_behind(
            text,
            word,
            b": N of --loops is 0 to 16, without a leading zero",
        )
    } else if previous == b"--ticks".as_slice() {
        put_behind(
            text,
            word,
            b": N of --ticks is 1 to 1000000, without a leading zero",
        )
    } else {
        put_option_rule(text, word)
    }
}

#[tactic(auto, unfolding(crate::specs::Usages::argument_rule))]
fn put_argument_rule(text: &mut Text, name: &[u8], word: &[u8]) -> Result<(), Memory>
    ensures { OnOk result (text.new ≡ text.old ++ argument_rule name.now word.now) }
{
    if name == b"soak".as_slice() {
        put_behind(
            text,
            word,
            b": NUMBER is 0 to 4294967295, without a leading zero",
        )
    } else {
        put_file_rule(text, word)
    }
}

// A word of another command, by its place.
#[tactic(auto, unfolding(crate::specs::Usages::other_rule))]
fn put_other_rule(text: &mut Text, name: &[u8], place: u32, word: &[u8]) -> Result<(), Memory>
    ensures { OnOk result (text.new ≡ text.old ++ other_rule name.now place word.now) }
{
    if wanted(name) < place {
        put_behind(text, word, b" is one word too many")
    } else {
        put_argument_rule(text, name, word)
    }
}

// A word at fault, by its place.
#[tactic(auto, unfolding(crate::specs::Usages::word_text))]
fn put_word(text: &mut Text, words: &[String], place: u32) -> Result<(), Memory>
    ensures { OnOk result (text.new ≡ text.old ++ word_text (map string_bytes words.now) place) }
{
    let name = word_at(words, 0);
    if place == 0 {
        return put_main(text, name);
    }
    let word = word_at(words, place);
    if name == b"run".as_slice() {
        put_run_rule(text, place, word_at(words, place - 1), word)
    } else {
        put_other_rule(text, name, place, word)
    }
}

// The word before a place; the first word for place 0.
fn word_before(words: &[String], place: u32) -> &[u8]
    ensures { result.now ≡ word (map string_bytes words.now) (place - 1) }
{
    word_at(words, place.saturating_sub(1))
}

// A word that is missing after this one.
#[tactic(auto, unfolding(crate::specs::Usages::missing_text))]
fn put_missing(text: &mut Text, before: &[u8]) -> Result<(), Memory>
    ensures { OnOk result (text.new ≡ text.old ++ missing_text before.now) }
{
    put_before(text, b"a word is missing after ", before)
}

/// A word at fault, or one that is missing.
#[tactic(auto, unfolding(crate::specs::Usages::usage_text))]
pub fn put_usage(text: &mut Text, words: &[String], place: u32) -> Result<(), Memory>
    ensures { OnOk result (text.new ≡ text.old ++ usage_text (map string_bytes words.now) place) }
{
    if (place as usize) < words.len() {
        put_word(text, words, place)
    } else {
        put_missing(text, word_before(words, place))
    }
}
