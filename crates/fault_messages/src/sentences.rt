//! The message of a status.
ghost use Rattle.std.specs.Prelude.{◌≡◌, ◌++◌, [], codes, map, string_bytes, option_copied, OnOk, IfOk};
ghost use Rattle.fault_messages.specs.Places.{place_text, file_part};
ghost use Rattle.fault_messages.specs.Message.{is_help_word, asks_help};
ghost use Rattle.fault_messages.specs.Message.{synopsis, at_place, sentence, before, after, message_of, words_message};

use crate::cycle_room::put_room;
use crate::file_messages::{absent_said, put_limit, put_read_said, put_write_said, wav_said};
use crate::help::help;
use crate::places::{put_file, put_place, word_at};
use crate::pod_messages::put_pod;
use crate::putting::put_number;
use crate::script_messages::put_script;
use crate::usages::put_usage;
use pw_lists::{Items, Memory, Text};
use run_results::Status;
use std::alloc::Global;
use system_files::FileWhy;

// The end of the sentence, and the words of all commands.
fn synopsis() -> &'static [u8]
    ensures { result.now ≡ codes "\n" ++ synopsis }
{
    b"\nusage: pipegraph run SCRIPT [--loops N] [--ticks N] [--trace] [--steal]\n\
       \x20      pipegraph dump FILE\n\
       \x20      pipegraph filter A B OUT\n\
       \x20      pipegraph automate IN SEQ OUT\n\
       \x20      pipegraph check SCRIPT TRACE\n\
       \x20      pipegraph soak NUMBER\n\
       \x20      pipegraph groups SCRIPT\n"
}

// A file of a place, and what is wrong with it.
fn put_file_fault(
    text: &mut Text,
    words: &[String],
    place: u32,
    line: Option<&[u8]>,
    what: &[u8],
) -> Result<(), Memory>
    ensures { OnOk result (text.new ≡ text.old
        ++ at_place (map string_bytes words.now) place
        (file_part (option_copied line.entry) ++ what.now)) }
{
    put_place(text, words, place)?;
    text.extend(b": ")?;
    put_file(text, line)?;
    text.extend(what)
}

// A place, and a colon after it.
fn put_colon(text: &mut Text, words: &[String], place: u32) -> Result<(), Memory>
    ensures { OnOk result (text.new ≡ text.old
        ++ (place_text (map string_bytes words.now) place ++ codes ": ")) }
{
    put_place(text, words, place)?;
    text.extend(b": ")
}

// The sentence, without its end.
fn put_sentence(
    text: &mut Text,
    status: &Status,
    why: Option<FileWhy>,
    words: &[String],
    line: Option<&[u8]>,
    script: &[u8],
) -> Result<(), Memory>
    ensures { OnOk result (text.new ≡ text.old ++ sentence status.now why
        (map string_bytes words.now) (option_copied line.entry) script.now) }
{
    match *status {
        Status::Ok => Ok(()),
        Status::Usage { word } => put_usage(text, words, word),
        Status::Script { line: place, why } => {
            put_colon(text, words, place)?;
            put_script(text, why, line, script, place)
        }
        Status::Wav { place, why } => put_file_fault(text, words, place, line, wav_said(why)),
        Status::Pod { place, why } => {
            put_file_fault(text, words, place, line, b"")?;
            put_pod(text, why)
        }
        Status::Absent { place } => put_file_fault(text, words, place, line, absent_said(line)),
        Status::ReadFault { place } => {
            put_file_fault(text, words, place, line, b"")?;
            put_read_said(text, why)
        }
        Status::WriteFault { place: 0 } => text.extend(b"standard output cannot be written"),
        Status::WriteFault { place } => {
            put_file_fault(text, words, place, line, b"")?;
            put_write_said(text, why)
        }
        Status::Limit { place, which } => {
            put_colon(text, words, place)?;
            put_limit(text, which, line)?;
            put_room(text, words, which, line, script, place)
        }
        Status::Memory => text.extend(b"no memory was left"),
    }
}

// What is before it.
fn before(status: &Status) -> &'static [u8]
    ensures { result.now ≡ before status.now }
{
    match status {
        Status::Ok => b"",
        _ => b"pipegraph: ",
    }
}

// What follows it.
fn after(status: &Status) -> &'static [u8]
    ensures { result.now ≡ after status.now }
{
    match status {
        Status::Ok => b"",
        Status::Usage { .. } => synopsis(),
        _ => b"\n",
    }
}

// Whether a word asks for help, or is missing.
fn is_help_word(word: &[u8]) -> bool
    ensures { result ≡ is_help_word word.now }
{
    word == b"".as_slice()
        || word == b"-h".as_slice()
        || word == b"--help".as_slice()
        || word == b"--version".as_slice()
}

// Whether the words ask for help.
fn asks_help(status: &Status, words: &[String]) -> bool
    ensures { result ≡ asks_help status.now (map string_bytes words.now) }
{
    match status {
        Status::Usage { .. } => is_help_word(word_at(words, 0)),
        _ => false,
    }
}

/// The message of a status in words, by why the system refused a file, where it did and that is
/// known, by the words of the command line without the program's name, by the line of the script
/// that is at fault, where it is at hand, and by the script; what the commands do, where the words
/// ask for help. Nothing where all was done.
#[tactic(auto, unfolding(crate::specs::Message::message_of))]
pub fn message(
    alloc: Global,
    status: &Status,
    why: Option<FileWhy>,
    words: &[String],
    line: Option<&[u8]>,
    script: &[u8],
) -> Result<Text, Memory>
    ensures { IfOk result (λ text. text ≡ message_of status.now why (map string_bytes words.now)
        (option_copied line.entry) script.now) }
{
    if asks_help(status, words) {
        return Items::from_slice(alloc, help());
    }
    let mut text = Items::new(alloc);
    text.extend(before(status))?;
    put_sentence(&mut text, status, why, words, line, script)?;
    text.extend(after(status))?;
    Ok(text)
}

fn put_words_message(text: &mut Text, word: Option<u32>) -> Result<(), Memory>
    ensures { OnOk result (text.new ≡ text.old ++ words_message word) }
{
    match word {
        None => text.extend(b"pipegraph: no memory was left\n"),
        Some(n) => put_number(text, b"pipegraph: word ", n, b" is not text in UTF-8\n"),
    }
}

/// The message of words that could not be read: the first that is no text, counted from 1, or that
/// no memory was left.
pub fn words_message(alloc: Global, word: Option<u32>) -> Result<Text, Memory>
    ensures { IfOk result (λ text. text ≡ words_message word) }
{
    let mut text = Items::new(alloc);
    put_words_message(&mut text, word)?;
    Ok(text)
}
