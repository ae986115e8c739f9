//! The words of a command line.
ghost use Rattle.std.specs.Prelude.{◌≡◌, map, string_bytes, Ok, IfOk};
ghost use Rattle.pod_text.specs.Words.{is_dash, is_file_word, made_to, made_behind, source_of, other_of, request_of};
ghost use Rattle.pod_text.specs.Words.{HasSoundFormat};
ghost use Rattle.command_frame.specs.Words.{IsAsked};
ghost use Rattle.pod_text.specs.declared.words.Request.TheVariants as R;

use crate::format_words::read_format_words;
use crate::source::Source;
use command_frame::Misread;
use format_filter::Format;
use pw_lists::{Items, Text};
use std::alloc::Global;

/// What words ask for. A file is a word of its own; `-` is standard input or output.
#[derive(Drop)]
pub enum Request {
    /// The commands in words.
    Help,
    /// The version.
    Version,
    /// The object of an offer.
    Format {
        to: Text,
        format: Format,
    },
    /// What is made of a file.
    Make {
        source: Source,
        from: Text,
        to: Text,
    },
}

/// Whether it is the word for standard input or output.
pub(crate) fn is_dash(word: &[u8]) -> bool
    ensures { result ≡ is_dash word.now }
{
    word == b"-".as_slice()
}

/// Whether a word may name a file, or is `-`.
pub(crate) fn is_file_word(word: &String) -> bool
    ensures { result ≡ is_file_word (string_bytes word.now) }
{
    let bytes = word.as_bytes();
    match bytes {
        [] => false,
        [first, ..] => is_dash(bytes) || (*first != b'-' && bytes.len() <= 255),
    }
}

// The request of what is made of a file.
fn make_request(
    alloc: Global,
    source: Source,
    from: &String,
    to: &String,
) -> Result<Request, Misread>
    ensures read { IsAsked
        (Ok (R.Make source (string_bytes from.now) (string_bytes to.now))) result }
    ensures sound { IfOk result HasSoundFormat }
{
    match Items::from_slice(alloc, from.as_bytes()) {
        Err(_memory) => Err(Misread::Memory),
        Ok(from) => match Items::from_slice(alloc, to.as_bytes()) {
            Ok(to) => Ok(Request::Make { source, from, to }),
            Err(_memory) => Err(Misread::Memory),
        },
    }
}

// The words after the file that is read.
fn read_out(
    alloc: Global,
    source: Source,
    from: &String,
    rest: &[String],
) -> Result<Request, Misread>
    ensures read { IsAsked (made_to source (string_bytes from.now) (map string_bytes rest.now))
        result }
    ensures sound { IfOk result HasSoundFormat }
{
    match rest {
        [] => Err(Misread::Word(2)),
        [to, more @ ..] => {
            if !is_file_word(to) {
                Err(Misread::Word(2))
            } else if more.is_empty() {
                make_request(alloc, source, from, to)
            } else {
                Err(Misread::Word(3))
            }
        }
    }
}

// The words after `gains` or `pod`.
fn read_made_words(alloc: Global, source: Source, rest: &[String]) -> Result<Request, Misread>
    ensures read { IsAsked (made_behind source (map string_bytes rest.now)) result }
    ensures sound { IfOk result HasSoundFormat }
{
    match rest {
        [] => Err(Misread::Word(1)),
        [from, more @ ..] => {
            if is_file_word(from) {
                read_out(alloc, source, from, more)
            } else {
                Err(Misread::Word(1))
            }
        }
    }
}

/// What is made of a file by the command of this name.
pub(crate) fn source_of(name: &[u8]) -> Option<Source>
    ensures { result ≡ source_of name.now }
{
    if name == b"gains".as_slice() {
        Some(Source::Gains)
    } else if name == b"pod".as_slice() {
        Some(Source::Dump)
    } else {
        None
    }
}

// What the words ask for, where the first is no command that reads a file.
fn read_others(alloc: Global, name: &[u8], rest: &[String]) -> Result<Request, Misread>
    ensures read { IsAsked (other_of name.now (map string_bytes rest.now)) result }
    ensures sound { IfOk result HasSoundFormat }
{
    if name == b"format".as_slice() {
        read_format_words(alloc, rest)
    } else if name == b"--help".as_slice() || name == b"-h".as_slice() {
        Ok(Request::Help)
    } else if name == b"--version".as_slice() {
        Ok(Request::Version)
    } else {
        Err(Misread::Word(0))
    }
}

/// What the words ask for, or the first word at fault.
pub(crate) fn read_words(alloc: Global, words: &[String]) -> Result<Request, Misread>
    ensures read { IsAsked (request_of (map string_bytes words.now)) result }
    ensures sound { IfOk result HasSoundFormat }
{
    match words {
        [] => Err(Misread::Word(0)),
        [name, rest @ ..] => {
            match source_of(name.as_bytes()) {
                Some(source) => read_made_words(alloc, source, rest),
                None => read_others(alloc, name.as_bytes(), rest),
            }
        }
    }
}
