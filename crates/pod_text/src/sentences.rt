//! The sentence of a status, for people.
ghost use Rattle.std.specs.Prelude.{◌≡◌, ◌++◌, [], map, string_bytes, codes, OnOk, IfOk};
ghost use Rattle.pod_text.specs.UsageText.{usage_text, version_text};
ghost use Rattle.pod_text.specs.Sentences.{at_word, too_long_said, line_fault, absent_said};
ghost use Rattle.pod_text.specs.LineFaults.{list_line, dump_line};
ghost use Rattle.pod_text.specs.UsageFaults.{word};
ghost use Rattle.word_hints.specs.ShellSigns.{shell_hint};
ghost use Rattle.pod_text.specs.Sentences.{refused_text, fault_text, after, sentence_of};

use crate::fault::ListWhy;
use crate::line_faults::{put_dump_line, put_list_line};
use crate::showing::{put_line, put_shown};
use crate::source::Source;
use crate::status::Status;
use crate::usage_faults::{put_usage, word_at};
use crate::words::source_of;
use dump_reading::DumpWhy;
use pw_lists::{Items, Memory, Text, append_decimal};
use std::alloc::Global;
use system_files::{FileWhy, why_words};
use word_hints::shell_hint;

/// The commands in words.
pub(crate) fn usage_text() -> &'static [u8]
    ensures { result.now ≡ usage_text }
{
    b"usage: pipegraph-pods gains LIST OUT\n\
       \x20      pipegraph-pods pod TEXT OUT\n\
       \x20      pipegraph-pods format OUT rate VALUES channels VALUES [mandatory KEY]\n\
       \x20      LIST has lines `FRAME GAIN`; TEXT is what `pipegraph dump` prints;\n\
       \x20      VALUES is A, A|B, MIN..MAX or MIN..MAX/STEP;\n\
       \x20      `-` is standard input or output\n"
}

/// The version.
pub(crate) fn version_text() -> &'static [u8]
    ensures { result.now ≡ version_text }
{
    b"pipegraph-pods 0.1\n"
}

// What is wrong with the file that a word names.
fn put_at(text: &mut Text, words: &[String], place: u32, what: &[u8]) -> Result<(), Memory>
    ensures { OnOk result (text.new ≡ text.old
        ++ at_word (map string_bytes words.now) place what.now) }
{
    put_shown(text, word_at(words, place))?;
    text.extend(b": ")?;
    text.extend(what)
}

// What is wrong with a file that the system refuses, and why, where that is known.
fn put_refused(
    text: &mut Text,
    words: &[String],
    place: u32,
    what: &[u8],
    reason: Option<FileWhy>,
) -> Result<(), Memory>
    ensures { OnOk result (text.new ≡ text.old
        ++ refused_text (map string_bytes words.now) place what.now reason) }
{
    put_at(text, words, place, what)?;
    text.extend(why_words(reason))
}

// More than a POD may have, by what was read.
fn too_long_said(source: Option<Source>) -> &'static [u8]
    ensures { result.now ≡ too_long_said source }
{
    match source {
        Some(Source::Gains) => {
            b"it has more than 21845 points, so its POD would be longer than 1048576 bytes"
        }
        _ => b"its POD would be longer than 1048576 bytes",
    }
}

// A line of what was read that is at fault, up to what is wrong with it.
fn put_line_head(text: &mut Text, words: &[String], number: u64, line: &[u8]) -> Result<(), Memory>
    ensures { OnOk result (text.new ≡ text.old
        ++ line_fault (map string_bytes words.now) number line.now []) }
{
    put_at(text, words, 1, b"line ")?;
    append_decimal(text, number)?;
    text.extend(b": ")?;
    put_line(text, line)?;
    text.extend(b": ")
}

// A line of a list that is at fault.
fn put_list_fault(
    text: &mut Text,
    words: &[String],
    number: u64,
    why: ListWhy,
    line: &[u8],
) -> Result<(), Memory>
    ensures { OnOk result (text.new ≡ text.old
        ++ line_fault (map string_bytes words.now) number line.now (list_line why line.now)) }
{
    put_line_head(text, words, number, line)?;
    put_list_line(text, why, line)
}

// A line of a text that is at fault.
fn put_dump_fault(
    text: &mut Text,
    words: &[String],
    number: u64,
    why: DumpWhy,
    line: &[u8],
) -> Result<(), Memory>
    ensures { OnOk result (text.new ≡ text.old
        ++ line_fault (map string_bytes words.now) number line.now (dump_line why line.now)) }
{
    put_line_head(text, words, number, line)?;
    put_dump_line(text, why, line)
}

// The sign of the shell in the name that a word is.
fn put_hint(text: &mut Text, words: &[String], place: u32) -> Result<(), Memory>
    ensures { OnOk result (text.new ≡ text.old
        ++ shell_hint (word (map string_bytes words.now) place)) }
{
    text.extend(shell_hint(word_at(words, place)))
}

// A file that is not there.
fn put_absent(text: &mut Text, words: &[String], place: u32) -> Result<(), Memory>
    ensures { OnOk result (text.new ≡ text.old ++ at_word (map string_bytes words.now) place
        (absent_said (word (map string_bytes words.now) place))) }
{
    put_at(text, words, place, b"there is no such file")?;
    put_hint(text, words, place)?;
    Ok(())
}

// What is wrong, without what is before and after it.
fn put_fault(
    text: &mut Text,
    status: &Status,
    words: &[String],
    line: &[u8],
    reason: Option<FileWhy>,
) -> Result<(), Memory>
    ensures { OnOk result (text.new ≡ text.old
        ++ fault_text status.now (map string_bytes words.now) line.now reason) }
{
    match *status {
        Status::Ok => Ok(()),
        Status::Usage { word } => put_usage(text, words, word),
        Status::List { line: number, why } => { put_list_fault(text, words, number, why, line) }
        Status::Text { line: number, why } => { put_dump_fault(text, words, number, why, line) }
        Status::TooLong => {
            let read = source_of(word_at(words, 0));
            put_at(text, words, 1, too_long_said(read))
        }
        Status::Absent { place } => put_absent(text, words, place),
        Status::ReadFault { place } => {
            put_refused(text, words, place, b"it cannot be read", reason)
        }
        Status::WriteFault { place } => {
            put_refused(text, words, place, b"it cannot be written", reason)
        }
        Status::PutFault => text.extend(b"standard output cannot be written"),
        Status::Limit { place } => put_at(text, words, place, b"it is longer than 33554432 bytes"),
        Status::Memory => text.extend(b"no memory was left"),
    }
}

// What follows it.
fn after(status: &Status) -> &'static [u8]
    ensures { result.now ≡ after status.now }
{
    match status {
        Status::Usage { .. } => usage_text(),
        _ => b"".as_slice(),
    }
}

/// The sentence of a status that is not Ok, by the words of the command line, the line of the list
/// that it names, and why the last load or store failed.
pub(crate) fn sentence(
    alloc: Global,
    status: &Status,
    words: &[String],
    line: &[u8],
    reason: Option<FileWhy>,
) -> Result<Text, Memory>
    ensures { IfOk result (λ text. text
        ≡ sentence_of status.now (map string_bytes words.now) line.now reason) }
{
    let mut text = Items::from_slice(alloc, b"pipegraph-pods: ".as_slice())?;
    put_fault(&mut text, status, words, line, reason)?;
    text.extend(b"\n")?;
    text.extend(after(status))?;
    Ok(text)
}
