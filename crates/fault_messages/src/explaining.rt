//! The message of a status, with the line of the script that it names, and the notes on a command
//! that was accepted.
ghost use Rattle.std.specs.Prelude.{◌≡◌, ◌++◌, map, string_bytes, option_copied, OnOk, IfOk};
ghost use Rattle.fault_messages.specs.Explaining.{place_of, line_in, line_named, bytes_in};
ghost use Rattle.fault_messages.specs.Explaining.{noted, explained};

use crate::lines::line_at;
use crate::notes::put_notes;
use crate::places::is_line;
use crate::sentences::message;
use pw_lists::{Memory, Text};
use run_results::{Found, Status};
use std::alloc::Global;
use system_files::FileWhy;

// The place that a status names.
fn place_of(status: &Status) -> Option<u32>
    ensures { result ≡ place_of status.now }
{
    match *status {
        Status::Script { line: place, .. }
        | Status::Wav { place, .. }
        | Status::Pod { place, .. }
        | Status::Absent { place }
        | Status::ReadFault { place }
        | Status::WriteFault { place }
        | Status::Limit { place, .. } => Some(place),
        Status::Ok | Status::Usage { .. } | Status::Memory => None,
    }
}

// The line of a script with this number, if its bytes are known and it has one.
fn line_in(script: Option<&[u8]>, place: u32) -> Option<&[u8]>
    ensures { option_copied result ≡ line_in (option_copied script.entry) place }
{
    match script {
        None => None,
        Some(script) => line_at(script, place),
    }
}

// The line at a place, where that is a line of a script.
fn line_named<'a>(
    place: Option<u32>,
    words: &[String],
    script: Option<&'a [u8]>,
) -> Option<&'a [u8]>
    ensures { option_copied result
        ≡ line_named place (map string_bytes words.now) (option_copied script.entry) }
{
    match place {
        None => None,
        Some(place) => {
            if is_line(words, place) {
                line_in(script, place)
            } else {
                None
            }
        }
    }
}

// The bytes of the script, where it was loaded.
fn loaded(script: &Option<Text>) -> Option<&[u8]>
    ensures { option_copied result ≡ script.now }
{
    match script {
        None => None,
        Some(bytes) => Some(bytes.as_slice()),
    }
}

// The same; none where it was not.
fn bytes_in(script: Option<&[u8]>) -> &[u8]
    ensures { result.now ≡ bytes_in (option_copied script.entry) }
{
    match script {
        None => b"".as_slice(),
        Some(bytes) => bytes,
    }
}

// The notes, where all was done.
fn put_noted(
    text: &mut Text,
    status: &Status,
    found: &Found,
    words: &[String],
) -> Result<(), Memory>
    ensures { OnOk result
        (text.new ≡ text.old ++ noted status.now found.now (map string_bytes words.now)) }
{
    match status {
        Status::Ok => put_notes(text, words, &found.what, &found.work),
        _ => Ok(()),
    }
}

/// The message of a status in words, by what the run found, by why the system refused a file, where
/// it did and that is known, and by the words of the command line without the program's name. Where
/// the status names a line of a script, the message has the names of that line. Where all was done,
/// it has a note for each link that was not made, with what both sides admit where that is known,
/// for each sink and meter without a format, for each sink without frames or with samples at a
/// limit of 16 bits, for each meter of a script that makes no cycles, for each sink whose file a
/// later one writes or a source reads, or whose name has a quote or is a dash, for samples at a
/// limit of a wave that another command stored, and for what a check or a filter found. Nothing is
/// loaded.
#[tactic(auto, unfolding(crate::specs::Explaining::explained))]
pub fn explain(
    alloc: Global,
    status: &Status,
    found: &Found,
    why: Option<FileWhy>,
    words: &[String],
) -> Result<Text, Memory>
    ensures { IfOk result (λ text. text
        ≡ explained status.now found.now why (map string_bytes words.now)) }
{
    let script = loaded(&found.script);
    let line = line_named(place_of(status), words, script);
    let mut text = message(alloc, status, why, words, line, bytes_in(script))?;
    put_noted(&mut text, status, found, words)?;
    Ok(text)
}
