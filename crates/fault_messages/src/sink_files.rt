//! Which files sinks have stored, and notes on those that a later sink writes too or a source
//! reads, and on a script that is overwritten.
ghost use Rattle.std.specs.Prelude.{◌≡◌, ◌++◌, map, string_bytes, OnOk};
ghost use Rattle.fault_messages.specs.SinkFiles.{writes, writes_later, is_written, is_written_later};
ghost use Rattle.fault_messages.specs.SinkFiles.{quotes_kept, dash_kept, name_note};
ghost use Rattle.fault_messages.specs.SinkFiles.{overwritten, later_note, read_too, source_note};
ghost use Rattle.fault_messages.specs.SinkFiles.{script_too, script_note};

use crate::note_heads::put_note_head;
use crate::places::{has_quote, is_dash, word_at};
use crate::putting::put_behind;
use crate::script_lines::is_read;
use graph_script::Line;
use pw_lists::{Memory, Text};
use run_results::Store;

// Whether a store is of this file.
fn writes(file: &[u8], store: &Store) -> bool
    ensures { result ≡ writes file.now store.now }
{
    store.name.as_slice() == file
}

// Whether it is of this file and of a line after this one.
fn writes_later(number: u32, file: &[u8], store: &Store) -> bool
    ensures { result ≡ writes_later number file.now store.now }
{
    number < store.place && writes(file, store)
}

/// Whether there is a store of this file.
pub fn is_written(stores: &[Store], file: &[u8]) -> bool
    ensures { result ≡ is_written stores.now file.now }
{
    let mut rest = stores;
    while let [store, more @ ..] = rest {
        if writes(file, store) {
            return true;
        }
        rest = more;
    }
    false
}

// Whether there is one of a line after this one.
fn is_written_later(stores: &[Store], number: u32, file: &[u8]) -> bool
    ensures { result ≡ is_written_later stores.now number file.now }
{
    let mut rest = stores;
    while let [store, more @ ..] = rest {
        if writes_later(number, file, store) {
            return true;
        }
        rest = more;
    }
    false
}

#[tactic(auto, unfolding(crate::specs::SinkFiles::overwritten))]
fn put_overwritten(text: &mut Text, file: &[u8]) -> Result<(), Memory>
    ensures { OnOk result (text.new ≡ text.old ++ overwritten file.now) }
{
    put_behind(
        text,
        file,
        b" is written by a later sink too; a regular file keeps what is written last",
    )
}

/// The note on a file of the sink of this line that a later sink writes.
pub fn put_later_note(
    text: &mut Text,
    words: &[String],
    stores: &[Store],
    number: u32,
    file: &[u8],
) -> Result<(), Memory>
    ensures { OnOk result (text.new ≡ text.old
        ++ later_note (map string_bytes words.now) stores.now number file.now) }
{
    if !is_written_later(stores, number, file) {
        return Ok(());
    }
    put_note_head(text, words, number)?;
    put_overwritten(text, file)?;
    text.extend(b"\n")
}

#[tactic(auto, unfolding(crate::specs::SinkFiles::quotes_kept))]
fn put_quotes_kept(text: &mut Text, file: &[u8]) -> Result<(), Memory>
    ensures { OnOk result (text.new ≡ text.old ++ quotes_kept file.now) }
{
    put_behind(
        text,
        file,
        b" is the whole name of the file; quotes are a part of it",
    )
}

#[tactic(auto, unfolding(crate::specs::SinkFiles::dash_kept))]
fn dash_kept() -> &'static [u8]
    ensures { result.now ≡ dash_kept }
{
    b"\"-\" is the name of the file; standard output is /dev/stdout"
}

/// The note on the name of the file of a sink, where other programs may take it otherwise.
pub fn put_name_note(
    text: &mut Text,
    words: &[String],
    number: u32,
    file: &[u8],
) -> Result<(), Memory>
    ensures { OnOk result (text.new ≡ text.old
        ++ name_note (map string_bytes words.now) number file.now) }
{
    if has_quote(file) {
        put_note_head(text, words, number)?;
        put_quotes_kept(text, file)?;
        text.extend(b"\n")
    } else if is_dash(file) {
        put_note_head(text, words, number)?;
        text.extend(dash_kept())?;
        text.extend(b"\n")
    } else {
        Ok(())
    }
}

#[tactic(auto, unfolding(crate::specs::SinkFiles::read_too))]
fn put_read_too(text: &mut Text, file: &[u8]) -> Result<(), Memory>
    ensures { OnOk result (text.new ≡ text.old ++ read_too file.now) }
{
    put_behind(
        text,
        file,
        b" is a source's file too: it was read first, and written after that",
    )
}

/// The note on a file that a source of the script reads.
pub fn put_source_note(
    text: &mut Text,
    words: &[String],
    lines: &[Line],
    number: u32,
    file: &[u8],
) -> Result<(), Memory>
    ensures { OnOk result (text.new ≡ text.old
        ++ source_note (map string_bytes words.now) lines.now number file.now) }
{
    if !is_read(lines, file) {
        return Ok(());
    }
    put_note_head(text, words, number)?;
    put_read_too(text, file)?;
    text.extend(b"\n")
}

#[tactic(auto, unfolding(crate::specs::SinkFiles::script_too))]
fn put_script_too(text: &mut Text, file: &[u8]) -> Result<(), Memory>
    ensures { OnOk result (text.new ≡ text.old ++ script_too file.now) }
{
    put_behind(
        text,
        file,
        b" is the script itself: it was read first, and its text is gone now",
    )
}

/// The note on a file that is the script.
pub fn put_script_note(
    text: &mut Text,
    words: &[String],
    number: u32,
    file: &[u8],
) -> Result<(), Memory>
    ensures { OnOk result (text.new ≡ text.old
        ++ script_note (map string_bytes words.now) number file.now) }
{
    if word_at(words, 1) != file {
        return Ok(());
    }
    put_note_head(text, words, number)?;
    put_script_too(text, file)?;
    text.extend(b"\n")
}
