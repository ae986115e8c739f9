//! Where a fault is, as people write it.
ghost use Rattle.std.specs.Prelude.{◌≡◌, ◌++◌, map, string_bytes, option_copied, OnOk};
ghost use Rattle.fault_messages.specs.Places.{word, has_quote, is_dash, reads_script, is_line, script_place, place_text};
ghost use Rattle.fault_messages.specs.Places.{file_word, file_part};
ghost use Rattle.graph_script.specs.Lexical.{words_of};

use crate::lines::word_of;
use pw_lists::{Memory, Text, append_decimal};
use shown_words::put_escaped;

/// The place of a trace.
const TRACE_PLACE: u32 = u32::MAX;

/// A word of the command line; nothing where it has fewer.
pub fn word_at(words: &[String], index: u32) -> &[u8]
    ensures { result.now ≡ word (map string_bytes words.now) index }
{
    match words.get(index as usize) {
        None => b"".as_slice(),
        Some(word) => word.as_bytes(),
    }
}

// Whether the command reads a script.
fn reads_script(words: &[String]) -> bool
    ensures { result ≡ reads_script (map string_bytes words.now) }
{
    let name = word_at(words, 0);
    name == b"run".as_slice() || name == b"groups".as_slice() || name == b"check".as_slice()
}

/// Whether the place is a line of a script.
pub fn is_line(words: &[String], place: u32) -> bool
    ensures { result ≡ is_line (map string_bytes words.now) place }
{
    reads_script(words) && place != 0 && place != TRACE_PLACE
}

// A place of a command that reads a script.
fn put_script_place(text: &mut Text, words: &[String], place: u32) -> Result<(), Memory>
    ensures { OnOk result
        (text.new ≡ text.old ++ script_place (map string_bytes words.now) place) }
{
    if place == 0 {
        return put_escaped(text, word_at(words, 1));
    }
    if place == TRACE_PLACE {
        return put_escaped(text, word_at(words, 2));
    }
    put_escaped(text, word_at(words, 1))?;
    text.extend(b":")?;
    append_decimal(text, u64::from(place))
}

/// The file of a place, with the line where it is a line of it.
pub fn put_place(text: &mut Text, words: &[String], place: u32) -> Result<(), Memory>
    ensures { OnOk result
        (text.new ≡ text.old ++ place_text (map string_bytes words.now) place) }
{
    if reads_script(words) {
        put_script_place(text, words, place)
    } else {
        put_escaped(text, word_at(words, place))
    }
}

/// Whether a quote is in the word.
pub fn has_quote(word: &[u8]) -> bool
    ensures { result ≡ has_quote word.now }
{
    word.iter().any(|b| *b == b'"')
}

/// Whether the word is a dash, which other programs may take otherwise.
pub fn is_dash(word: &[u8]) -> bool
    ensures { result ≡ is_dash word.now }
{
    word == b"-".as_slice()
}

/// The file that a line names.
pub fn file_word(line: &[u8]) -> &[u8]
    ensures { result.now ≡ file_word (words_of line.now) }
{
    if word_of(line, 0) == b"offer".as_slice() {
        word_of(line, 3)
    } else {
        word_of(line, 2)
    }
}

/// The file that the line names, if there is a line.
pub fn put_file(text: &mut Text, line: Option<&[u8]>) -> Result<(), Memory>
    ensures { OnOk result (text.new ≡ text.old ++ file_part (option_copied line.entry)) }
{
    match line {
        None => Ok(()),
        Some(line) => {
            put_escaped(text, file_word(line))?;
            text.extend(b": ")
        }
    }
}
