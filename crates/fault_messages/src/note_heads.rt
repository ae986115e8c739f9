//! How a note on a line of a file begins: the program's name, the file, and the number of the line.
ghost use Rattle.std.specs.Prelude.{◌≡◌, ◌++◌, map, string_bytes, OnOk};
ghost use Rattle.fault_messages.specs.NoteHeads.{note_head};
ghost use Rattle.fault_messages.specs.Places.{word};

use crate::places::word_at;
use crate::putting::put_shown_number;
use pw_lists::{Memory, Text};

// A line of a file.
#[tactic(auto, unfolding(crate::specs::NoteHeads::note_head))]
fn put_line_head(text: &mut Text, file: &[u8], number: u64) -> Result<(), Memory>
    ensures { OnOk result (text.new ≡ text.old ++ note_head file.now number) }
{
    put_shown_number(text, b"pipegraph: ", file, b":", number, b": ")
}

/// A line of the script of a command, at the beginning of a note.
pub fn put_note_head(text: &mut Text, words: &[String], number: u32) -> Result<(), Memory>
    ensures { OnOk result (text.new ≡ text.old
        ++ note_head (word (map string_bytes words.now) 1) number) }
{
    put_line_head(text, word_at(words, 1), u64::from(number))
}

/// A line of the trace of a command, at the beginning of a note.
pub fn put_trace_head(text: &mut Text, words: &[String], number: u64) -> Result<(), Memory>
    ensures { OnOk result (text.new ≡ text.old
        ++ note_head (word (map string_bytes words.now) 2) number) }
{
    put_line_head(text, word_at(words, 2), number)
}
