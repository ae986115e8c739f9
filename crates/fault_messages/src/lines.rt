//! The line of a script, its words, and how bytes begin.
ghost use Rattle.std.specs.Prelude.{◌≡◌, [], option_copied, slice_index_or};
ghost use Rattle.graph_script.specs.Lexical.{words_of};
ghost use Rattle.fault_messages.specs.Places.{begins, line_at};

use graph_script::next_word;
use pw_lists::next_piece;

/// Whether bytes begin with these.
pub fn begins(bytes: &[u8], head: &[u8]) -> bool
    ensures { result ≡ begins bytes.now head.now }
{
    bytes.starts_with(head)
}

/// The word of a line, counted from 0; nothing where it has fewer.
pub fn word_of(line: &[u8], index: u32) -> &[u8]
    ensures { result.now ≡ slice_index_or (words_of line.now) index [] }
{
    let mut rest = line;
    for _ in 0..index {
        match next_word(rest) {
            None => return b"".as_slice(),
            Some((_word, after)) => rest = after,
        }
    }
    match next_word(rest) {
        None => b"".as_slice(),
        Some((word, _after)) => word,
    }
}

/// The line of a script with this number, counted from 1, if it has one.
pub fn line_at(script: &[u8], number: u32) -> Option<&[u8]>
    ensures { option_copied result ≡ line_at script.now number }
{
    let mut rest = script;
    for _ in 1..number {
        match next_piece(rest, b'\n') {
            (_line, None) => return None,
            (_line, Some(after)) => rest = after,
        }
    }
    let (line, _after) = next_piece(rest, b'\n');
    Some(line)
}
