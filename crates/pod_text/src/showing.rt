//! Words of others in a sentence: in quotes, without what may control a terminal.
ghost use Rattle.std.specs.Prelude.{◌≡◌, ◌++◌, ◌-◌, codes, slice_index_or, [], OnOk};
ghost use Rattle.graph_script.specs.Lexical.{lines_of};
ghost use Rattle.pod_text.specs.Showing.{shown, shown_line};

use pw_lists::{Memory, Text, next_piece};
use shown_words::{put_escaped, put_escaped_within};

/// How many bytes of a line are shown, at most.
const LINE: usize = 60;

/// A word in quotes.
pub(crate) fn put_shown(text: &mut Text, word: &[u8]) -> Result<(), Memory>
    ensures { OnOk result (text.new ≡ text.old ++ shown word.now) }
{
    text.extend(b"\"")?;
    put_escaped(text, word)?;
    text.extend(b"\"")
}

/// The beginning of a line in quotes.
pub(crate) fn put_line(text: &mut Text, line: &[u8]) -> Result<(), Memory>
    ensures { OnOk result (text.new ≡ text.old ++ shown_line line.now) }
{
    text.extend(b"\"")?;
    put_escaped_within(text, line, LINE)?;
    text.extend(b"\"")
}

/// The line of a text, counted from 1; nothing where it has fewer.
pub(crate) fn line_at(text: &[u8], number: u64) -> &[u8]
    ensures { result.now ≡ slice_index_or (lines_of text.now) (number - 1) [] }
{
    let mut rest = text;
    for _ in 1..number {
        match next_piece(rest, b'\n') {
            (_line, None) => return b"".as_slice(),
            (_line, Some(after)) => rest = after,
        }
    }
    let (line, _after) = next_piece(rest, b'\n');
    line
}
