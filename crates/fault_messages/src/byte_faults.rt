//! The first byte of a line that no script may have.
ghost use Rattle.std.specs.Prelude.{◌≡◌, ◌+◌, ◌≤◌, ◌++◌, length, OnOk};
ghost use Rattle.graph_script.specs.Lexical.{is_allowed};
ghost use Rattle.fault_messages.specs.ByteFaults.{byte_place, byte_value, mark, byte_words, riff_part, value_said, byte_said};

use crate::lines::begins;
use crate::putting::put_two_numbers;
use pw_lists::{Memory, Text};

fn is_allowed(b: u8) -> bool
    ensures { result ≡ is_allowed b }
{
    matches!(b, b'\t' | b'\n' | b'\r' | b' '..=b'~')
}

// How many bytes are before it.
fn byte_place(line: &[u8]) -> usize
    ensures value { result ≡ byte_place line.now }
    ensures within { result ≤ length line.now }
{
    line.iter().take_while(|b| is_allowed(**b)).count()
}

fn byte_value(line: &[u8]) -> u8
    ensures { result ≡ byte_value line.now }
{
    match line.get(byte_place(line)) {
        None => 0,
        Some(b) => *b,
    }
}

// The mark that a text in UTF-8 may begin with.
fn mark() -> &'static [u8]
    ensures { result.now ≡ mark }
{
    b"\xEF\xBB\xBF"
}

// What kind of byte it is.
fn byte_words(b: u8) -> &'static [u8]
    ensures { result.now ≡ byte_words b }
{
    if 128 <= b {
        b"only ASCII may be in a script, in comments too: byte "
    } else {
        b"a byte that no script may have: "
    }
}

// What is said of a line that begins as a WAV file does.
fn riff_part(line: &[u8]) -> &'static [u8]
    ensures { result.now ≡ riff_part line.now }
{
    if begins(line, b"RIFF") {
        b"; the line begins with RIFF, as a WAV file does"
    } else {
        b""
    }
}

// Its value and its column.
#[tactic(auto, unfolding(crate::specs::ByteFaults::value_said))]
fn put_value(text: &mut Text, line: &[u8]) -> Result<(), Memory>
    ensures { OnOk result (text.new ≡ text.old ++ value_said line.now) }
{
    let value = byte_value(line);
    let column = (byte_place(line) as u64).saturating_add(1);
    put_two_numbers(
        text,
        byte_words(value),
        u64::from(value),
        b", in column ",
        column,
        riff_part(line),
    )
}

/// Its value and its column, or the mark that the line begins with.
#[tactic(auto, unfolding(crate::specs::ByteFaults::byte_said))]
pub fn put_byte(text: &mut Text, line: &[u8]) -> Result<(), Memory>
    ensures { OnOk result (text.new ≡ text.old ++ byte_said line.now) }
{
    if begins(line, mark()) {
        text.extend(b"the line begins with a UTF-8 mark: save the file without it")
    } else {
        put_value(text, line)
    }
}
