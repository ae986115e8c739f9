//! What is wrong with a line, in words.
ghost use Rattle.std.specs.Prelude.{◌≡◌, ◌++◌, [], OnOk, slice_index_or};
ghost use Rattle.graph_script.specs.Lexical.{words_of};
ghost use Rattle.word_hints.specs.Guesses.{guesses, question};
ghost use Rattle.pod_text.specs.LineFaults.{why_text, dump_why_text, dump_names, name_part};
ghost use Rattle.pod_text.specs.LineFaults.{mark, line_said, list_line, dump_line};

use crate::fault::ListWhy;
use dump_reading::DumpWhy;
use graph_script::next_word;
use pw_lists::{Memory, Text};
use word_hints::put_question;

/// The names with which the lines of a text begin.
const DUMP_NAMES: [&[u8]; 20] = [
    b"none",
    b"bool",
    b"id",
    b"int",
    b"long",
    b"float",
    b"double",
    b"string",
    b"bytes",
    b"rectangle",
    b"fraction",
    b"bitmap",
    b"fd",
    b"array",
    b"struct",
    b"object",
    b"choice",
    b"sequence",
    b"prop",
    b"control",
];

// What is wrong with a line of a list.
fn why_text(why: ListWhy) -> &'static [u8]
    ensures { result.now ≡ why_text why }
{
    match why {
        ListWhy::Words => b"a line has two words, FRAME GAIN, and a comment its own line",
        ListWhy::Frame => {
            b"a frame is a number from 0 to 4294967295, without a leading zero; \
              1.5 s at 48000 a second are 72000"
        }
        ListWhy::FrameFalls => b"the frame is below that of the point before it",
        ListWhy::Gain => {
            b"a gain is a whole number without +: from -32767 to 32767, in 1/256, \
              so that 128 is 0.5, or from -60dB to 42dB"
        }
    }
}

// What is wrong with a line of a text.
fn dump_why_text(why: DumpWhy) -> &'static [u8]
    ensures { result.now ≡ dump_why_text why }
{
    match why {
        DumpWhy::Deep => b"a value stands more than 16 deep",
        DumpWhy::Missing => b"the text ends where a line should stand",
        DumpWhy::Unended => b"the line is not ended by a line feed",
        DumpWhy::Indent => b"a line is indented by two spaces for each level",
        DumpWhy::Words => b"these are no words that a dump has here",
        DumpWhy::Child => b"an array or a choice holds values of its child type",
        DumpWhy::More => b"the text goes on behind its value",
    }
}

// The first word of a line; nothing where it has none.
fn first_word(line: &[u8]) -> &[u8]
    ensures { result.now ≡ slice_index_or (words_of line.now) 0 [] }
{
    match next_word(line) {
        None => b"".as_slice(),
        Some((word, _rest)) => word,
    }
}

// Asks for the name that a word may mean with which no line of a text begins.
fn put_dump_name(text: &mut Text, word: &[u8]) -> Result<(), Memory>
    ensures { OnOk result (text.new ≡ text.old ++ question [] (guesses word.now dump_names)) }
{
    put_question(text, &[], word, &DUMP_NAMES)
}

// The same of the first word of a line.
fn put_first_name(text: &mut Text, line: &[u8]) -> Result<(), Memory>
    ensures { OnOk result (text.new ≡ text.old
        ++ question [] (guesses (slice_index_or (words_of line.now) 0 []) dump_names)) }
{
    put_dump_name(text, first_word(line))
}

// The same where the words of a line are at fault.
fn put_name_part(text: &mut Text, why: DumpWhy, line: &[u8]) -> Result<(), Memory>
    ensures { OnOk result (text.new ≡ text.old ++ name_part why line.now) }
{
    match why {
        DumpWhy::Words => put_first_name(text, line),
        _ => Ok(()),
    }
}

// The mark that a text in UTF-8 may begin with.
fn mark() -> &'static [u8]
    ensures { result.now ≡ mark }
{
    b"\xEF\xBB\xBF"
}

// What is wrong, by how the line begins.
fn put_said(text: &mut Text, line: &[u8], why: &[u8]) -> Result<(), Memory>
    ensures { OnOk result (text.new ≡ text.old ++ line_said line.now why.now) }
{
    if line.starts_with(mark()) {
        text.extend(b"the line begins with a UTF-8 mark: save the file without it")
    } else if line.starts_with(b"RIFF") {
        text.extend(why)?;
        text.extend(b"; the line begins with RIFF, as a WAV file does")
    } else {
        text.extend(why)
    }
}

/// What is wrong with a line of a list.
pub(crate) fn put_list_line(text: &mut Text, why: ListWhy, line: &[u8]) -> Result<(), Memory>
    ensures { OnOk result (text.new ≡ text.old ++ list_line why line.now) }
{
    put_said(text, line, why_text(why))
}

/// What is wrong with a line of a text.
pub(crate) fn put_dump_line(text: &mut Text, why: DumpWhy, line: &[u8]) -> Result<(), Memory>
    ensures { OnOk result (text.new ≡ text.old ++ dump_line why line.now) }
{
    put_said(text, line, dump_why_text(why))?;
    put_name_part(text, why, line)
}
