//! Why a line of a script is refused, in words.
ghost use Rattle.std.specs.Prelude.{◌≡◌, ◌++◌, option_copied, OnOk};
ghost use Rattle.graph_script.specs.Lexical.{words_of};
ghost use Rattle.fault_messages.specs.ScriptMessages.{command_said};
ghost use Rattle.fault_messages.specs.ScriptMessages.{unfit_said};
ghost use Rattle.fault_messages.specs.Places.{lines_before};
ghost use Rattle.fault_messages.specs.ScriptMessages.{unknown_port, taken_said};
ghost use Rattle.fault_messages.specs.ScriptMessages.{named_text, script_said};
ghost use Rattle.fault_messages.specs.Makers.{kind_of};
ghost use Rattle.fault_messages.specs.NameRules.{end_name};
ghost use Rattle.fault_messages.specs.Nearest.{meant};
ghost use Rattle.fault_messages.specs.PortEnds.{ends_said};
ghost use Rattle.fault_messages.specs.WordRules.{unfit_in};
ghost use Rattle.fault_messages.specs.ScriptWords.{script_text, said_before, said_behind, of_word};

use crate::byte_faults::put_byte;
use crate::file_messages::limit_said;
use crate::form_messages::put_form;
use crate::lines::{begins, word_of};
use crate::makers::kind_of;
use crate::name_rules::{end_name, is_pair};
use crate::nearest::meant;
use crate::port_ends::{put_ends, put_port};
use crate::putting::{put_before, put_behind, put_two_quoted};
use crate::unknown_names::put_unknown_name;
use crate::word_rules::{put_rule, unfit_in};
use graph_script::ScriptWhy;
use pw_lists::{Memory, Text};

// Why, where the line is not at hand.
fn script_text(why: ScriptWhy) -> &'static [u8]
    ensures { result.now ≡ script_text why }
{
    match why {
        ScriptWhy::Byte => b"a byte that no script may have",
        ScriptWhy::Command => b"the first word is no command",
        ScriptWhy::Arguments => b"too few words, or too many",
        ScriptWhy::Number => b"a number is out of range, or has the wrong form",
        ScriptWhy::NameForm => b"a name, a port or a file word has the wrong form",
        ScriptWhy::NameTaken => b"the name is taken",
        ScriptWhy::NameUnknown => b"no line before this one makes a node of this name",
        ScriptWhy::PortUnknown => b"the node has no such port",
        ScriptWhy::QuantumLate => b"quantum must stand before every other command",
        ScriptWhy::NotDriverKind => b"only a sink or a meter may drive",
        ScriptWhy::OfferLate => b"offers must stand before the links of their node",
        ScriptWhy::TooMany(which) => limit_said(which),
        ScriptWhy::AsyncLate => b"async must stand before the links of its node",
    }
}

// That the word is no command, and which one is meant, if one is near.
#[tactic(auto, unfolding(crate::specs::ScriptMessages::command_said))]
fn put_command(text: &mut Text, name: &[u8]) -> Result<(), Memory>
    ensures { OnOk result (text.new ≡ text.old ++ command_said name.now) }
{
    if begins(name, b"RIFF") {
        return put_behind(text, name, b" is no command; a WAV file begins with RIFF");
    }
    match meant(name) {
        None => put_behind(text, name, b" is no command"),
        Some(other) => {
            let other = graph_script::word_of(other);
            put_two_quoted(text, name, b" is no command; did you mean ", other, b"?")
        }
    }
}

// The word at fault by its form or its range, with what it has to be.
fn put_unfit(text: &mut Text, why: ScriptWhy, line: &[u8]) -> Result<(), Memory>
    ensures { OnOk result (text.new ≡ text.old ++ unfit_said why (unfit_in (words_of line.now))) }
{
    match unfit_in(line) {
        None => text.extend(script_text(why)),
        Some((param, word)) => {
            put_behind(text, word, b": ")?;
            put_rule(text, param, word)
        }
    }
}

// The kind of an end's node, by the lines before the one of this number.
fn end_kind<'a>(script: &'a [u8], number: u32, end: &[u8]) -> &'a [u8]
    ensures { result.now ≡ kind_of (end_name end.now) (lines_before script.now number) }
{
    kind_of(script, number, end_name(end))
}

// Of two ends the one with no such port, by the lines before the one of this number.
fn put_unknown_end(
    text: &mut Text,
    from: &[u8],
    to: &[u8],
    script: &[u8],
    number: u32,
) -> Result<(), Memory>
    ensures { OnOk result (text.new ≡ text.old
        ++ ends_said from.now (kind_of (end_name from.now) (lines_before script.now number))
        to.now (kind_of (end_name to.now) (lines_before script.now number))) }
{
    put_ends(
        text,
        from,
        end_kind(script, number, from),
        to,
        end_kind(script, number, to),
    )
}

// A port that is not there, by the lines before the one of this number.
#[tactic(auto, unfolding(crate::specs::ScriptMessages::unknown_port))]
fn put_unknown_port(text: &mut Text, line: &[u8], script: &[u8], number: u32) -> Result<(), Memory>
    ensures { OnOk result (text.new ≡ text.old
        ++ unknown_port (words_of line.now) (lines_before script.now number)) }
{
    let (first, second) = (word_of(line, 1), word_of(line, 2));
    if is_pair(line) {
        put_unknown_end(text, first, second, script, number)
    } else {
        put_port(text, first, kind_of(script, number, first), second)
    }
}

// A name that is taken.
#[tactic(auto, unfolding(crate::specs::ScriptMessages::taken_said))]
fn put_taken(text: &mut Text, name: &[u8]) -> Result<(), Memory>
    ensures { OnOk result (text.new ≡ text.old ++ taken_said name.now) }
{
    if name == b"dummy".as_slice() {
        put_behind(text, name, b" is the built-in driver's name")
    } else {
        put_before(text, b"the name is taken: ", name)
    }
}

// What is said before the word after the command.
fn said_before(why: ScriptWhy) -> &'static [u8]
    ensures { result.now ≡ said_before why }
{
    match why {
        ScriptWhy::OfferLate => b"offers must stand before the links of their node: ",
        ScriptWhy::AsyncLate => b"async must stand before the links of its node: ",
        _ => b"",
    }
}

// What is said after it.
fn said_behind(why: ScriptWhy) -> &'static [u8]
    ensures { result.now ≡ said_behind why }
{
    match why {
        ScriptWhy::NotDriverKind => b" is neither a sink nor a meter, and cannot drive",
        _ => b"",
    }
}

fn put_word(text: &mut Text, why: ScriptWhy, line: &[u8]) -> Result<(), Memory>
    ensures { OnOk result (text.new ≡ text.old ++ of_word why (words_of line.now)) }
{
    text.extend(said_before(why))?;
    put_behind(text, word_of(line, 1), said_behind(why))
}

// Why, with the line.
fn put_named(
    text: &mut Text,
    why: ScriptWhy,
    line: &[u8],
    script: &[u8],
    number: u32,
) -> Result<(), Memory>
    ensures { OnOk result (text.new ≡ text.old
        ++ named_text why line.now (lines_before script.now number)) }
{
    match why {
        ScriptWhy::Byte => put_byte(text, line),
        ScriptWhy::Command => put_command(text, word_of(line, 0)),
        ScriptWhy::Arguments => put_form(text, word_of(line, 0), line),
        ScriptWhy::Number | ScriptWhy::NameForm => put_unfit(text, why, line),
        ScriptWhy::QuantumLate | ScriptWhy::TooMany(_) => text.extend(script_text(why)),
        ScriptWhy::NameUnknown => put_unknown_name(text, line, script, number),
        ScriptWhy::NameTaken => put_taken(text, word_of(line, 1)),
        ScriptWhy::PortUnknown => put_unknown_port(text, line, script, number),
        _ => put_word(text, why, line),
    }
}

/// Why the line of this number is refused, with its words where it is at hand, and by the lines
/// before it.
pub fn put_script(
    text: &mut Text,
    why: ScriptWhy,
    line: Option<&[u8]>,
    script: &[u8],
    number: u32,
) -> Result<(), Memory>
    ensures { OnOk result (text.new ≡ text.old ++ script_said why (option_copied line.entry)
        (lines_before script.now number)) }
{
    match line {
        None => text.extend(script_text(why)),
        Some(line) => put_named(text, why, line, script, number),
    }
}
