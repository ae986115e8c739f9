//! A line with another number of words than its command takes, in words.
ghost use Rattle.std.specs.Prelude.{◌≡◌, ◌==◌, ◌++◌, map, OnOk};
ghost use Rattle.std.specs.List.{list_any};
ghost use Rattle.graph_script.specs.Lexical.{words_of};
ghost use Rattle.graph_script.specs.Printing.{spaced};
ghost use Rattle.graph_script.specs.Table.{label_word};
ghost use Rattle.fault_messages.specs.FormMessages.{form_text, takes_form, takes_none, takes_part, has_file, has_word, blank_part, comment_part, form_said};

use crate::lines::word_of;
use crate::putting::{put_both, put_quoted};
use graph_script::{Name, Param, label_word, name_called, params_of};
use pw_lists::{Memory, Text};

// What parameters are called, a space before each.
fn put_labels(text: &mut Text, params: &[Param]) -> Result<(), Memory>
    ensures { OnOk result
        (text.new ≡ text.old ++ spaced (map (λ p. label_word p.label) params.now)) }
{
    let mut rest = params;
    loop {
        match rest {
            [] => return Ok(()),
            [param, more @ ..] => {
                put_both(text, b" ", label_word(param.label))?;
                rest = more;
            }
        }
    }
}

// The form of a command, as `gain NAME G`; nothing where there is no command.
fn put_form_text(text: &mut Text, name: Option<Name>) -> Result<(), Memory>
    ensures { OnOk result (text.new ≡ text.old ++ form_text name) }
{
    match name {
        None => Ok(()),
        Some(name) => {
            text.extend(graph_script::word_of(name))?;
            put_labels(text, params_of(name))
        }
    }
}

// Whether it is a command without parameters.
fn takes_none(name: Option<Name>) -> bool
    ensures { result ≡ takes_none name }
{
    match name {
        None => false,
        Some(name) => params_of(name).is_empty(),
    }
}

// The words that a command takes, by its form.
#[tactic(auto, unfolding(crate::specs::FormMessages::takes_form))]
fn put_takes_form(text: &mut Text, name: Option<Name>) -> Result<(), Memory>
    ensures { OnOk result (text.new ≡ text.old ++ takes_form name) }
{
    text.extend(b" takes these words: ")?;
    put_form_text(text, name)
}

// What the command takes.
#[tactic(auto, unfolding(crate::specs::FormMessages::takes_part))]
fn put_takes(text: &mut Text, name: Option<Name>) -> Result<(), Memory>
    ensures { OnOk result (text.new ≡ text.old ++ takes_part name) }
{
    if takes_none(name) {
        text.extend(b" takes no words")
    } else {
        put_takes_form(text, name)
    }
}

// Whether a file is the second argument of the command.
fn has_file(name: &[u8]) -> bool
    ensures { result ≡ has_file name.now }
{
    name == b"source".as_slice() || name == b"sink".as_slice()
}

fn has_word(line: &[u8], place: u32) -> bool
    ensures { result ≡ has_word (words_of line.now) place }
{
    0 < word_of(line, place).len()
}

// That words have no blanks, where one may have been meant with blanks.
#[tactic(auto, unfolding(crate::specs::FormMessages::blank_part))]
fn blank_part(line: &[u8]) -> &'static [u8]
    ensures { result.now ≡ blank_part (words_of line.now) }
{
    let name = word_of(line, 0);
    if has_file(name) && has_word(line, 3) {
        b"; a file word has no blanks, and quotes mean nothing"
    } else if name == b"offer".as_slice() && has_word(line, 4) {
        b"; a file word has no blanks, and quotes mean nothing"
    } else if name == b"map".as_slice() && has_word(line, 4) {
        b"; LIST has no blanks"
    } else {
        b""
    }
}

// Whether a number sign is in the line.
fn has_number_sign(line: &[u8]) -> bool
    ensures { result ≡ list_any (λ b. b == 0x23) line.now }
{
    line.iter().any(|b| *b == b'#')
}

// That comments have lines of their own, where the line may end in one; or that words have no
// blanks.
fn comment_part(line: &[u8]) -> &'static [u8]
    ensures { result.now ≡ comment_part line.now }
{
    if has_number_sign(line) {
        b"; a comment is a line of its own"
    } else {
        blank_part(line)
    }
}

/// What the command of a line takes.
#[tactic(auto, unfolding(crate::specs::FormMessages::form_said))]
pub fn put_form(text: &mut Text, name: &[u8], line: &[u8]) -> Result<(), Memory>
    ensures { OnOk result (text.new ≡ text.old ++ form_said name.now line.now) }
{
    put_quoted(text, name)?;
    put_takes(text, name_called(name))?;
    text.extend(comment_part(line))
}
