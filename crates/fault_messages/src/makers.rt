//! The lines that make nodes, the one that makes a node of a name, and the kind of node.
ghost use Rattle.std.specs.Prelude.{◌≡◌, option_copied};
ghost use Rattle.graph_script.specs.Lexical.{words_of};
ghost use Rattle.fault_messages.specs.Makers.{names_new, is_maker, makes, maker, is_made, kind_in, kind_of};
ghost use Rattle.fault_messages.specs.Places.{lines_before};

use crate::lines::word_of;
use graph_script::{Form, Name, name_called, params_of};
use pw_lists::next_piece;

// Whether the first word of a command names a new node.
fn names_new(name: Option<Name>) -> bool
    ensures { result ≡ names_new name }
{
    let Some(name) = name else {
        return false;
    };
    match params_of(name) {
        [] => false,
        [first, _more @ ..] => matches!(first.form, Form::New),
    }
}

/// Whether the line makes a node.
pub fn is_maker(line: &[u8]) -> bool
    ensures { result ≡ is_maker line.now }
{
    names_new(name_called(word_of(line, 0)))
}

// Whether the line makes a node of this name.
fn makes(name: &[u8], line: &[u8]) -> bool
    ensures { result ≡ makes name.now line.now }
{
    is_maker(line) && word_of(line, 1) == name
}

// The first line before the one of this number, counted from 1, that makes a node of this name.
fn maker<'a>(script: &'a [u8], number: u32, name: &[u8]) -> Option<&'a [u8]>
    ensures { option_copied result ≡ maker name.now (lines_before script.now number) }
{
    let mut rest = script;
    for _ in 1..number {
        let (line, after) = next_piece(rest, b'\n');
        if makes(name, line) {
            return Some(line);
        }
        match after {
            None => return None,
            Some(more) => rest = more,
        }
    }
    None
}

/// Whether there is such a line.
pub fn is_made(script: &[u8], number: u32, name: &[u8]) -> bool
    ensures { result ≡ is_made name.now (lines_before script.now number) }
{
    maker(script, number, name).is_some()
}

/// The kind of the node of this name, by the lines before the one of this number; nothing where
/// no such line makes it.
#[tactic(auto, unfolding(crate::specs::Makers::kind_of))]
pub fn kind_of<'a>(script: &'a [u8], number: u32, name: &[u8]) -> &'a [u8]
    ensures { result.now ≡ kind_of name.now (lines_before script.now number) }
{
    match maker(script, number, name) {
        None => b"".as_slice(),
        Some(line) => word_of(line, 0),
    }
}
