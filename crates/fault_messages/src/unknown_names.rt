//! A name that no node has yet, in words.
ghost use Rattle.std.specs.Prelude.{◌≡◌, ◌++◌, OnOk};
ghost use Rattle.graph_script.specs.Lexical.{words_of};
ghost use Rattle.fault_messages.specs.Places.{lines_before};
ghost use Rattle.fault_messages.specs.UnknownNames.{unknown_end, no_node_of, no_node_called, unknown_name};

use crate::lines::word_of;
use crate::makers::is_made;
use crate::name_rules::{end_name, is_pair};
use crate::putting::put_before;
use pw_lists::{Memory, Text};

// Of two ends the one whose node no line before makes.
fn unknown_end<'a>(line: &'a [u8], script: &[u8], number: u32) -> &'a [u8]
    ensures { result.now ≡ unknown_end (words_of line.now) (lines_before script.now number) }
{
    let first = word_of(line, 1);
    if is_made(script, number, end_name(first)) {
        word_of(line, 2)
    } else {
        first
    }
}

#[tactic(auto, unfolding(crate::specs::UnknownNames::no_node_of))]
fn put_no_node_of(text: &mut Text, end: &[u8]) -> Result<(), Memory>
    ensures { OnOk result (text.new ≡ text.old ++ no_node_of end.now) }
{
    put_before(text, b"no line before this one makes the node of ", end)
}

#[tactic(auto, unfolding(crate::specs::UnknownNames::no_node_called))]
fn put_no_node_called(text: &mut Text, name: &[u8]) -> Result<(), Memory>
    ensures { OnOk result (text.new ≡ text.old ++ no_node_called name.now) }
{
    put_before(text, b"no line before this one makes a node called ", name)
}

/// Which name of the line of this number no line before it gives to a node.
pub fn put_unknown_name(
    text: &mut Text,
    line: &[u8],
    script: &[u8],
    number: u32,
) -> Result<(), Memory>
    ensures { OnOk result (text.new ≡ text.old
        ++ unknown_name (words_of line.now) (lines_before script.now number)) }
{
    if is_pair(line) {
        put_no_node_of(text, unknown_end(line, script, number))
    } else {
        put_no_node_called(text, word_of(line, 1))
    }
}
