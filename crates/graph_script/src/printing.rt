//! A whole script as text.
ghost use Rattle.std.specs.Prelude.{◌≡◌, ◌≤◌, ◌++◌, Ok, List, ℕ, length, IfOk, OnOk};
ghost use Rattle.graph_script.specs.Grammar.{script_of};
ghost use Rattle.graph_script.specs.Kinds.{HasPorts};
ghost use Rattle.graph_script.specs.Printing.{line_text, text_from, text_of_script, kinds_of};
ghost use Rattle.graph_script.specs.Printable.{IsParsed, AreFrom, AreWritable};
ghost use Rattle.graph_script.specs.Ranges.{HasNodes};

use crate::command::Command;
use crate::command_text::put_args;
use crate::kinds::kind_made;
use crate::name::{name_of, word_of};
use crate::script::{Line, Script};
use pw_graph::Kind;
use pw_lists::{Items, Memory, Text};
use std::alloc::Global;

// The kinds of the nodes that lines make.
fn kinds_of(alloc: Global, lines: &[Line]) -> Result<Items<Kind>, Memory>
    ensures { IfOk result (λ kinds. kinds ≡ kinds_of lines.now) }
{
    let mut kinds = Items::new(alloc);
    let mut rest = lines;
    loop {
        match rest {
            [] => return Ok(kinds),
            [line, more @ ..] => {
                match kind_made(alloc, &line.command) {
                    Err(memory) => return Err(memory),
                    Ok(None) => {}
                    Ok(Some(kind)) => kinds.push(kind)?,
                }
                rest = more;
            }
        }
    }
}

// A command at the end of a text.
#[tactic(auto, using(crate::proofs::SpacedLemmas::grown_twice))]
fn put_line(
    text: &mut Text,
    names: &[Text],
    kinds: &[Kind],
    command: &Command,
) -> Result<(), Memory>
    requires same { length kinds.now ≡ length names.now }
    requires nodes { HasNodes (length names.now) command.now }
    requires ports { HasPorts kinds.now command.now }
    ensures { OnOk result (text.new ≡ text.old ++ line_text names.now kinds.now command.now) }
{
    text.extend(word_of(name_of(command)))?;
    put_args(text, names, kinds, command)
}

// Lines at the end of a text, each on the line of its number.
fn put_lines(text: &mut Text, names: &[Text], kinds: &[Kind], lines: &[Line]) -> Result<(), Memory>
    requires same { length kinds.now ≡ length names.now }
    requires numbered { AreFrom 1 lines.now }
    requires writable { AreWritable names.now kinds.now lines.now }
    ensures { OnOk result (text.new ≡ text.old ++ text_from names.now kinds.now 1 lines.now) }
{
    let mut number = 1;
    let mut rest = lines;
    loop {
        match rest {
            [] => return Ok(()),
            [line, more @ ..] => {
                text.extend_filled((line.line - number) as usize, b'\n')?;
                put_line(text, names, kinds, &line.command)?;
                number = line.line;
                rest = more;
            }
        }
    }
}

/// The text of a script: each command on the line of its number, words parted by one space, empty
/// lines between, and no line feed after the last. It is read as the same script, line numbers
/// included, and no text that is read as this script is shorter. The script is one that `parse`
/// answered. Takes memory for the text, and time in proportion to it.
pub fn text_of(alloc: Global, script: &Script) -> Result<Text, Memory>
    requires { IsParsed script.now }
    ensures text { IfOk result (λ text. text ≡ text_of_script script.now) }
    ensures again { IfOk result (λ text. script_of text ≡ Ok script.now) }
    ensures shortest { IfOk result
        (λ text. (bytes : List ℕ) → script_of bytes ≡ Ok script.now
        → length text ≤ length bytes) }
{
    let names = script.names.as_slice();
    let lines = script.lines.as_slice();
    let kinds = kinds_of(alloc, lines)?;
    let mut text = Items::new(alloc);
    put_lines(&mut text, names, kinds.as_slice(), lines)?;
    Ok(text)
}
