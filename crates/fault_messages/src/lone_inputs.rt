//! A mixer of which the script links one input alone, in words.
ghost use Rattle.std.specs.Prelude.{◌≡◌, ◌++◌, map, string_bytes, OnOk};
ghost use Rattle.fault_messages.specs.LoneInputs.{nothing_at_a, nothing_at_b};
ghost use Rattle.fault_messages.specs.LoneInputs.{lone_said, lone_part, lone_notes};

use crate::note_heads::put_note_head;
use crate::putting::put_behind;
use crate::script_lines::has_link_to;
use crate::sink_notes::name_of;
use graph_script::{Command, Line, Script};
use pw_lists::{Memory, Text};

#[tactic(auto, unfolding(crate::specs::LoneInputs::nothing_at_a))]
fn put_nothing_at_a(text: &mut Text, name: &[u8]) -> Result<(), Memory>
    ensures { OnOk result (text.new ≡ text.old ++ nothing_at_a name.now) }
{
    put_behind(
        text,
        name,
        b" mixes in silence: no line links anything to its input a",
    )
}

#[tactic(auto, unfolding(crate::specs::LoneInputs::nothing_at_b))]
fn put_nothing_at_b(text: &mut Text, name: &[u8]) -> Result<(), Memory>
    ensures { OnOk result (text.new ≡ text.old ++ nothing_at_b name.now) }
{
    put_behind(
        text,
        name,
        b" mixes in silence: no line links anything to its input b",
    )
}

// The note on a mixer, by whether its first and its second input are linked.
fn put_lone_said(
    text: &mut Text,
    words: &[String],
    first: bool,
    second: bool,
    number: u32,
    name: &[u8],
) -> Result<(), Memory>
    ensures { OnOk result (text.new ≡ text.old
        ++ lone_said first second (map string_bytes words.now) number name.now) }
{
    match (first, second) {
        (true, false) => {
            put_note_head(text, words, number)?;
            put_nothing_at_b(text, name)?;
            text.extend(b"\n")
        }
        (false, true) => {
            put_note_head(text, words, number)?;
            put_nothing_at_a(text, name)?;
            text.extend(b"\n")
        }
        _ => Ok(()),
    }
}

// The note on a line of the script.
fn put_lone_part(
    text: &mut Text,
    words: &[String],
    script: &Script,
    line: &Line,
) -> Result<(), Memory>
    ensures { OnOk result (text.new ≡ text.old
        ++ lone_part (map string_bytes words.now) script.now line.now.line line.now.command) }
{
    let lines = script.lines.as_slice();
    match &line.command {
        Command::Mix2 { node, .. } => {
            let first = has_link_to(lines, *node, 0);
            let second = has_link_to(lines, *node, 1);
            put_lone_said(
                text,
                words,
                first,
                second,
                line.line,
                name_of(script, *node),
            )
        }
        _ => Ok(()),
    }
}

/// Which mixers of a script have one input alone to which a line links something: a note for each.
/// Cost: for each mixer two looks at each line of the script.
pub fn put_lone_notes(text: &mut Text, words: &[String], script: &Script) -> Result<(), Memory>
    ensures { OnOk result (text.new ≡ text.old
        ++ lone_notes (map string_bytes words.now) script.now) }
{
    for line in script.lines.as_slice() {
        put_lone_part(text, words, script, line)?;
    }
    Ok(())
}
