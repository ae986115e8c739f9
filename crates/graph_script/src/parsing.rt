//! A whole script, line by line.
ghost use Rattle.std.specs.Prelude.{◌≤◌, length, IfOk};
ghost use Rattle.pw_lists.specs.Limits.{script_bytes_limit};
ghost use Rattle.graph_script.specs.Grammar.{script_of, IsRead};
ghost use Rattle.graph_script.specs.Kinds.{HasKinds};
ghost use Rattle.graph_script.specs.Order.{HasOrder};
ghost use Rattle.graph_script.specs.Ranges.{HasRanges};

use crate::fault::ScriptFault;
use crate::lines::read_line;
use crate::progress::start;
use crate::script::Script;
use pw_lists::next_piece;
use std::alloc::Global;

/// The script that the bytes are, or the first line at fault with its cause, at most 1048576 bytes.
/// Lines end at a line feed or at the end; a line whose first word begins with `#`, or that has no
/// word, says nothing. What each command takes, and in which order a line's faults are found,
/// is in docs/FORMATS.md. Takes memory for what is read, and time in proportion to the bytes: a
/// line looks at the names of at most 63 nodes, and at no line before it.
#[tactic(auto, unfolding(crate::specs::Grammar::script_of))]
pub fn parse(alloc: Global, bytes: &[u8]) -> Result<Script, ScriptFault>
    requires { length bytes.now ≤ script_bytes_limit }
    ensures parsed { IsRead (script_of bytes.now) result }
    // What holds of every script: its numbers, names and nodes; its ports; its lines and names
    // together.
    ensures ranges { IfOk result HasRanges }
    ensures kinds { IfOk result HasKinds }
    ensures order { IfOk result HasOrder }
{
    let mut progress = start(alloc);
    let mut rest = bytes;
    let mut number = 1;
    loop {
        let (line, after) = next_piece(rest, b'\n');
        match read_line(alloc, progress, number, line) {
            Err(fault) => return Err(fault),
            Ok(next) => progress = next,
        }
        match after {
            None => return Ok(progress.reading.script),
            Some(more) => rest = more,
        }
        number += 1;
    }
}
