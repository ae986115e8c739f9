//! A new node of a line, and what the line says with memory for its name.
ghost use Rattle.std.specs.Prelude.{◌≡◌, IfOk};
ghost use Rattle.graph_script.specs.Checked.{checked_map};
ghost use Rattle.graph_script.specs.Earlier.{making};
ghost use Rattle.graph_script.specs.working.Progress.{parsed_of};

use crate::command::Command;
use crate::fault::ScriptWhy;
use crate::limits::NODES_LIMIT;
use crate::reading::{Made, NewNode, ParsedLine, Reading};
use pw_graph::Kind;
use pw_lists::{Items, Memory, Which};
use std::alloc::Global;

/// A node of this name and kind, where there is room for it.
pub(crate) fn making<'a>(
    reading: &Reading,
    command: Command,
    name: &'a [u8],
    kind: Kind,
) -> Result<NewNode<'a>, ScriptWhy>
    ensures { checked_map parsed_of result ≡ making reading.now command name.now kind }
{
    if reading.script.names.len() < NODES_LIMIT {
        Ok(NewNode {
            command,
            name,
            kind,
        })
    } else {
        Err(ScriptWhy::TooMany(Which::Nodes))
    }
}

/// What the line of a new node says, with memory for its name.
pub(crate) fn parsed_of(
    alloc: Global,
    new: Result<NewNode, ScriptWhy>,
) -> Result<Result<ParsedLine, ScriptWhy>, Memory>
    ensures { IfOk result (λ parsed. parsed ≡ checked_map parsed_of new.entry) }
{
    match new {
        Err(why) => Ok(Err(why)),
        Ok(node) => match Items::from_slice(alloc, node.name) {
            Err(memory) => Err(memory),
            Ok(name) => Ok(Ok(ParsedLine {
                command: node.command,
                made: Some(Made {
                    name,
                    kind: node.kind,
                }),
            })),
        },
    }
}
