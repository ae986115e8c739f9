//! The commands that make a node with a file.
ghost use Rattle.std.specs.Prelude.{◌≡◌, IfOk};
ghost use Rattle.graph_script.specs.Lexical.{words_of};
ghost use Rattle.graph_script.specs.Checked.{checked_map};
ghost use Rattle.graph_script.specs.FileNodes as commands;
ghost use Rattle.graph_script.specs.working.Sound.{IsSound};

use crate::arguments::two_words;
use crate::command::Command;
use crate::fault::ScriptWhy;
use crate::new_nodes::{making, parsed_of};
use crate::node_names::file_word;
use crate::nodes::new_node;
use crate::reading::{ParsedLine, Reading};
use pw_graph::Kind;
use pw_lists::{Items, Memory};
use std::alloc::Global;

// A new node with a file: its number, its name and the file.
fn node_and_file<'a>(
    reading: &Reading,
    args: &'a [u8],
) -> Result<(u32, &'a [u8], &'a [u8]), ScriptWhy>
    requires { IsSound reading.now }
    ensures { checked_map (λ new. (new.0, new.1.now, new.2.now)) result
        ≡ commands.node_and_file reading.now (words_of args.now) }
{
    let (name, file) = two_words(args)?;
    let node = new_node(reading, name)?;
    let file = file_word(file)?;
    Ok((node, name, file))
}

/// `source NAME FILE`
pub(crate) fn source(
    alloc: Global,
    reading: &Reading,
    args: &[u8],
) -> Result<Result<ParsedLine, ScriptWhy>, Memory>
    requires { IsSound reading.now }
    ensures { IfOk result (λ parsed. parsed ≡ commands.source_of reading.now (words_of args.now)) }
{
    match node_and_file(reading, args) {
        Err(why) => Ok(Err(why)),
        Ok((node, name, file)) => match Items::from_slice(alloc, file) {
            Err(memory) => Err(memory),
            Ok(file) => parsed_of(
                alloc,
                making(reading, Command::Source { node, file }, name, Kind::Source),
            ),
        },
    }
}

/// `sink NAME FILE`
pub(crate) fn sink(
    alloc: Global,
    reading: &Reading,
    args: &[u8],
) -> Result<Result<ParsedLine, ScriptWhy>, Memory>
    requires { IsSound reading.now }
    ensures { IfOk result (λ parsed. parsed ≡ commands.sink_of reading.now (words_of args.now)) }
{
    match node_and_file(reading, args) {
        Err(why) => Ok(Err(why)),
        Ok((node, name, file)) => match Items::from_slice(alloc, file) {
            Err(memory) => Err(memory),
            Ok(file) => parsed_of(
                alloc,
                making(reading, Command::Sink { node, file }, name, Kind::Sink),
            ),
        },
    }
}
