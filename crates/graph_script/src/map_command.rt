//! The command that makes a map, with its list of channels.
ghost use Rattle.std.specs.Prelude.{◌≡◌, ◌≤◌, IfOk};
ghost use Rattle.pw_lists.specs.Limits.{channels_limit};
ghost use Rattle.pw_graph.specs.declared.kind.Kind.TheVariants as K;
ghost use Rattle.graph_script.specs.declared.command.Command.TheVariants as C;
ghost use Rattle.graph_script.specs.Lexical.{words_of};
ghost use Rattle.graph_script.specs.Checked.{checked_map};
ghost use Rattle.graph_script.specs.Earlier.{making};
ghost use Rattle.graph_script.specs.NodeCommands as commands;
ghost use Rattle.graph_script.specs.working.Sound.{IsSound};

use crate::arguments::three_words;
use crate::command::Command;
use crate::fault::ScriptWhy;
use crate::lists::channels_in;
use crate::new_nodes::{making, parsed_of};
use crate::nodes::new_node;
use crate::numbers::number_in;
use crate::reading::{ParsedLine, Reading};
use pw_graph::Kind;
use pw_lists::{CHANNELS_LIMIT, Items, Memory};
use std::alloc::Global;

// A new map before its list: its number, its name, the channels and the word of the list.
fn node_and_channels<'a>(
    reading: &Reading,
    args: &'a [u8],
) -> Result<(u32, &'a [u8], u32, &'a [u8]), ScriptWhy>
    requires { IsSound reading.now }
    ensures value { checked_map (λ new. (new.0, new.1.now, new.2, new.3.now)) result
        ≡ commands.node_and_channels reading.now (words_of args.now) }
    ensures some { IfOk result (λ new. 1 ≤ new.2) }
    ensures few { IfOk result (λ new. new.2 ≤ channels_limit) }
{
    let (name, channels, list) = three_words(args)?;
    let node = new_node(reading, name)?;
    let channels = number_in(channels, 1, CHANNELS_LIMIT)?;
    Ok((node, name, channels, list))
}

// The node of a map whose list is there, with memory for a second list.
fn mapped(
    alloc: Global,
    reading: &Reading,
    node: u32,
    name: &[u8],
    channels: u32,
    list: Items<u32>,
) -> Result<Result<ParsedLine, ScriptWhy>, Memory>
    ensures { IfOk result (λ parsed. parsed ≡ making reading.now (C.Map node channels list) name.now
        (K.Map channels list)) }
{
    match list.copy(alloc) {
        Err(memory) => Err(memory),
        Ok(copy) => {
            let command = Command::Map {
                node,
                channels,
                list,
            };
            let kind = Kind::Map {
                channels,
                list: copy,
            };
            parsed_of(alloc, making(reading, command, name, kind))
        }
    }
}

/// `map NAME CHANNELS LIST`
pub(crate) fn map(
    alloc: Global,
    reading: &Reading,
    args: &[u8],
) -> Result<Result<ParsedLine, ScriptWhy>, Memory>
    requires { IsSound reading.now }
    ensures { IfOk result (λ parsed. parsed ≡ commands.map_of reading.now (words_of args.now)) }
{
    match node_and_channels(reading, args) {
        Err(why) => Ok(Err(why)),
        Ok((node, name, channels, list)) => match channels_in(alloc, list, channels) {
            Err(memory) => Err(memory),
            Ok(Err(why)) => Ok(Err(why)),
            Ok(Ok(list)) => mapped(alloc, reading, node, name, channels, list),
        },
    }
}
