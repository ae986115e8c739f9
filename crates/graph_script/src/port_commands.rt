//! The commands for ports and links.
ghost use Rattle.std.specs.Prelude.{◌≡◌, IfOk};
ghost use Rattle.graph_script.specs.Lexical.{words_of};
ghost use Rattle.graph_script.specs.Checked.{checked_map};
ghost use Rattle.graph_script.specs.PortCommands as commands;
ghost use Rattle.graph_script.specs.working.Sound.{IsSound, IsConsistent};

use crate::arguments::{three_words, two_words};
use crate::command::Command;
use crate::fault::ScriptWhy;
use crate::node_names::file_word;
use crate::nodes::{input_at, output_at, port_at};
use crate::numbers::number_in;
use crate::progress::{Progress, is_linked};
use crate::reading::{ParsedLine, Reading};
use pw_graph::PortId;
use pw_lists::{BUFFERS_LIMIT, Items, Memory};
use std::alloc::Global;

// An offer before memory is taken: its port and its file.
fn port_and_file<'a>(progress: &Progress, args: &'a [u8]) -> Result<(PortId, &'a [u8]), ScriptWhy>
    requires { IsConsistent progress.now }
    ensures { checked_map (λ offer. (offer.0, offer.1.now)) result
        ≡ commands.port_and_file progress.now.reading (words_of args.now) }
{
    let (name, port, file) = three_words(args)?;
    let port = port_at(&progress.reading, name, port)?;
    let file = file_word(file)?;
    if is_linked(progress, port.node) {
        Err(ScriptWhy::OfferLate)
    } else {
        Ok((port, file))
    }
}

/// `offer NAME PORT FILE`
pub(crate) fn offer(
    alloc: Global,
    progress: &Progress,
    args: &[u8],
) -> Result<Result<ParsedLine, ScriptWhy>, Memory>
    requires { IsConsistent progress.now }
    ensures { IfOk result (λ parsed.
        parsed ≡ commands.offer_of progress.now.reading (words_of args.now)) }
{
    match port_and_file(progress, args) {
        Err(why) => Ok(Err(why)),
        Ok((port, file)) => match Items::from_slice(alloc, file) {
            Err(memory) => Err(memory),
            Ok(file) => Ok(Ok(ParsedLine {
                command: Command::Offer { port, file },
                made: None,
            })),
        },
    }
}

/// `buffers NAME PORT N`
pub(crate) fn buffers(reading: &Reading, args: &[u8]) -> Result<ParsedLine, ScriptWhy>
    requires { IsSound reading.now }
    ensures { result ≡ commands.buffers_of reading.now (words_of args.now) }
{
    let (name, port, n) = three_words(args)?;
    let port = port_at(reading, name, port)?;
    let n = number_in(n, 1, BUFFERS_LIMIT)?;
    Ok(ParsedLine {
        command: Command::Buffers { port, n },
        made: None,
    })
}

// An output and an input.
fn ends(reading: &Reading, args: &[u8]) -> Result<(PortId, PortId), ScriptWhy>
    requires { IsSound reading.now }
    ensures { result ≡ commands.ends_of reading.now (words_of args.now) }
{
    let (from, to) = two_words(args)?;
    let from = output_at(reading, from)?;
    let to = input_at(reading, to)?;
    Ok((from, to))
}

/// `link A.P B.Q`
pub(crate) fn link(reading: &Reading, args: &[u8]) -> Result<ParsedLine, ScriptWhy>
    requires { IsSound reading.now }
    ensures { result ≡ commands.link_of reading.now (words_of args.now) }
{
    let (from, to) = ends(reading, args)?;
    Ok(ParsedLine {
        command: Command::Link { from, to },
        made: None,
    })
}

/// `unlink A.P B.Q`
pub(crate) fn unlink(reading: &Reading, args: &[u8]) -> Result<ParsedLine, ScriptWhy>
    requires { IsSound reading.now }
    ensures { result ≡ commands.unlink_of reading.now (words_of args.now) }
{
    let (from, to) = ends(reading, args)?;
    Ok(ParsedLine {
        command: Command::Unlink { from, to },
        made: None,
    })
}
