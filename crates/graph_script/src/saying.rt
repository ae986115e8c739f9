//! What the words of a line say: the name of a command, and its arguments.
ghost use Rattle.std.specs.Prelude.{◌≡◌, IfOk};
ghost use Rattle.graph_script.specs.Lexical.{words_of};
ghost use Rattle.graph_script.specs.Commands as commands;
ghost use Rattle.graph_script.specs.working.Sound.{IsConsistent};

use crate::fault::ScriptWhy;
use crate::file_nodes::{sink, source};
use crate::graph_commands::{asynchronous, cycles, data_loop, drain, driver, off, on, quantum};
use crate::lexing::next_word;
use crate::map_command::map;
use crate::name::{Name, name_called};
use crate::new_nodes::parsed_of;
use crate::node_commands::{delay, gain, meter, mix2, split, square};
use crate::port_commands::{buffers, link, offer, unlink};
use crate::progress::Progress;
use crate::reading::ParsedLine;
use pw_lists::Memory;
use std::alloc::Global;

// What a command says with these arguments.
#[tactic(auto, unfolding(crate::specs::Commands::meaning_of_command))]
fn named(
    alloc: Global,
    progress: &Progress,
    name: Name,
    args: &[u8],
) -> Result<Result<ParsedLine, ScriptWhy>, Memory>
    requires { IsConsistent progress.now }
    ensures { IfOk result (λ parsed. parsed
        ≡ commands.meaning_of_command progress.now.reading name (words_of args.now)) }
{
    let reading = &progress.reading;
    match name {
        Name::Quantum => Ok(quantum(reading, args)),
        Name::Source => source(alloc, reading, args),
        Name::Square => parsed_of(alloc, square(reading, args)),
        Name::Gain => parsed_of(alloc, gain(reading, args)),
        Name::Mix2 => parsed_of(alloc, mix2(reading, args)),
        Name::Delay => parsed_of(alloc, delay(reading, args)),
        Name::Map => map(alloc, reading, args),
        Name::Split => parsed_of(alloc, split(reading, args)),
        Name::Sink => sink(alloc, reading, args),
        Name::Meter => parsed_of(alloc, meter(reading, args)),
        Name::Driver => Ok(driver(reading, args)),
        Name::Loop => Ok(data_loop(reading, args)),
        Name::Offer => offer(alloc, progress, args),
        Name::Buffers => Ok(buffers(reading, args)),
        Name::Link => Ok(link(reading, args)),
        Name::Unlink => Ok(unlink(reading, args)),
        Name::On => Ok(on(reading, args)),
        Name::Off => Ok(off(reading, args)),
        Name::Async => Ok(asynchronous(progress, args)),
        Name::Cycles => Ok(cycles(progress, args)),
        Name::Drain => Ok(drain(progress, args)),
    }
}

/// What the words of a line say, by what the lines before it have said.
pub(crate) fn parsed_by(
    alloc: Global,
    progress: &Progress,
    line: &[u8],
) -> Result<Result<ParsedLine, ScriptWhy>, Memory>
    requires { IsConsistent progress.now }
    ensures { IfOk result (λ parsed.
        parsed ≡ commands.meaning_of_words progress.now.reading (words_of line.now)) }
{
    match next_word(line) {
        None => Ok(Err(ScriptWhy::Command)),
        Some((word, args)) => match name_called(word) {
            None => Ok(Err(ScriptWhy::Command)),
            Some(name) => named(alloc, progress, name, args),
        },
    }
}
