//! The commands for cycles and for nodes that are there.
ghost use Rattle.std.specs.Prelude.{◌≡◌, ◌<◌, length, IfOk};
ghost use Rattle.graph_script.specs.Lexical.{words_of};
ghost use Rattle.graph_script.specs.Earlier.{making_epoch};
ghost use Rattle.graph_script.specs.GraphCommands as commands;
ghost use Rattle.graph_script.specs.Nodes.{may_drive};
ghost use Rattle.graph_script.specs.working.Sound.{IsSound, IsConsistent};

use crate::arguments::{no_words, one_word, two_words};
use crate::command::Command;
use crate::fault::ScriptWhy;
use crate::limits::{CYCLES_LIMIT, EPOCHS_LIMIT, LOOP_LIMIT, PRIORITY_LIMIT};
use crate::nodes::{kind_at, node_at};
use crate::numbers::number_in;
use crate::progress::{Progress, is_linked};
use crate::reading::{ParsedLine, Reading};
use pw_graph::Kind;
use pw_lists::{QUANTUM_LIMIT, Which};

// What a command says that makes no node.
fn saying(command: Command) -> ParsedLine
    ensures { result ≡ record { command = command; made = None } }
{
    ParsedLine {
        command,
        made: None,
    }
}

/// `quantum N`
pub(crate) fn quantum(reading: &Reading, args: &[u8]) -> Result<ParsedLine, ScriptWhy>
    ensures { result ≡ commands.quantum_of reading.now (words_of args.now) }
{
    let word = one_word(args)?;
    let n = number_in(word, 1, QUANTUM_LIMIT)?;
    match reading.script.lines.as_slice() {
        [] => Ok(saying(Command::Quantum { n })),
        [_first, ..] => Err(ScriptWhy::QuantumLate),
    }
}

fn may_drive(kind: &Kind) -> bool
    ensures { result ≡ may_drive kind.now }
{
    matches!(kind, Kind::Sink | Kind::Meter)
}

/// `driver NAME PRIORITY`
pub(crate) fn driver(reading: &Reading, args: &[u8]) -> Result<ParsedLine, ScriptWhy>
    requires { IsSound reading.now }
    ensures { result ≡ commands.driver_of reading.now (words_of args.now) }
{
    let (name, priority) = two_words(args)?;
    let node = node_at(reading, name)?;
    let priority = number_in(priority, 0, PRIORITY_LIMIT)?;
    if may_drive(kind_at(reading, node)) {
        Ok(saying(Command::Driver { node, priority }))
    } else {
        Err(ScriptWhy::NotDriverKind)
    }
}

/// `loop NAME K`
pub(crate) fn data_loop(reading: &Reading, args: &[u8]) -> Result<ParsedLine, ScriptWhy>
    requires { IsSound reading.now }
    ensures { result ≡ commands.loop_of reading.now (words_of args.now) }
{
    let (name, k) = two_words(args)?;
    let node = node_at(reading, name)?;
    let k = number_in(k, 0, LOOP_LIMIT)?;
    Ok(saying(Command::Loop { node, k }))
}

// The node that is the one argument.
fn one_node(reading: &Reading, args: &[u8]) -> Result<u32, ScriptWhy>
    requires { IsSound reading.now }
    ensures value { result ≡ commands.node_of reading.now (words_of args.now) }
    ensures there { IfOk result (λ node. node < length reading.now.kinds) }
{
    let name = one_word(args)?;
    node_at(reading, name)
}

/// `on NAME`
pub(crate) fn on(reading: &Reading, args: &[u8]) -> Result<ParsedLine, ScriptWhy>
    requires { IsSound reading.now }
    ensures { result ≡ commands.on_of reading.now (words_of args.now) }
{
    let node = one_node(reading, args)?;
    Ok(saying(Command::On { node }))
}

/// `off NAME`
pub(crate) fn off(reading: &Reading, args: &[u8]) -> Result<ParsedLine, ScriptWhy>
    requires { IsSound reading.now }
    ensures { result ≡ commands.off_of reading.now (words_of args.now) }
{
    let node = one_node(reading, args)?;
    Ok(saying(Command::Off { node }))
}

/// `async NAME`
pub(crate) fn asynchronous(progress: &Progress, args: &[u8]) -> Result<ParsedLine, ScriptWhy>
    requires { IsConsistent progress.now }
    ensures { result ≡ commands.async_of progress.now.reading (words_of args.now) }
{
    let node = one_node(&progress.reading, args)?;
    if is_linked(progress, node) {
        Err(ScriptWhy::AsyncLate)
    } else {
        Ok(saying(Command::Async { node }))
    }
}

// A command that makes an epoch, where there is room for it.
fn making_epoch(progress: &Progress, command: Command) -> Result<ParsedLine, ScriptWhy>
    requires { IsConsistent progress.now }
    ensures { result ≡ making_epoch progress.now.reading command }
{
    if progress.epochs < EPOCHS_LIMIT {
        Ok(saying(command))
    } else {
        Err(ScriptWhy::TooMany(Which::Epochs))
    }
}

/// `cycles N`
pub(crate) fn cycles(progress: &Progress, args: &[u8]) -> Result<ParsedLine, ScriptWhy>
    requires { IsConsistent progress.now }
    ensures { result ≡ commands.cycles_of progress.now.reading (words_of args.now) }
{
    let word = one_word(args)?;
    let n = number_in(word, 1, CYCLES_LIMIT)?;
    making_epoch(progress, Command::Cycles { n })
}

/// `drain`
pub(crate) fn drain(progress: &Progress, args: &[u8]) -> Result<ParsedLine, ScriptWhy>
    requires { IsConsistent progress.now }
    ensures { result ≡ commands.drain_of progress.now.reading (words_of args.now) }
{
    no_words(args)?;
    making_epoch(progress, Command::Drain)
}
