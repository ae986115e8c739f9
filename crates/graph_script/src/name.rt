//! The commands of a script by their words.
ghost use Rattle.std.specs.Prelude.{◌≡◌};
ghost use Rattle.graph_script.specs.CommandWords.{names, word_of, name_among, name_called, name_of};

use crate::command::Command;

/// What a command does.
#[derive(Clone, Copy, Debug, PartialEq, Eq, Drop)]
pub enum Name {
    Source,
    Square,
    Gain,
    Mix2,
    Delay,
    Map,
    Split,
    Sink,
    Meter,
    Link,
    Unlink,
    Offer,
    Buffers,
    Driver,
    Loop,
    On,
    Off,
    Async,
    Quantum,
    Cycles,
    Drain,
}

const NAMES: [Name; 21] = [
    Name::Source,
    Name::Square,
    Name::Gain,
    Name::Mix2,
    Name::Delay,
    Name::Map,
    Name::Split,
    Name::Sink,
    Name::Meter,
    Name::Link,
    Name::Unlink,
    Name::Offer,
    Name::Buffers,
    Name::Driver,
    Name::Loop,
    Name::On,
    Name::Off,
    Name::Async,
    Name::Quantum,
    Name::Cycles,
    Name::Drain,
];

/// All commands: those that make a node, those for nodes, ports and links that are there, and those
/// for cycles.
#[tactic(auto, unfolding(crate::specs::CommandWords::names))]
pub fn names() -> &'static [Name]
    ensures { result.now ≡ names }
{
    &NAMES
}

/// The word that a command is called by.
pub fn word_of(name: Name) -> &'static [u8]
    ensures { result.now ≡ word_of name }
{
    match name {
        Name::Source => b"source".as_slice(),
        Name::Square => b"square".as_slice(),
        Name::Gain => b"gain".as_slice(),
        Name::Mix2 => b"mix2".as_slice(),
        Name::Delay => b"delay".as_slice(),
        Name::Map => b"map".as_slice(),
        Name::Split => b"split".as_slice(),
        Name::Sink => b"sink".as_slice(),
        Name::Meter => b"meter".as_slice(),
        Name::Link => b"link".as_slice(),
        Name::Unlink => b"unlink".as_slice(),
        Name::Offer => b"offer".as_slice(),
        Name::Buffers => b"buffers".as_slice(),
        Name::Driver => b"driver".as_slice(),
        Name::Loop => b"loop".as_slice(),
        Name::On => b"on".as_slice(),
        Name::Off => b"off".as_slice(),
        Name::Async => b"async".as_slice(),
        Name::Quantum => b"quantum".as_slice(),
        Name::Cycles => b"cycles".as_slice(),
        Name::Drain => b"drain".as_slice(),
    }
}

/// The command that is called by a word, if there is one. Takes no memory.
pub fn name_called(word: &[u8]) -> Option<Name>
    ensures { result ≡ name_called word.now }
{
    let mut rest = names();
    loop {
        match rest {
            [] => return None,
            [name, more @ ..] => {
                if word == word_of(*name) {
                    return Some(*name);
                }
                rest = more;
            }
        }
    }
}

/// What a command does.
pub(crate) fn name_of(command: &Command) -> Name
    ensures { result ≡ name_of command.now }
{
    match command {
        Command::Quantum { .. } => Name::Quantum,
        Command::Source { .. } => Name::Source,
        Command::Square { .. } => Name::Square,
        Command::Gain { .. } => Name::Gain,
        Command::Mix2 { .. } => Name::Mix2,
        Command::Delay { .. } => Name::Delay,
        Command::Map { .. } => Name::Map,
        Command::Split { .. } => Name::Split,
        Command::Sink { .. } => Name::Sink,
        Command::Meter { .. } => Name::Meter,
        Command::Driver { .. } => Name::Driver,
        Command::Loop { .. } => Name::Loop,
        Command::Offer { .. } => Name::Offer,
        Command::Buffers { .. } => Name::Buffers,
        Command::Link { .. } => Name::Link,
        Command::Unlink { .. } => Name::Unlink,
        Command::On { .. } => Name::On,
        Command::Off { .. } => Name::Off,
        Command::Async { .. } => Name::Async,
        Command::Cycles { .. } => Name::Cycles,
        Command::Drain => Name::Drain,
    }
}
