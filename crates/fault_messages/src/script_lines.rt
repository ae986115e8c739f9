//! What the lines of a script ask for, where a note turns on it.
ghost use Rattle.std.specs.Prelude.{◌≡◌};
ghost use Rattle.fault_messages.specs.ScriptLines.{has_ends, is_cycles, is_drain, has_cycles, has_drain};
ghost use Rattle.fault_messages.specs.ScriptLines.{may_have_cycles, reads, is_read, links_to, has_link_to};

use graph_script::{Command, Line};
use pw_graph::{PortId, is_same_port};

/// Whether the command has two ends.
pub fn has_ends(command: &Command) -> bool
    ensures { result ≡ has_ends command.now }
{
    matches!(command, Command::Link { .. } | Command::Unlink { .. })
}

fn is_cycles(command: &Command) -> bool
    ensures { result ≡ is_cycles command.now }
{
    matches!(command, Command::Cycles { .. })
}

fn is_drain(command: &Command) -> bool
    ensures { result ≡ is_drain command.now }
{
    matches!(command, Command::Drain)
}

/// Whether a line of the script makes cycles.
pub fn has_cycles(lines: &[Line]) -> bool
    ensures { result ≡ has_cycles lines.now }
{
    lines.iter().any(|line| is_cycles(&line.command))
}

fn has_drain(lines: &[Line]) -> bool
    ensures { result ≡ has_drain lines.now }
{
    lines.iter().any(|line| is_drain(&line.command))
}

/// Whether a line of the script may make cycles.
pub fn may_have_cycles(lines: &[Line]) -> bool
    ensures { result ≡ may_have_cycles lines.now }
{
    has_cycles(lines) || has_drain(lines)
}

// Whether the command makes a source of this file.
fn reads(file: &[u8], command: &Command) -> bool
    ensures { result ≡ reads file.now command.now }
{
    match command {
        Command::Source { file: name, .. } => name.as_slice() == file,
        _ => false,
    }
}

/// Whether a source of the script reads this file.
pub fn is_read(lines: &[Line], file: &[u8]) -> bool
    ensures { result ≡ is_read lines.now file.now }
{
    lines.iter().any(|line| reads(file, &line.command))
}

// Whether a command links something to this input.
fn links_to(port: PortId, command: &Command) -> bool
    ensures { result ≡ links_to port command.now }
{
    match command {
        Command::Link { to, .. } => is_same_port(*to, port),
        _ => false,
    }
}

/// Whether a line of the script links something to this input of a node.
pub fn has_link_to(lines: &[Line], node: u32, input: u32) -> bool
    ensures { result ≡ has_link_to lines.now node input }
{
    let port = PortId { node, port: input };
    lines.iter().any(|line| links_to(port, &line.command))
}
