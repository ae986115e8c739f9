//! What the lines so far have said, and what is kept beside it so that no line looks at all lines
//! before it.
ghost use Rattle.std.specs.Prelude.{◌≡◌, ◌<◌, ◌≤◌, IfOk, Some};
ghost use Rattle.graph_script.specs.Earlier.{is_linked, is_epoch};
ghost use Rattle.graph_script.specs.Grammar.{start, reading_after};
ghost use Rattle.graph_script.specs.Limits.{epochs_limit};
ghost use Rattle.graph_script.specs.working.Progress.{marked, counted};
ghost use Rattle.graph_script.specs.Ranges.{HasNodes};
ghost use Rattle.graph_script.specs.working.Sound.{IsConsistent};

use crate::command::Command;
use crate::reading::{ParsedLine, Reading};
use crate::script::{Line, Script};
use pw_graph::NODES;
use pw_lists::{Items, Memory};
use std::alloc::Global;

/// What the lines so far have said; which nodes a link line names; how many lines made an epoch.
#[derive(Drop)]
pub(crate) struct Progress {
    pub reading: Reading,
    pub linked: [bool; NODES],
    pub epochs: u32,
}

/// What no line has said. Takes no memory.
pub(crate) fn start(alloc: Global) -> Progress
    ensures parsed { result.reading ≡ start }
    ensures consistent { IsConsistent result }
{
    let script = Script {
        lines: Items::new(alloc),
        names: Items::new(alloc),
    };
    Progress {
        reading: Reading {
            script,
            kinds: Items::new(alloc),
        },
        linked: [false; NODES],
        epochs: 0,
    }
}

/// Whether an earlier link line names the node.
pub(crate) fn is_linked(progress: &Progress, node: u32) -> bool
    requires consistent { IsConsistent progress.now }
    requires there { node < 64 }
    ensures { result ≡ is_linked progress.now.reading node }
{
    progress.linked[node as usize]
}

// Marks the nodes that a link line names.
fn mark(linked: &mut [bool; NODES], command: &Command)
    requires { HasNodes 64 command.now }
    ensures { linked.new ≡ marked linked.old command.now }
{
    match command {
        Command::Link { from, to } => {
            linked[from.node as usize] = true;
            linked[to.node as usize] = true;
        }
        _ => {}
    }
}

// Whether a command makes an epoch.
fn is_epoch(command: &Command) -> bool
    ensures { result ≡ is_epoch command.now }
{
    matches!(command, Command::Cycles { .. } | Command::Drain)
}

// What the lines have said with one more, of this number.
fn extended(reading: Reading, number: u32, parsed: ParsedLine) -> Result<Reading, Memory>
    ensures { IfOk result (λ after. after ≡ reading_after number reading (Some parsed)) }
{
    let mut after = reading;
    after.script.lines.push(Line {
        line: number,
        command: parsed.command,
    })?;
    match parsed.made {
        None => {}
        Some(made) => {
            after.script.names.push(made.name)?;
            after.kinds.push(made.kind)?;
        }
    }
    Ok(after)
}

/// What the lines have said with one more, of this number.
pub(crate) fn advanced(
    progress: Progress,
    number: u32,
    parsed: ParsedLine,
) -> Result<Progress, Memory>
    requires there { HasNodes 64 parsed.command }
    requires few { progress.epochs ≤ epochs_limit }
    ensures parsed { IfOk result (λ after.
        after.reading ≡ reading_after number progress.reading (Some parsed)) }
    ensures linked { IfOk result (λ after. after.linked ≡ marked progress.linked parsed.command) }
    ensures epochs { IfOk result (λ after. after.epochs ≡ counted progress.epochs parsed.command) }
{
    let mut linked = progress.linked;
    mark(&mut linked, &parsed.command);
    let mut epochs = progress.epochs;
    if is_epoch(&parsed.command) {
        epochs += 1;
    }
    match extended(progress.reading, number, parsed) {
        Err(memory) => Err(memory),
        Ok(reading) => Ok(Progress {
            reading,
            linked,
            epochs,
        }),
    }
}
