//! A script: its commands with the numbers of their lines, and the names of its nodes.
ghost use Rattle.std.specs.Prelude.{◌≡◌};

use crate::command::Command;
use pw_lists::{Items, Text};

/// A line of a script that says a command. Lines are numbered from 1; those that say nothing count
/// too.
#[derive(Drop)]
pub struct Line {
    pub line: u32,
    pub command: Command,
}

/// A script. The name of node n is at place n of `names`.
#[derive(Drop)]
pub struct Script {
    pub lines: Items<Line>,
    pub names: Items<Text>,
}

impl Script {
    /// The names of the nodes, by number. Takes no memory.
    pub fn names(&self) -> &Items<Text>
        ensures { result.now ≡ self.now.names }
    {
        &self.names
    }
}
