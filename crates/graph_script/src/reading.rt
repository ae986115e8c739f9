//! What a line says, and what the lines so far have said.

use crate::command::Command;
use crate::script::Script;
use pw_graph::Kind;
use pw_lists::{Items, Text};

/// A node that a line makes.
#[derive(Drop)]
pub(crate) struct Made {
    pub name: Text,
    pub kind: Kind,
}

/// What a line says: a command, and the node that it makes, if it makes one.
#[derive(Drop)]
pub(crate) struct ParsedLine {
    pub command: Command,
    pub made: Option<Made>,
}

/// A node that a line makes, before memory is taken for its name.
#[derive(Drop)]
pub(crate) struct NewNode<'a> {
    pub command: Command,
    pub name: &'a [u8],
    pub kind: Kind,
}

/// What the lines so far have said: their script, and the kinds of its nodes, by number.
#[derive(Drop)]
pub(crate) struct Reading {
    pub script: Script,
    pub kinds: Items<Kind>,
}
