//! The table of messages that no run shows: faults of a script whose line is not there, files and
//! outputs that fail, and no memory.

use fault_messages::message;
use graph_script::ScriptWhy;
use pw_lists::{Items, Memory};
use pw_top::Status;
use row_files::words_of;
use std::alloc::Global;

/// A command, the line of the script that its status names, if it is there, and what the message
/// begins with.
#[derive(Clone, Copy, Drop)]
struct Asked {
    command: &'static str,
    line: Option<&'static [u8]>,
    before: &'static [u8],
}

// The message of these parts.
fn wanted(alloc: Global, before: &[u8], said: &[u8]) -> Result<Items<u8>, Memory> {
    let mut text = Items::new(alloc);
    for part in [b"pipegraph: ".as_slice(), before, said, b"\n".as_slice()] {
        text.extend(part)?;
    }
    Ok(text)
}

// Whether the message of a status of these words is this one.
fn is_message(
    alloc: Global,
    words: &[String],
    line: Option<&[u8]>,
    status: Status,
    text: &[u8],
) -> bool {
    match message(alloc, &status, None, words, line, b"".as_slice()) {
        Ok(said) => said.as_slice() == text,
        Err(_memory) => false,
    }
}

// Whether the message of a status is what it begins with and what is said.
fn is_said(alloc: Global, asked: Asked, status: Status, said: &[u8]) -> bool {
    let Ok(words) = words_of(alloc, asked.command) else {
        return false;
    };
    match wanted(alloc, asked.before, said) {
        Ok(text) => is_message(alloc, words.as_slice(), asked.line, status, text.as_slice()),
        Err(_memory) => false,
    }
}

/// A script whose third line is wrong.
const RUN: Asked = Asked {
    command: "run take.graph",
    line: None,
    before: b"take.graph:3: ",
};

/// The same, checked.
const CHECK: Asked = Asked {
    command: "check take.graph t",
    ..RUN
};

/// Faults of which the line says nothing, the line, and what is said.
const SCRIPTS: &'static [(ScriptWhy, &'static [u8], &'static [u8])] = &[
    (
        ScriptWhy::PortUnknown,
        b"offer o out f.pod",
        b"the node has no such port",
    ),
    (
        ScriptWhy::PortUnknown,
        b"unlink a.in\ta.in",
        b"the node has no such port",
    ),
];

/// Faults whose line is not there.
const NO_LINE: &'static [(ScriptWhy, &'static [u8])] = &[
    (ScriptWhy::Command, b"the first word is no command"),
    (ScriptWhy::Arguments, b"too few words, or too many"),
    (
        ScriptWhy::Number,
        b"a number is out of range, or has the wrong form",
    ),
    (
        ScriptWhy::NameForm,
        b"a name, a port or a file word has the wrong form",
    ),
    (ScriptWhy::NameTaken, b"the name is taken"),
    (
        ScriptWhy::NameUnknown,
        b"no line before this one makes a node of this name",
    ),
    (ScriptWhy::PortUnknown, b"the node has no such port"),
    (
        ScriptWhy::NotDriverKind,
        b"only a sink or a meter may drive",
    ),
    (
        ScriptWhy::OfferLate,
        b"offers must stand before the links of their node",
    ),
    (
        ScriptWhy::AsyncLate,
        b"async must stand before the links of its node",
    ),
];

// The first script of which something else is said.
fn script_unlike(
    alloc: Global,
    rows: &[(ScriptWhy, &'static [u8], &'static [u8])],
) -> Option<usize> {
    for (place, (why, line, said)) in rows.iter().enumerate() {
        let asked = Asked {
            line: Some(*line),
            ..RUN
        };
        let status = Status::Script { line: 3, why: *why };
        if !is_said(alloc, asked, status, said) {
            return Some(place);
        }
    }
    None
}

// The same of scripts without their line.
fn bare_unlike(alloc: Global, rows: &[(ScriptWhy, &'static [u8])]) -> Option<usize> {
    for (place, (why, said)) in rows.iter().enumerate() {
        let status = Status::Script { line: 3, why: *why };
        if !is_said(alloc, CHECK, status, said) {
            return Some(place);
        }
    }
    None
}

#[test]
fn a_fault_whose_line_is_not_there_has_its_sentence(rt: HostRuntime) {
    assert_eq!(rt; script_unlike(rt.alloc(), SCRIPTS), None);
    assert_eq!(rt; bare_unlike(rt.alloc(), NO_LINE), None);
}

/// What is asked, its status, and what is said.
type Said = (Asked, Status, &'static [u8]);

// The first of these of which something else is said.
fn said_unlike(alloc: Global, rows: &[Said]) -> Option<usize> {
    for (place, (asked, status, said)) in rows.iter().enumerate() {
        if !is_said(alloc, *asked, *status, said) {
            return Some(place);
        }
    }
    None
}

/// A run whose script has a sink.
const OF_SINK: Asked = Asked {
    command: "run t.graph --trace",
    line: Some(b"sink o o.wav"),
    before: b"t.graph:4: o.wav: ",
};

/// The same without a line.
const OF_NONE: Asked = Asked {
    line: None,
    before: b"",
    ..OF_SINK
};

/// Files and outputs that fail, and no memory.
const FILES: &'static [Said] = &[
    (
        Asked {
            command: "dump a.pod",
            before: b"a.pod: ",
            ..OF_NONE
        },
        Status::ReadFault { place: 1 },
        b"the file cannot be read",
    ),
    (
        OF_SINK,
        Status::WriteFault { place: 4 },
        b"the file cannot be written",
    ),
    (
        OF_NONE,
        Status::WriteFault { place: 0 },
        b"standard output cannot be written",
    ),
    (OF_NONE, Status::Memory, b"no memory was left"),
];

#[test]
fn each_fault_of_a_file_has_its_sentence(rt: HostRuntime) {
    assert_eq!(rt; said_unlike(rt.alloc(), FILES), None);
}
