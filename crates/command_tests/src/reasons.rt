//! What the note on a trace that is no legal history says of nodes that have no name, and where the
//! event is not that of the cause.

use crate::found_values::found_of;
use fault_messages::explain;
use pw_graph::Event;
use pw_lists::{Items, Memory, Text};
use pw_top::{Status, What};
use row_files::words_of;
use std::alloc::Global;
use trace_check::{Cause, Reason};

// The names of nodes.
fn names_of(alloc: Global, names: &[&str]) -> Result<Items<Text>, Memory> {
    let mut texts = Items::new(alloc);
    for name in names {
        let text = Items::from_slice(alloc, name.as_bytes())?;
        texts.push(text)?;
    }
    Ok(texts)
}

// What is said of a node for which the node of an event waits, by the names of a script's nodes.
fn said_of(alloc: Global, names: &[&str], event: Option<Event>, node: u32) -> Result<Text, Memory> {
    let words = words_of(alloc, "check s.graph t.txt")?;
    let names = names_of(alloc, names)?;
    let what = What::Check {
        names,
        reason: Some(Reason {
            at: 12,
            cause: Cause::WaitsFor { node },
        }),
        event,
    };
    let found = found_of(alloc, None, None, &[], what)?;
    explain(alloc, &Status::Ok, &found, None, words.as_slice())
}

/// The names of a script's nodes, an event, a node for which its node waits, and what is said.
type Named = (&'static [&'static str], Option<Event>, u32, &'static [u8]);

/// The names of the nodes of a script.
const NAMES: &'static [&'static str] = &["s", "p", "o", "q"];

// Whether what is said is as wanted.
fn is_named(alloc: Global, named: Named) -> bool {
    let (names, event, node, said) = named;
    match said_of(alloc, names, event, node) {
        Ok(text) => text.as_slice() == said,
        Err(_memory) => false,
    }
}

/// Nodes that have a name and that have none, and events that are not of the cause.
const NODES: &'static [Named] = &[
    (
        NAMES,
        Some(Event::Start { cycle: 7, node: 2 }),
        3,
        b"pipegraph: t.txt:12: start 7 o: \"o\" waits for \"q\", \
            which has not finished in cycle 7\n",
    ),
    (
        NAMES,
        Some(Event::Start { cycle: 7, node: 3 }),
        4,
        b"pipegraph: t.txt:12: start 7 q: \"q\" waits for node 4, \
            which has not finished in cycle 7\n",
    ),
    (
        &[],
        Some(Event::Finish { cycle: 7, node: 1 }),
        63,
        b"pipegraph: t.txt:12: finish 7 node 1: node 1 waits for \"dummy\", \
            which has not finished in cycle 7\n",
    ),
    (
        &[],
        Some(Event::Tick {
            cycle: 7,
            late: 9_223_372_036_854_775_809,
        }),
        0,
        b"pipegraph: t.txt:12: tick 7 node 0 dummy: its node waits for node 0, \
            which has not finished in cycle 7\n",
    ),
    (
        NAMES,
        None,
        0,
        b"pipegraph: t.txt:12: the trace ends too soon: an event is missing\n",
    ),
];

#[test]
fn a_node_is_called_by_its_name_or_by_its_number(rt: HostRuntime) {
    for named in NODES {
        assert!(rt; is_named(rt.alloc(), *named));
    }
}
