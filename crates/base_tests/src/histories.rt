//! Histories that are legal, and ones that are not.

use crate::rows::{EpochRow, ShapeRow, epochs_of};
use crate::shapes::{DRIVER_ALONE, NODE_ALONE, TWO_LINKS};
use graph_checks::is_legal_history;
use pw_graph::{DUMMY, Event};
use pw_lists::{Items, Memory};
use std::alloc::Global;
use std::test::Fail;

// The event of cycle 0 that a letter names: [ and ] are Begin and End, A is the Start of node 0 and
// a its Finish,
// - is a Tick without a late node, and a digit a Tick with that one; ? and ! are of cycle 1.
fn event_named(letter: u8) -> Event {
    match letter {
        b'[' => Event::Begin { cycle: 0 },
        b']' => Event::End { cycle: 0 },
        b'A'..=b'Z' => Event::Start {
            cycle: 0,
            node: u32::from(letter - b'A'),
        },
        b'a'..=b'z' => Event::Finish {
            cycle: 0,
            node: u32::from(letter - b'a'),
        },
        b'0'..=b'9' => Event::Tick {
            cycle: 0,
            late: 1 << (letter - b'0'),
        },
        b'-' => Event::Tick { cycle: 0, late: 0 },
        b'?' => Event::Start { cycle: 1, node: 0 },
        _ => Event::End { cycle: 1 },
    }
}

/// One epoch of the worked shape.
const WORKED: [EpochRow<'static>; 1] = [EpochRow {
    shape: TWO_LINKS,
    forms: &[],
    fresh: &[],
}];

// Whether the events that letters name are a legal history of the worked shape.
fn is_legal(alloc: Global, letters: &[u8]) -> Result<bool, Memory> {
    let mut events = Items::new(alloc);
    for letter in letters {
        events.push(event_named(*letter))?;
    }
    let epochs = epochs_of(alloc, WORKED.as_slice())?;
    Ok(is_legal_history(epochs.as_slice(), events.as_slice()))
}

#[test]
fn histories_are_legal_or_not(rt: HostRuntime) -> Result<(), Fail> {
    for (letters, legal) in [
        (b"[AaBbCcDd]".as_slice(), true),
        (b"[AaBb2CcDd]".as_slice(), true),
        (b"[1AaBbCcDd]".as_slice(), true),
        (b"[AaB1bCcDd]".as_slice(), true),
        (b"[AaBbCc-Dd]".as_slice(), true),
        (b"".as_slice(), false),
        (b"AaBbCcDd]".as_slice(), false),
        (b"[AaBbCcDd".as_slice(), false),
        (b"[AaBbCcDd]]".as_slice(), false),
        (b"[[AaBbCcDd]".as_slice(), false),
        (b"[AaBCbcDd]".as_slice(), false),
        (b"[AaBbCDcd]".as_slice(), false),
        (b"[AAaBbCcDd]".as_slice(), false),
        (b"[AaaBbCcDd]".as_slice(), false),
        (b"[aABbCcDd]".as_slice(), false),
        (b"[AaBbDd]".as_slice(), false),
        (b"[AaBbCcFfDd]".as_slice(), false),
        (b"[AaBbCcD-d]".as_slice(), false),
        (b"[--AaBbCcDd]".as_slice(), false),
        (b"[Aa0BbCcDd]".as_slice(), false),
        (b"[3AaBbCcDd]".as_slice(), false),
        (b"[4AaBbCcDd]".as_slice(), false),
        (b"[AaBbCcDd!".as_slice(), false),
        (b"[?aBbCcDd]".as_slice(), false),
    ] {
        assert_eq!(rt; is_legal(rt.alloc(), letters)?, legal, "{letters:?}");
    }
    Ok(())
}

/// Two cycles of the built-in driver, then one of node 0.
const TWO_EPOCHS: [EpochRow<'static>; 2] = [
    EpochRow {
        shape: ShapeRow {
            cycles: 2,
            ..DRIVER_ALONE
        },
        forms: &[],
        fresh: &[],
    },
    EpochRow {
        shape: ShapeRow {
            first: 2,
            ..NODE_ALONE
        },
        forms: &[],
        fresh: &[],
    },
];

// Whether cycles, from the first on, that have these nodes are a legal history of the two epochs.
fn are_legal(alloc: Global, nodes: &[u32]) -> Result<bool, Memory> {
    let mut events = Items::new(alloc);
    let mut cycle: u32 = 0;
    for node in nodes {
        let node = *node;
        events.extend(&[
            Event::Begin { cycle },
            Event::Start { cycle, node },
            Event::Finish { cycle, node },
            Event::End { cycle },
        ])?;
        cycle = cycle.wrapping_add(1);
    }
    let epochs = epochs_of(alloc, TWO_EPOCHS.as_slice())?;
    Ok(is_legal_history(epochs.as_slice(), events.as_slice()))
}

#[test]
fn cycles_follow_one_another(rt: HostRuntime) -> Result<(), Fail> {
    assert!(rt; is_legal_history(&[], &[]));
    for (nodes, legal) in [
        ([DUMMY, DUMMY].as_slice(), false),
        ([DUMMY, DUMMY, 0].as_slice(), true),
        ([DUMMY, DUMMY, 0, 0].as_slice(), false),
    ] {
        assert_eq!(rt; are_legal(rt.alloc(), nodes)?, legal, "{nodes:?}");
    }
    Ok(())
}
