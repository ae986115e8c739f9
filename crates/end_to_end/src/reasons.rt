//! What a call finds of a trace: the reason for which it is no legal history and the event there,
//! each worked out by hand.

use crate::finding::found_in;
use pw_graph::Event;
use pw_lists::{Items, Memory, Text};
use pw_top::What;
use row_files::{S_WAV, SURE, add, files_of};
use std::sync::Wait;
use std::test::Fail;
use std::thread::Threads;
use trace_check::{Cause, Reason};

/// A source, node 0, that a meter, node 1, and a sink, node 2, read; the meter drives, since its
/// number is lower.
const METER: &'static [u8] = b"quantum 2\nsource s s.wav\nmeter p\nsink o o.wav\ndriver o 5\n\
    driver p 5\nlink s.out p.in\nlink s.out o.in\ncycles 1\n";

/// Its one cycle.
const LEGAL: &'static [u8] =
    b"begin 0\nstart 0 s\nfinish 0 s\nstart 0 o\nfinish 0 o\nstart 0 p\nfinish 0 p\nend 0\n";

// What a line finds where this trace is held as t.txt, and one put fails, if any.
fn found_by<R: Threads + Wait + Sync + AllocGlobal>(
    rt: &R,
    line: &str,
    trace: &[u8],
    failing: u64,
) -> Result<What, Memory> {
    let alloc = rt.alloc();
    let mut files = files_of(alloc, METER, [S_WAV].as_slice(), SURE)?;
    add(alloc, &mut files, "t.txt", trace)?;
    let (found, _out) = found_in(rt, line, &mut files, failing)?;
    Ok(found.what)
}

/// What is wanted of a trace: why its events are not legal and the event there, if they are not; or
/// a line that is of no event.
#[derive(Clone, Copy, Drop)]
enum Wanted {
    Events(Option<Reason>, Option<Event>),
    Line(u64),
}

/// A legal trace, one whose sink starts before the source has finished, one that is cut short, one
/// that goes on, and one with a line of no event.
const TRACES: &'static [(&'static [u8], Wanted)] = &[
    (LEGAL, Wanted::Events(None, None)),
    (
        b"begin 0\nstart 0 s\nstart 0 o\nfinish 0 s\nfinish 0 o\nstart 0 p\nfinish 0 p\nend 0\n",
        Wanted::Events(
            Some(Reason {
                at: 3,
                cause: Cause::WaitsFor { node: 0 },
            }),
            Some(Event::Start { cycle: 0, node: 2 }),
        ),
    ),
    (
        b"begin 0\nstart 0 s\nfinish 0 s\nstart 0 o\n",
        Wanted::Events(
            Some(Reason {
                at: 5,
                cause: Cause::NotFinished { cycle: 0, node: 1 },
            }),
            None,
        ),
    ),
    (
        b"begin 0\nstart 0 s\nfinish 0 s\nstart 0 o\nfinish 0 o\nstart 0 p\nfinish 0 p\nend 0\n\
        begin 1\n",
        Wanted::Events(
            Some(Reason {
                at: 9,
                cause: Cause::AllEnded,
            }),
            Some(Event::Begin { cycle: 1 }),
        ),
    ),
    (b"begin 0\nstart 0 zz\n", Wanted::Line(2)),
];

// Whether these are the names of the script's nodes.
fn are_names(names: &Items<Text>) -> bool {
    match names.as_slice() {
        [s, p, o] => {
            s.as_slice() == b"s".as_slice()
                && p.as_slice() == b"p".as_slice()
                && o.as_slice() == b"o".as_slice()
        }
        _ => false,
    }
}

// Whether what is found is what is wanted.
fn is_wanted(what: &What, wanted: Wanted) -> bool {
    match (what, wanted) {
        (
            What::Check {
                names,
                reason,
                event,
            },
            Wanted::Events(why, at),
        ) => are_names(names) && *reason == why && *event == at,
        (What::NoEvent { number }, Wanted::Line(line)) => *number == line,
        _ => false,
    }
}

// The first trace of which a check finds something else.
fn trace_unlike<R: Threads + Wait + Sync + AllocGlobal>(
    rt: &R,
    rows: &[(&[u8], Wanted)],
) -> Result<Option<usize>, Memory> {
    for (row, (trace, wanted)) in rows.iter().enumerate() {
        if !is_wanted(&found_by(rt, "check s.graph t.txt", trace, 0)?, *wanted) {
            return Ok(Some(row));
        }
    }
    Ok(None)
}

#[test]
fn a_check_finds_why_a_trace_is_not_legal(rt: HostRuntime) -> Result<(), Fail> {
    assert_eq!(rt; trace_unlike(&rt, TRACES)?, None);
    Ok(())
}

// Whether nothing is found.
fn is_nothing(what: &What) -> bool {
    matches!(what, What::Nothing)
}

#[test]
fn what_is_refused_finds_nothing(rt: HostRuntime) -> Result<(), Fail> {
    for line in ["check s.graph", "check none t.txt", "check s.graph none"] {
        assert!(rt; is_nothing(&found_by(&rt, line, LEGAL, 0)?), "{line}");
    }
    Ok(())
}

#[test]
fn a_check_whose_text_is_not_put_finds_nothing(rt: HostRuntime) -> Result<(), Fail> {
    assert!(rt; is_nothing(&found_by(&rt, "check s.graph t.txt", LEGAL, 1)?));
    Ok(())
}
