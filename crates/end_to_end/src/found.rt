//! What a call finds beside its report: the script that it read, and what it stored and put.

use crate::finding::found_in;
use pw_lists::{Items, Memory};
use pw_outside::MemSink;
use pw_top::{Found, Work};
use row_files::{S_WAV, SURE, add, files_of};
use std::sync::Wait;
use std::test::Fail;
use std::thread::Threads;

/// A source, and the sink of line 3 that keeps it for a cycle.
const SCRIPT: &'static [u8] =
    b"quantum 2\nsource s s.wav\nsink o o.wav\nlink s.out o.in\ncycles 1\n";

/// A script whose second line is at fault.
const BAD: &'static [u8] = b"quantum 2\nsource\n";

// What a line finds, and the text that it put, where one put fails, if any.
fn found_by<R: Threads + Wait + Sync + AllocGlobal>(
    rt: &R,
    line: &str,
    failing: u64,
) -> Result<(Found, MemSink), Memory> {
    let alloc = rt.alloc();
    let mut files = files_of(alloc, SCRIPT, [S_WAV].as_slice(), SURE)?;
    add(alloc, &mut files, "bad.graph", BAD)?;
    found_in(rt, line, &mut files, failing)
}

// Whether a line finds these bytes of a script.
fn finds_script<R: Threads + Wait + Sync + AllocGlobal>(
    rt: &R,
    line: &str,
    expected: Option<&[u8]>,
) -> Result<bool, Memory> {
    let (found, _out) = found_by(rt, line, 0)?;
    Ok(match (&found.script, expected) {
        (None, None) => true,
        (Some(script), Some(bytes)) => script.as_slice() == bytes,
        _ => false,
    })
}

#[test]
fn a_script_that_was_read_is_found_whatever_is_wrong_with_it(rt: HostRuntime) -> Result<(), Fail> {
    for line in ["run s.graph", "groups s.graph", "check s.graph none"] {
        assert!(rt; finds_script(&rt, line, Some(SCRIPT))?, "{line}");
    }
    assert!(rt; finds_script(&rt, "run bad.graph", Some(BAD))?);
    for line in [
        "run none",
        "run s.graph --loops",
        "dump s.graph",
        "soak 1",
        "",
    ] {
        assert!(rt; finds_script(&rt, line, None)?, "{line}");
    }
    Ok(())
}

// Whether work is one store of the sink, and this text.
fn is_work(work: &Work, text: &Items<u8>) -> bool {
    match work.stores.as_slice() {
        [store] => {
            store.place == 3
                && store.name.as_slice() == b"o.wav".as_slice()
                && work.text.as_slice() == text.as_slice()
        }
        _ => false,
    }
}

#[test]
fn what_was_stored_and_put_is_found(rt: HostRuntime) -> Result<(), Fail> {
    let (found, out) = found_by(&rt, "run s.graph", 0)?;
    let Some(work) = &found.work else {
        panic!(rt; "no work was found");
    };
    assert!(rt; is_work(work, out.bytes()));
    Ok(())
}

#[test]
fn no_work_is_found_where_not_all_was_done(rt: HostRuntime) -> Result<(), Fail> {
    for line in ["run none", "run bad.graph", "", "soak x"] {
        let (found, _out) = found_by(&rt, line, 0)?;
        assert!(rt; found.work.is_none(), "{line}");
    }
    let (found, _out) = found_by(&rt, "run s.graph", 1)?;
    assert!(rt; found.work.is_none());
    assert!(rt; found.script.is_some());
    Ok(())
}
