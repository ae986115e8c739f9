//! What runs by several loops print of their events is legal.

use pw_lists::{Items, Memory};
use pw_outside::{MemFiles, MemSink};
use pw_top::Status;
use row_files::{FileRow, Held, SURE, add, ends_so, files_of, run_line};
use std::alloc::Global;
use std::str;
use std::sync::Wait;
use std::thread::Threads;

/// A split and a mixer whose nodes belong to four loops, in two epochs.
const SPREAD: &'static [u8] = b"quantum 4\nsource s st.wav\nsplit x\nmix2 m 256 256\n\
    sink o o.wav\nmeter p\ndriver o 1\nloop x 1\nloop m 2\nloop p 3\nlink s.out x.in\n\
    link x.left m.a\nlink x.right m.b\nlink m.out o.in\nlink m.out p.in\ncycles 5\noff s\n\
    cycles 3\n";

/// Its source.
const SPREAD_FILES: &'static [FileRow<'static>] = &[(
    "st.wav",
    Held::Stereo(&[1, 10, 2, 20, 3, 30, 4, 40]),
)];

// Whether a line of a run's text is of an event.
fn is_event(line: &str) -> bool {
    let words = ["begin ", "start ", "finish ", "tick ", "end "];
    words.iter().any(|word| line.starts_with(*word))
}

// Appends the event lines of a run's text.
fn append_events(events: &mut Items<u8>, text: &str) -> Result<(), Memory> {
    for line in text.lines() {
        if is_event(line) {
            events.extend(line.as_bytes())?;
            events.push(b'\n')?;
        }
    }
    Ok(())
}

// The event lines of a run's text.
fn events_in(alloc: Global, text: &[u8]) -> Result<Items<u8>, Memory> {
    let mut events = Items::new(alloc);
    match append_events(&mut events, str::from_utf8(text).unwrap_or("")) {
        Ok(()) => Ok(events),
        Err(memory) => Err(memory),
    }
}

// What a run that ends well prints of its events; nothing where it does not.
fn events_of<R: Threads + Wait + Sync + AllocGlobal>(
    rt: &R,
    files: &mut MemFiles,
    line: &str,
) -> Result<Items<u8>, Memory> {
    let mut out = MemSink::new(rt.alloc())?;
    match run_line(rt, line, files, &mut out) {
        Ok(Status::Ok) => events_in(rt.alloc(), out.bytes().as_slice()),
        _ => Ok(Items::new(rt.alloc())),
    }
}

// Whether the check finds these events legal, where there are any.
fn are_legal<R: Threads + Wait + Sync + AllocGlobal>(
    rt: &R,
    files: &mut MemFiles,
    events: &[u8],
) -> bool {
    match add(rt.alloc(), files, "t.txt", events) {
        Ok(()) => {
            let line = "check s.graph t.txt";
            !events.is_empty() && ends_so(rt, files, SURE, line, Status::Ok, b"legal\n")
        }
        Err(_memory) => false,
    }
}

// Whether what a run prints is legal.
fn runs_legally<R: Threads + Wait + Sync + AllocGlobal>(rt: &R, line: &str) -> bool {
    let Ok(mut files) = files_of(rt.alloc(), SPREAD, SPREAD_FILES, SURE) else {
        return false;
    };
    match events_of(rt, &mut files, line) {
        Ok(events) => are_legal(rt, &mut files, events.as_slice()),
        Err(_memory) => false,
    }
}

#[test]
fn what_runs_print_is_legal(rt: HostRuntime) {
    for line in [
        "run s.graph --trace --loops 0",
        "run s.graph --trace",
        "run s.graph --trace --loops 2",
        "run s.graph --trace --loops 3 --ticks 2",
        "run s.graph --trace --loops 4 --ticks 1",
    ] {
        assert!(rt; runs_legally(&rt, line), "{line}");
    }
}
