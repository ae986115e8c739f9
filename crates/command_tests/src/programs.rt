//! What the program does with words, files, an output and an error output, all in memory.

use pw_lists::{Items, Memory};
use pw_outside::{FileFail, Files, MemSink, SureFiles, SureSink};
use pw_program::{Asked, run_program, run_read};
use row_files::{Faults, S_WAV, SCRIPT, SURE, files_of, words_of};
use std::alloc::Global;
use std::sync::Wait;
use std::test::Fail;
use std::thread::Threads;
use system_files::Unread;

/// A line of words over files, the number that it ends with, and what both outputs are given.
#[derive(Clone, Copy, Drop)]
struct Told {
    line: &'static str,
    script: &'static [u8],
    faults: Faults,
    code: u8,
    out: &'static [u8],
    errors: &'static [u8],
    /// The put of the error output that fails, counted from 1, and how many bytes it takes.
    failing: (u64, u64),
    /// The first load that is not made, counted from 1.
    next_load: u64,
}

/// A script that names no node.
const REFUSED: Told = Told {
    line: "run s.graph",
    script: b"gain a 1\non vox\n",
    faults: SURE,
    code: 2,
    out: b"script 2 7\n",
    errors: b"pipegraph: s.graph:2: no line before this one makes a node called \"vox\"\n",
    failing: (0, 0),
    next_load: 2,
};

/// A refusal, one whose sentence cannot be written, an accepted script, a script that its first sink overwrites before the store of the second fails, and words that are no
/// command line.
const ROWS: &'static [Told] = &[
    REFUSED,
    Told {
        errors: b"pipegraph",
        failing: (1, 9),
        ..REFUSED
    },
    Told {
        script: SCRIPT,
        code: 0,
        out: b"link s.out o.in 48000 1 2\nwrote o 4\n",
        errors: b"",
        next_load: 3,
        ..REFUSED
    },
    Told {
        script: b"quantum 2\nsource s s.wav\nsink a s.graph\nsink o o.wav\nlink s.out a.in\n\
            link s.out o.in\ncycles 1\n",
        faults: Faults {
            store: (2, 0),
            ..SURE
        },
        code: 7,
        out: b"write 4\n",
        errors: b"pipegraph: s.graph:4: o.wav: the file cannot be written\n",
        next_load: 3,
        ..REFUSED
    },
    Told {
        line: "run s.graph --ticks 7",
        ..REFUSED
    },
];

// Whether the next load is the one that fails.
fn fails_next<F: Files>(alloc: Global, files: &mut F) -> bool {
    matches!(
        files.load(alloc, &Items::new(alloc), 0),
        Err(FileFail::Failed)
    )
}

// Whether a row comes out as wanted.
fn comes_out<R: Threads + Wait + Sync + AllocGlobal>(rt: &R, told: Told) -> Result<bool, Memory> {
    let alloc = rt.alloc();
    let words = words_of(alloc, told.line)?;
    let mut files = files_of(alloc, told.script, &[S_WAV], told.faults)?;
    files.fail_load(alloc, told.next_load)?;
    let out = MemSink::new(alloc)?;
    let mut errors = MemSink::new(alloc)?;
    errors.fail_put(alloc, told.failing.0, told.failing.1)?;
    let mut ended = run_program(rt, alloc, words.as_slice(), files, out, &mut errors);
    Ok(
        ended.code == told.code
            && ended.out.bytes().as_slice() == told.out
            && errors.bytes().as_slice() == told.errors
            && fails_next(alloc, &mut ended.files),
    )
}

// The first row that does not come out as wanted.
fn first_unlike<R: Threads + Wait + Sync + AllocGlobal>(rt: &R, rows: &[Told]) -> Option<usize> {
    for (place, told) in rows.iter().enumerate() {
        match comes_out(rt, *told) {
            Ok(true) => {}
            _ => return Some(place),
        }
    }
    None
}

#[test]
fn programs_end_and_say_why(rt: HostRuntime) {
    assert_eq!(rt; first_unlike(&rt, ROWS), None);
}

#[test]
fn words_that_were_not_read_have_their_sentence(rt: HostRuntime) -> Result<(), Fail> {
    let alloc = rt.alloc();
    let rows = [
        (
            Unread::NoText { word: 3 },
            1,
            b"pipegraph: word 3 is not text in UTF-8\n".as_slice(),
        ),
        (Unread::Memory, 9, b"pipegraph: no memory was left\n"),
    ];
    for (unread, code, sentence) in rows {
        let (files, out) = (SureFiles::new(alloc)?, SureSink::new(alloc)?);
        let mut errors = SureSink::new(alloc)?;
        let exit = run_read(&rt, alloc, Err(unread), files, out, &mut errors);
        assert_eq!(rt; (exit.code, exit.said), (code, Ok(())));
        assert!(rt; matches!(exit.ticker, Asked::Never));
        assert!(rt; exit.out.bytes().as_slice().is_empty());
        assert!(rt; errors.bytes().as_slice() == sentence);
    }
    Ok(())
}

#[test]
fn words_that_were_read_are_run_by_their_ticker(rt: HostRuntime) -> Result<(), Fail> {
    let alloc = rt.alloc();
    for (line, ticks) in [("run s.graph", false), ("run s.graph --ticks 7", true)] {
        let words = words_of(alloc, line)?;
        let files = files_of(alloc, SCRIPT, &[S_WAV], SURE)?;
        let (out, mut errors) = (MemSink::new(alloc)?, MemSink::new(alloc)?);
        let exit = run_read(&rt, alloc, Ok(words), files, out, &mut errors);
        assert_eq!(rt; (exit.code, exit.said), (0, Ok(())));
        assert_eq!(rt; matches!(exit.ticker, Asked::Every(_)), ticks);
        let text = b"link s.out o.in 48000 1 2\nwrote o 4\n".as_slice();
        assert!(rt; exit.out.bytes().as_slice() == text);
        assert!(rt; errors.bytes().as_slice().is_empty());
    }
    Ok(())
}
