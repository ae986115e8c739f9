//! A line of words, and a run of the program on it.

use pw_lists::{Items, Memory};
use pw_outside::{Every, Files, MemSink, Never, Open, Ticker};
use pw_top::{Status, run_words, ticks_of};
use std::alloc::Global;
use std::sync::Wait;
use std::thread::Threads;

/// The words of a line, which blanks part.
pub fn words_of(alloc: Global, line: &str) -> Result<Items<String>, Memory> {
    let mut words = Items::new(alloc);
    for word in line.split_whitespace() {
        let word = String::from_str(alloc, word)?;
        words.push(word)?;
    }
    Ok(words)
}

// Runs words with a ticker, and answers the status.
fn run_by<R: Threads + Wait + Sync + AllocGlobal, F: Files, K: Ticker>(
    rt: &R,
    words: &[String],
    files: &mut F,
    out: &mut MemSink,
    ticker: &mut K,
) -> Status {
    let report = run_words(rt, rt.alloc(), words, files, out, &Open::new(), ticker);
    report.status
}

/// Runs the words of a line, with the ticker that they ask for, and answers the status.
pub fn run_line<R: Threads + Wait + Sync + AllocGlobal, F: Files>(
    rt: &R,
    line: &str,
    files: &mut F,
    out: &mut MemSink,
) -> Result<Status, Memory> {
    let words = words_of(rt.alloc(), line)?;
    match ticks_of(words.as_slice()) {
        0 => Ok(run_by(rt, words.as_slice(), files, out, &mut Never::new())),
        n => Ok(run_by(
            rt,
            words.as_slice(),
            files,
            out,
            &mut Every::new(u64::from(n)),
        )),
    }
}
