//! What a line finds, over files and an output in memory.

use pw_lists::Memory;
use pw_outside::{MemFiles, MemSink, Never, Open};
use pw_top::{Found, Ran, run_words_with};
use row_files::words_of;
use std::sync::Wait;
use std::thread::Threads;

/// What a line finds over these files, and the text that it put, where one put fails, if any.
pub fn found_in<R: Threads + Wait + Sync + AllocGlobal>(
    rt: &R,
    line: &str,
    files: &mut MemFiles,
    failing: u64,
) -> Result<(Found, MemSink), Memory> {
    let alloc = rt.alloc();
    let words = words_of(alloc, line)?;
    let mut out = MemSink::new(alloc)?;
    out.fail_put(alloc, failing, 0)?;
    let Ran {
        report: _report,
        found,
    } = run_words_with(
        rt,
        alloc,
        words.as_slice(),
        files,
        &mut out,
        &Open::new(),
        &mut Never::new(),
    );
    Ok((found, out))
}
