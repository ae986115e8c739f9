//! Runs of the program as rows: a line of words, the files that it finds, and what is wanted.

use crate::command_line::run_line;
use crate::comparing::{Stored, all_stored};
use crate::filling::{Faults, SURE, add, files_of, sink_of};
use crate::held::FileRow;
use crate::script_files::blanks;
use pw_outside::{Files, MemFiles};
use pw_top::Status;
use std::sync::Wait;
use std::thread::Threads;

/// A line of words over files in memory, and what is wanted of it: its status, its text, and what
/// is then stored under some names.
#[derive(Clone, Copy, Drop)]
pub struct Row<'a> {
    pub line: &'a str,
    /// The file s.graph.
    pub script: &'a [u8],
    pub files: &'a [FileRow<'a>],
    pub faults: Faults,
    pub status: Status,
    pub text: &'a [u8],
    pub stored: &'a [Stored<'a>],
}

/// A run of an empty script, which says nothing.
pub const RUN: Row<'static> = Row {
    line: "run s.graph",
    script: b"",
    files: &[],
    faults: SURE,
    status: Status::Ok,
    text: b"",
    stored: &[],
};

/// Whether a line over these files ends with this status and this text, where a put fails.
pub fn ends_so<R: Threads + Wait + Sync + AllocGlobal, F: Files>(
    rt: &R,
    files: &mut F,
    faults: Faults,
    line: &str,
    status: Status,
    text: &[u8],
) -> bool {
    let Ok(mut out) = sink_of(rt.alloc(), faults) else {
        return false;
    };
    match run_line(rt, line, files, &mut out) {
        Ok(ended) => ended == status && out.bytes().as_slice() == text,
        Err(_memory) => false,
    }
}

// Whether a row is as wanted over these files.
fn comes_out<R: Threads + Wait + Sync + AllocGlobal>(
    rt: &R,
    row: Row<'_>,
    files: &mut MemFiles,
) -> bool {
    ends_so(rt, files, row.faults, row.line, row.status, row.text)
        && all_stored(rt.alloc(), files, row.stored)
}

/// Whether a row is as wanted.
pub fn is_so<R: Threads + Wait + Sync + AllocGlobal>(rt: &R, row: Row<'_>) -> bool {
    match files_of(rt.alloc(), row.script, row.files, row.faults) {
        Ok(mut files) => comes_out(rt, row, &mut files),
        Err(_memory) => false,
    }
}

/// Whether a row is as wanted where these bytes are held under this name.
pub fn is_so_with<R: Threads + Wait + Sync + AllocGlobal>(
    rt: &R,
    row: Row<'_>,
    name: &str,
    bytes: &[u8],
) -> bool {
    let Ok(mut files) = files_of(rt.alloc(), row.script, row.files, row.faults) else {
        return false;
    };
    match add(rt.alloc(), &mut files, name, bytes) {
        Ok(()) => comes_out(rt, row, &mut files),
        Err(_memory) => false,
    }
}

/// Whether a row is as wanted where so many blanks are held under this name.
pub fn is_so_with_blanks<R: Threads + Wait + Sync + AllocGlobal>(
    rt: &R,
    row: Row<'_>,
    name: &str,
    len: usize,
) -> bool {
    match blanks(rt.alloc(), len) {
        Ok(bytes) => is_so_with(rt, row, name, bytes.as_slice()),
        Err(_memory) => false,
    }
}

/// The length of the first front of these bytes, held under this name, with which a row is not as
/// wanted. The bytes as a whole are no front.
pub fn front_unlike<R: Threads + Wait + Sync + AllocGlobal>(
    rt: &R,
    row: Row<'_>,
    name: &str,
    bytes: &[u8],
) -> Option<usize> {
    for len in 0..bytes.len() {
        if !is_so_with(rt, row, name, &bytes[..len]) {
            return Some(len);
        }
    }
    None
}

/// The place of the first row that is not as wanted.
pub fn first_unlike<R: Threads + Wait + Sync + AllocGlobal>(
    rt: &R,
    rows: &[Row<'_>],
) -> Option<usize> {
    for (place, row) in rows.iter().enumerate() {
        if !is_so(rt, *row) {
            return Some(place);
        }
    }
    None
}
