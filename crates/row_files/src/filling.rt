//! Files in memory of rows, some of whose calls fail.

use crate::held::{FileRow, bytes_of};
use pw_lists::{Items, Memory};
use pw_outside::{MemFiles, MemSink};
use std::alloc::Global;

/// The calls that fail. They are counted from 1, so that 0 is no call; a store and a put fail after
/// so many bytes.
#[derive(Clone, Copy, Drop)]
pub struct Faults {
    pub load: u64,
    pub store: (u64, u64),
    pub put: (u64, u64),
}

/// No call fails.
pub const SURE: Faults = Faults {
    load: 0,
    store: (0, 0),
    put: (0, 0),
};

/// Adds a file of these bytes.
pub fn add(alloc: Global, files: &mut MemFiles, name: &str, bytes: &[u8]) -> Result<(), Memory> {
    match Items::from_slice(alloc, name.as_bytes()) {
        Ok(name) => files.add_file(alloc, &name, bytes),
        Err(memory) => Err(memory),
    }
}

// Adds a file of a row.
fn add_row(alloc: Global, files: &mut MemFiles, row: FileRow<'_>) -> Result<(), Memory> {
    let (name, held) = row;
    match bytes_of(alloc, held) {
        Ok(bytes) => add(alloc, files, name, bytes.as_slice()),
        Err(memory) => Err(memory),
    }
}

// Adds a script and the files of rows.
fn add_all(
    alloc: Global,
    files: &mut MemFiles,
    script: &[u8],
    rows: &[FileRow<'_>],
) -> Result<(), Memory> {
    add(alloc, files, "s.graph", script)?;
    for row in rows {
        add_row(alloc, files, *row)?;
    }
    Ok(())
}

// Lets a load and a store fail.
fn let_fail(alloc: Global, files: &mut MemFiles, faults: Faults) -> Result<(), Memory> {
    files.fail_load(alloc, faults.load)?;
    files.fail_store(alloc, faults.store.0, faults.store.1)
}

/// Files that hold a script, as s.graph, and those of rows, where calls fail.
pub fn files_of(
    alloc: Global,
    script: &[u8],
    rows: &[FileRow<'_>],
    faults: Faults,
) -> Result<MemFiles, Memory> {
    let mut files = MemFiles::new(alloc)?;
    add_all(alloc, &mut files, script, rows)?;
    match let_fail(alloc, &mut files, faults) {
        Ok(()) => Ok(files),
        Err(memory) => Err(memory),
    }
}

/// An output of which a put fails.
pub fn sink_of(alloc: Global, faults: Faults) -> Result<MemSink, Memory> {
    let mut out = MemSink::new(alloc)?;
    match out.fail_put(alloc, faults.put.0, faults.put.1) {
        Ok(()) => Ok(out),
        Err(memory) => Err(memory),
    }
}
