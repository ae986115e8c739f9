//! What is stored under a name, compared with what is wanted.

use crate::held::{Held, bytes_of};
use pw_lists::Items;
use pw_outside::MemFiles;
use std::alloc::Global;

/// A name, and what is wanted under it: nothing where there is to be no file.
pub type Stored<'a> = (&'a str, Option<Held<'a>>);

// Whether these bytes, or none, are stored under a name.
fn stands(alloc: Global, files: &MemFiles, name: &str, bytes: Option<&[u8]>) -> bool {
    let Ok(name) = Items::from_slice(alloc, name.as_bytes()) else {
        return false;
    };
    match (files.file(&name), bytes) {
        (Some(held), Some(bytes)) => held.as_slice() == bytes,
        (None, None) => true,
        _ => false,
    }
}

// Whether it is as wanted under a name.
fn is_stored(alloc: Global, files: &MemFiles, wanted: Stored<'_>) -> bool {
    match wanted {
        (name, None) => stands(alloc, files, name, None),
        (name, Some(held)) => match bytes_of(alloc, held) {
            Ok(bytes) => stands(alloc, files, name, Some(bytes.as_slice())),
            Err(_memory) => false,
        },
    }
}

/// Whether it is as wanted under each of these names.
pub fn all_stored(alloc: Global, files: &MemFiles, rows: &[Stored<'_>]) -> bool {
    for wanted in rows {
        if !is_stored(alloc, files, *wanted) {
            return false;
        }
    }
    true
}
