//! What is said of a file that the system refuses, by its reason.

use fault_messages::message;
use pw_lists::Memory;
use pw_top::Status;
use row_files::words_of;
use std::alloc::Global;
use std::test::Fail;
use system_files::FileWhy;

/// Why the system refuses a file, and what is said.
const WHYS: &'static [(Status, FileWhy, &'static [u8])] = &[
    (
        Status::WriteFault { place: 1 },
        FileWhy::NoFolder,
        b"pipegraph: a: the file cannot be written: there is no such folder, \
            or it can have no such file\n",
    ),
    (
        Status::WriteFault { place: 1 },
        FileWhy::Folder,
        b"pipegraph: a: the file cannot be written: it is a folder\n",
    ),
    (
        Status::WriteFault { place: 1 },
        FileWhy::Permission,
        b"pipegraph: a: the file cannot be written: the system does not permit it\n",
    ),
    (
        Status::WriteFault { place: 1 },
        FileWhy::Full,
        b"pipegraph: a: the file cannot be written: no room is left\n",
    ),
    (
        Status::ReadFault { place: 1 },
        FileWhy::Folder,
        b"pipegraph: a: the file cannot be read: it is a folder\n",
    ),
    (
        Status::WriteFault { place: 0 },
        FileWhy::Full,
        b"pipegraph: standard output cannot be written\n",
    ),
];

// The first reason of which something else is said.
fn why_unlike(alloc: Global) -> Result<Option<usize>, Memory> {
    let words = words_of(alloc, "dump a")?;
    for (place, (status, why, said)) in WHYS.iter().enumerate() {
        let words = words.as_slice();
        let text = message(alloc, status, Some(*why), words, None, b"".as_slice())?;
        if text.as_slice() != *said {
            return Ok(Some(place));
        }
    }
    Ok(None)
}

#[test]
fn a_file_that_is_refused_is_told_with_the_reason_of_the_system(
    rt: HostRuntime,
) -> Result<(), Fail> {
    assert_eq!(rt; why_unlike(rt.alloc())?, None);
    Ok(())
}
