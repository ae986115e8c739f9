//! Files by name over a disk. They report nothing of what they hold; a call that fails raises its
//! count.
ghost use Rattle.std.specs.Prelude.{◌≡◌, ℕ, ◌+◌, ◌≤◌, ◌<◌, ◌^◌, ◌++◌, [], take, length, IfOk, IsSome};
ghost use Rattle.std.specs.Io.KnownBytes.{Consumes, IsAtEnd};
ghost use Rattle.pw_outside.specs.Files.{names_in, IsLoaded, IsWithin};
ghost use Rattle.system_files.specs.Disks.{HasStored};
ghost use Rattle.system_files.specs.KnownFiles.{ReadsFile, WritesWhole};

use crate::disk::{Disk, SystemDisk};
use crate::why::{FileWhy, TellsWhy, failed};
use pw_lists::{Items, Memory, Text};
use pw_outside::{FileFail, Files, Loaded};
use std::alloc::Global;
use std::fs::OpenFile;
use std::io::{ErrorKind, Read, Write};
use std::str;

// How many bytes a read asks for at most.
const CHUNK: usize = 65536;

/// Files over a disk.
#[derive(Drop)]
pub struct DiskFiles<D> {
    disk: D,
    load_faults: u64,
    store_faults: u64,
    /// Why the last call failed, if it did.
    why: Option<FileWhy>,
}

impl<'a, R> DiskFiles<SystemDisk<'a, R>> {
    /// The files of the system. No call has failed yet.
    pub fn new(rt: &'a R) -> DiskFiles<SystemDisk<'a, R>>
        ensures { (result.load_faults ≡ 0) × (result.store_faults ≡ 0) }
    {
        DiskFiles::over(SystemDisk::new(rt))
    }
}

impl<D> DiskFiles<D> {
    /// The files of a disk. No call has failed yet.
    pub fn over(disk: D) -> DiskFiles<D>
        ensures { (result.load_faults ≡ 0) × (result.store_faults ≡ 0) }
    {
        DiskFiles {
            disk,
            load_faults: 0,
            store_faults: 0,
            why: None,
        }
    }
}

// How many bytes the next read asks for: some, and never more than one past the limit.
fn wanted(len: usize, limit: u64) -> usize
    requires { len ≤ limit }
    ensures some { 0 < result }
    ensures within { len + result ≤ limit + 1 }
    ensures chunk { result ≤ 65536 }
{
    let left = limit - len as u64;
    if left < CHUNK as u64 - 1 {
        left as usize + 1
    } else {
        CHUNK
    }
}

// Appends what one read gives, and says how many bytes that were.
fn read_more<F: Read>(
    file: &mut F,
    chunk: &mut [u8],
    bytes: &mut Items<u8>,
    why: &mut Option<FileWhy>,
) -> Result<usize, FileFail>
    ensures bound { IfOk result (λ n. n ≤ length chunk.old) }
    // What is appended is from the beginning of what the file has left; nothing is appended only at
    // its end.
    ensures more { IfOk result
        (λ n. (length chunk.new ≡ length chunk.old)
        × (bytes.new ≡ bytes.old ++ take n chunk.new)) }
    ensures taken { IfOk result
        (λ n. Consumes (F.remaining file.old) (F.remaining file.new) (take n chunk.new)) }
    ensures end { IfOk result (λ n. n ≡ 0 → 0 < length chunk.old
        → IsAtEnd (F.remaining file.new)) }
{
    match file.read(chunk) {
        Ok(n) => match bytes.extend(&chunk[..n]) {
            Ok(()) => Ok(n),
            Err(_memory) => Err(FileFail::Memory),
        },
        Err(error) => Err(failed(error, why)),
    }
}

// Reads to the end of the file, or one byte past the limit.
fn read_within<F: Read>(
    file: &mut F,
    chunk: &mut [u8],
    bytes: Items<u8>,
    limit: u64,
    why: &mut Option<FileWhy>,
) -> Result<Loaded, FileFail>
    requires chunk { length chunk.old ≡ 65536 }
    requires start { bytes ≡ [] }
    ensures within { IsWithin limit result }
    ensures whole { ReadsFile (F.remaining file.old) limit result }
{
    let mut bytes = bytes;
    while bytes.len() as u64 <= limit {
        let want = wanted(bytes.len(), limit);
        let n = read_more(file, &mut chunk[..want], &mut bytes, why)?;
        if n == 0 {
            return Ok(Loaded::Whole(bytes));
        }
    }
    Ok(Loaded::TooLong)
}

// Room for a file of this size, within the limit, so that it is read without growing.
fn room_for(alloc: Global, size: u64, limit: u64) -> Result<Items<u8>, Memory>
    ensures { IfOk result (λ bytes. bytes ≡ []) }
{
    let size = if size < limit { size } else { limit };
    let mut bytes = Items::new(alloc);
    match bytes.reserve(size as usize) {
        Ok(()) => Ok(bytes),
        Err(memory) => Err(memory),
    }
}

// Reads a file that was opened.
fn read_file<F: Read + OpenFile>(
    alloc: Global,
    file: &mut F,
    limit: u64,
    why: &mut Option<FileWhy>,
) -> Result<Loaded, FileFail>
    ensures within { IsWithin limit result }
    ensures whole { ReadsFile (F.remaining file.old) limit result }
{
    let size = match file.metadata() {
        Ok(about) => about.len(),
        Err(_error) => 0,
    };
    let Ok(bytes) = room_for(alloc, size, limit) else {
        return Err(FileFail::Memory);
    };
    let Ok(mut chunk) = Items::filled(alloc, CHUNK, 0) else {
        return Err(FileFail::Memory);
    };
    read_within(file, chunk.as_mut_slice(), bytes, limit, why)
}

// Opens and reads the file of this name. Where that fails, the reason is left in `why`.
fn load_file<D: Disk>(
    disk: &mut D,
    alloc: Global,
    name: &[u8],
    limit: u64,
    why: &mut Option<FileWhy>,
) -> Result<Loaded, FileFail>
    ensures held { D.held disk.new ≡ D.held disk.old }
    ensures told { IsSome (D.held disk.old)
        → IsLoaded (names_in (D.held disk.old) name.now) limit result }
    ensures within { IsWithin limit result }
{
    let Ok(path) = str::from_utf8(name) else {
        return Err(FileFail::Failed);
    };
    match disk.open(path) {
        Ok(mut file) => read_file(alloc, &mut file, limit, why),
        Err(error) => {
            if error.kind() == ErrorKind::NotFound {
                Ok(Loaded::Absent)
            } else {
                Err(failed(error, why))
            }
        }
    }
}

/// Writes all bytes, in order. A write that takes nothing is a failure. Where the system gives a
/// reason, it is left in `why`.
pub(crate) fn write_whole<W: Write>(
    to: &mut W,
    bytes: &[u8],
    why: &mut Option<FileWhy>,
) -> Result<(), FileFail>
    ensures { WritesWhole (W.contents to.old) (W.contents to.new) bytes.now result }
{
    let mut done = 0;
    while done < bytes.len() {
        match to.write(&bytes[done..]) {
            Ok(0) => return Err(FileFail::Failed),
            Ok(n) => done += n,
            Err(error) => return Err(failed(error, why)),
        }
    }
    Ok(())
}

// Makes the file of this name anew and writes it. Where that fails, the reason is left in `why`.
fn store_file<D: Disk>(
    disk: &mut D,
    name: &[u8],
    bytes: &[u8],
    why: &mut Option<FileWhy>,
) -> Result<(), FileFail>
    ensures { HasStored name.now bytes.now (D.held disk.old) (D.held disk.new) result }
{
    let Ok(path) = str::from_utf8(name) else {
        return Err(FileFail::Failed);
    };
    match disk.create(path) {
        Ok(mut file) => {
            let written = write_whole(&mut file, bytes, why);
            disk.give_back(path, file);
            written
        }
        Err(error) => Err(failed(error, why)),
    }
}

impl<D: Disk> Files for DiskFiles<D> {
    ghost use Rattle.std.specs.Prelude.{None};
    ghost use Rattle.pw_outside.specs.Causes.{HasCause};
    ghost use Rattle.pw_outside.specs.Files.{IsStored};

    ghost held = { λ _. None };

    ghost load_faults = { λ files. files.load_faults };

    ghost store_faults = { λ files. files.store_faults };

    fn load(&mut self, alloc: Global, name: &Text, limit: u64) -> Result<Loaded, FileFail>
        ensures within { IsWithin limit result }
        ensures later { self.old.load_faults ≤ self.new.load_faults }
        ensures cause { HasCause self.old.load_faults self.new.load_faults result }
        ensures stores { self.new.store_faults ≡ self.old.store_faults }
        // What the disk holds stays, and decides, where the disk reports it.
        ensures disk { D.held self.new.disk ≡ D.held self.old.disk }
        ensures told_disk { IsSome (D.held self.old.disk)
            → IsLoaded (names_in (D.held self.old.disk) name.now) limit result }
    {
        let mut why = None;
        let loaded = load_file(&mut self.disk, alloc, name.as_slice(), limit, &mut why);
        self.why = why;
        match loaded {
            Err(FileFail::Failed) => {
                self.load_faults = self.load_faults.saturating_add(1);
                Err(FileFail::Failed)
            }
            other => other,
        }
    }

    fn store(&mut self, _alloc: Global, name: &Text, bytes: &[u8]) -> Result<(), FileFail>
        ensures later { self.old.store_faults ≤ self.new.store_faults }
        ensures cause { HasCause self.old.store_faults self.new.store_faults result }
        ensures loads { self.new.load_faults ≡ self.old.load_faults }
        // The disk holds the bytes; after a failure the first of them, or what it held.
        ensures disk { HasStored name.now bytes.now (D.held self.old.disk) (D.held self.new.disk)
            result }
    {
        let mut why = None;
        let stored = store_file(&mut self.disk, name.as_slice(), bytes, &mut why);
        self.why = why;
        match stored {
            Err(FileFail::Failed) => {
                self.store_faults = self.store_faults.saturating_add(1);
                Err(FileFail::Failed)
            }
            other => other,
        }
    }
}

impl<D> TellsWhy for DiskFiles<D> {
    ghost why = { λ files. files.why };

    fn why(&self) -> Option<FileWhy> {
        self.why
    }
}

#[cfg(test)]
mod tests {
    use super::*;
    use crate::in_memory::{Manner, MemDisk, by};
    use std::test::Fail;
    use std::{env, fs};

    // What a load says, in one letter.
    fn letter(loaded: Result<Loaded, FileFail>) -> char {
        match loaded {
            Ok(Loaded::Whole(_)) => 'w',
            Ok(Loaded::Absent) => 'a',
            Ok(Loaded::TooLong) => 'l',
            Err(FileFail::Failed) => 'f',
            Err(FileFail::Memory) => 'm',
        }
    }

    #[test]
    fn disk_files_read_and_write(rt: HostRuntime) -> Result<(), Fail> {
        let alloc = rt.alloc();
        let folder = env::temp_dir(&rt)?;
        let path = format!(in alloc;
            "{}/pipegraph_disk_files_test",
            folder.as_path().to_str().unwrap_or(".")
        )?;
        let name = Items::from_slice(alloc, path.as_bytes())?;
        let other = Items::from_slice(alloc, b"no/such/folder".as_slice())?;
        let root = Items::from_slice(alloc, b"/".as_slice())?;
        let full = Items::from_slice(alloc, b"/dev/full".as_slice())?;
        let below = format!(in alloc; "{}/x", path.as_str())?;
        let below = Items::from_slice(alloc, below.as_bytes())?;
        let mut files = DiskFiles::new(&rt);
        files.store(alloc, &name, b"seven and eight".as_slice())?;
        files.store(alloc, &name, b"nine".as_slice())?;
        let Loaded::Whole(bytes) = files.load(alloc, &name, 4)? else {
            panic!(rt; "not whole")
        };
        assert!(rt; bytes.as_slice() == b"nine".as_slice());
        assert_eq!(rt; letter(files.load(alloc, &name, 3)), 'l');
        assert_eq!(rt; letter(files.load(alloc, &other, 3)), 'a');
        assert_eq!(rt; files.load_faults, 0);
        assert_eq!(rt; letter(files.load(alloc, &root, 3)), 'f');
        assert_eq!(rt; files.load_faults, 1);
        assert_eq!(rt; files.why(), Some(FileWhy::Folder));
        assert_eq!(rt; letter(files.load(alloc, &below, 3)), 'f');
        assert_eq!(rt; files.load_faults, 2);
        assert_eq!(rt; files.why(), Some(FileWhy::NoFolder));
        assert_eq!(rt;
            files.store(alloc, &other, b"".as_slice()),
            Err(FileFail::Failed)
        );
        assert_eq!(rt; files.store_faults, 1);
        assert_eq!(rt; files.why(), Some(FileWhy::NoFolder));
        assert_eq!(rt;
            files.store(alloc, &full, b"nine".as_slice()),
            Err(FileFail::Failed)
        );
        assert_eq!(rt; files.store_faults, 2);
        assert_eq!(rt; files.why(), Some(FileWhy::Full));
        assert_eq!(rt; letter(files.load(alloc, &name, 4)), 'w');
        assert_eq!(rt; files.why(), None);
        fs::remove_file(&rt, path.as_str())?;
        Ok(())
    }

    // Files over a disk whose one file has these many bytes of 7.
    fn files_with(
        alloc: Global,
        count: usize,
        manner: Manner,
    ) -> Result<DiskFiles<MemDisk>, Memory> {
        Ok(DiskFiles::over(MemDisk {
            alloc,
            held: Items::filled(alloc, count, 7)?,
            refuses: None,
            manner,
        }))
    }

    #[test]
    fn short_calls_are_gone_on_with(rt: HostRuntime) -> Result<(), Fail> {
        let alloc = rt.alloc();
        let name = Items::from_slice(alloc, b"any".as_slice())?;
        for most in [1000, 65_536, 70_001] {
            let mut files = files_with(alloc, 70_001, by(most))?;
            let Loaded::Whole(bytes) = files.load(alloc, &name, 70_001)? else {
                panic!(rt; "not whole")
            };
            assert_eq!(rt; bytes.len(), 70_001);
            assert_eq!(rt; letter(files.load(alloc, &name, 70_000)), 'l');
            files.disk.held = Items::new(alloc);
            files.store(alloc, &name, bytes.as_slice())?;
            assert!(rt; files.disk.held.as_slice() == bytes.as_slice());
            assert_eq!(rt; (files.load_faults, files.store_faults), (0, 0));
        }
        Ok(())
    }

    #[test]
    fn a_call_that_fails_is_counted(rt: HostRuntime) -> Result<(), Fail> {
        let alloc = rt.alloc();
        let name = Items::from_slice(alloc, b"any".as_slice())?;
        for kind in [
            ErrorKind::Interrupted,
            ErrorKind::StorageFull,
            ErrorKind::NotFound,
        ] {
            let manner = Manner {
                most: 4,
                fails_at: 3,
                kind,
            };
            let mut files = files_with(alloc, 20, manner)?;
            assert_eq!(rt; letter(files.load(alloc, &name, 20)), 'f');
            assert_eq!(rt; files.load_faults, 1);
            let stored = files.store(alloc, &name, b"seven and eight".as_slice());
            assert_eq!(rt; stored, Err(FileFail::Failed));
            assert_eq!(rt; files.store_faults, 1);
            assert!(rt; files.disk.held.as_slice() == b"seven an".as_slice());
        }
        Ok(())
    }

    #[test]
    fn only_not_found_is_absent(rt: HostRuntime) -> Result<(), Fail> {
        let alloc = rt.alloc();
        let name = Items::from_slice(alloc, b"any".as_slice())?;
        let no_text = Items::from_slice(alloc, b"\xff".as_slice())?;
        let mut files = files_with(alloc, 4, by(4))?;
        files.disk.refuses = Some(ErrorKind::NotFound);
        assert_eq!(rt; letter(files.load(alloc, &name, 4)), 'a');
        assert_eq!(rt; files.load_faults, 0);
        for (kind, why) in [
            (ErrorKind::PermissionDenied, Some(FileWhy::Permission)),
            (ErrorKind::NotADirectory, Some(FileWhy::NoFolder)),
            (ErrorKind::Interrupted, None),
        ] {
            files.disk.refuses = Some(kind);
            assert_eq!(rt; letter(files.load(alloc, &name, 4)), 'f');
            assert_eq!(rt; files.why(), why);
            let stored = files.store(alloc, &name, b"nine!".as_slice());
            assert_eq!(rt; stored, Err(FileFail::Failed));
            assert_eq!(rt; files.why(), why);
        }
        files.disk.refuses = None;
        assert_eq!(rt; letter(files.load(alloc, &no_text, 4)), 'f');
        assert_eq!(rt; files.load_faults, 4);
        assert_eq!(rt; files.store_faults, 3);
        assert_eq!(rt; files.disk.held.len(), 4);
        Ok(())
    }
}
