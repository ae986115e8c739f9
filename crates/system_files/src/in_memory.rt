//! For tests: a disk, its files and words in memory, whose calls take what they are given and fail
//! where they are asked to.
ghost use Rattle.std.specs.Prelude.{◌≤◌, IfOk};

use crate::disk::Disk;
use pw_lists::Items;
use std::alloc::Global;
use std::env::FillError;
use std::fs::{Metadata, OpenFile};
use std::io;
use std::io::{ErrorKind, Read, Write};
use std::rt::Env;

/// How many bytes a call takes at most, and which call fails, counted from 1, with what.
#[derive(Clone, Copy, Drop)]
pub(crate) struct Manner {
    pub most: usize,
    pub fails_at: u64,
    pub kind: ErrorKind,
}

/// One that never fails.
pub(crate) fn by(most: usize) -> Manner {
    Manner {
        most,
        fails_at: 0,
        kind: ErrorKind::Other,
    }
}

/// Bytes that are read from the first on, and written after the last.
#[derive(Drop)]
pub(crate) struct MemFile {
    pub bytes: Items<u8>,
    at: usize,
    calls: u64,
    manner: Manner,
}

impl MemFile {
    pub(crate) fn new(bytes: Items<u8>, manner: Manner) -> MemFile {
        MemFile {
            bytes,
            at: 0,
            calls: 0,
            manner,
        }
    }

    // How many bytes the next call takes.
    fn take(&mut self, wanted: usize) -> io::Result<usize>
        ensures { IfOk result (λ n. n ≤ wanted) }
    {
        self.calls = self.calls.saturating_add(1);
        if self.calls == self.manner.fails_at {
            return Err(io::Error::from(self.manner.kind));
        }
        Ok(if wanted < self.manner.most {
            wanted
        } else {
            self.manner.most
        })
    }
}

impl Read for MemFile {
    fn read(&mut self, buf: &mut [u8]) -> io::Result<usize> {
        let most = self.take(buf.len())?;
        let bytes = self.bytes.as_slice();
        let at = if self.at < bytes.len() {
            self.at
        } else {
            bytes.len()
        };
        let mut left = &bytes[at..];
        let n = left.read(&mut buf[..most])?;
        self.at = at.saturating_add(n);
        Ok(n)
    }
}

impl Write for MemFile {
    fn write(&mut self, buf: &[u8]) -> io::Result<usize> {
        let n = self.take(buf.len())?;
        match self.bytes.extend(&buf[..n]) {
            Ok(()) => Ok(n),
            Err(_memory) => Err(io::Error::from(ErrorKind::OutOfMemory)),
        }
    }

    fn flush(&mut self) -> io::Result<()> {
        Ok(())
    }
}

impl OpenFile for MemFile {
    fn metadata(&self) -> io::Result<Metadata> {
        Err(io::Error::from(ErrorKind::Unsupported))
    }

    fn set_len(&self, _size: u64) -> io::Result<()> {
        Ok(())
    }

    fn sync_all(&self) -> io::Result<()> {
        Ok(())
    }

    fn sync_data(&self) -> io::Result<()> {
        Ok(())
    }
}

/// A disk with one file, under every path.
#[derive(Drop)]
pub(crate) struct MemDisk {
    pub alloc: Global,
    pub held: Items<u8>,
    /// What an open says, where it gives no file.
    pub refuses: Option<ErrorKind>,
    pub manner: Manner,
}

impl Disk for MemDisk {
    ghost use Rattle.std.specs.Prelude.{None};

    type Source = MemFile;

    type Target = MemFile;

    ghost held = { λ _. None };

    fn open(&mut self, _path: &str) -> io::Result<MemFile> {
        if let Some(kind) = self.refuses {
            return Err(io::Error::from(kind));
        }
        match self.held.copy(self.alloc) {
            Ok(bytes) => Ok(MemFile::new(bytes, self.manner)),
            Err(_memory) => Err(io::Error::from(ErrorKind::OutOfMemory)),
        }
    }

    fn create(&mut self, _path: &str) -> io::Result<MemFile> {
        if let Some(kind) = self.refuses {
            return Err(io::Error::from(kind));
        }
        Ok(MemFile::new(Items::new(self.alloc), self.manner))
    }

    fn give_back(&mut self, _path: &str, file: MemFile) {
        self.held = file.bytes;
    }
}

/// The words of a program, its own name first.
#[derive(Drop)]
pub(crate) struct MemWords<'a> {
    pub words: &'a [&'a [u8]],
}

impl Env for MemWords<'_> {
    fn arg(&self, i: usize, buf: &mut [u8]) -> Result<usize, FillError> {
        let Some(word) = self.words.get(i) else {
            return Err(FillError::NotPresent);
        };
        if word.len() > buf.len() {
            return Err(FillError::TooLong);
        }
        buf[..word.len()].copy_from_slice(word);
        Ok(word.len())
    }

    fn var(&self, _name: &str, _buf: &mut [u8]) -> Result<usize, FillError> {
        Err(FillError::NotPresent)
    }

    fn var_at(&self, _i: usize, _buf: &mut [u8]) -> Result<usize, FillError> {
        Err(FillError::NotPresent)
    }
}
