//! Standard output, or the error output. It reports nothing of what it was given; a call that fails
//! raises its count.
ghost use Rattle.std.specs.Prelude.{◌≡◌, ℕ, ◌≤◌};
ghost use Rattle.system_files.specs.KnownFiles.{WritesWhole};

use crate::disk_files::write_whole;
use pw_outside::{FileFail, Sink};
use std::alloc::Global;
use std::io;
use std::io::{Printer, Write};

/// An output over a writer, written through at each call.
#[derive(Drop)]
pub struct StdSink<W> {
    to: W,
    faults: u64,
}

impl<'a, P: Print> StdSink<Printer<'a, P>> {
    /// What prints: standard output, or the error output. No call has failed yet.
    pub fn new(to: &'a P) -> StdSink<Printer<'a, P>>
        ensures { result.faults ≡ 0 }
    {
        StdSink::over(io::writer(to))
    }
}

impl<W> StdSink<W> {
    /// A writer. No call has failed yet.
    pub fn over(to: W) -> StdSink<W>
        ensures { result.faults ≡ 0 }
    {
        StdSink { to, faults: 0 }
    }
}

impl<W: Write> Sink for StdSink<W> {
    ghost use Rattle.std.specs.Prelude.{None};
    ghost use Rattle.pw_outside.specs.Causes.{HasCause};

    ghost given = { λ _. None };

    ghost faults = { λ sink. sink.faults };

    fn put(&mut self, _alloc: Global, bytes: &[u8]) -> Result<(), FileFail>
        ensures later { self.old.faults ≤ self.new.faults }
        ensures cause { HasCause self.old.faults self.new.faults result }
        // The writer was given the bytes; after a failure the first of them.
        ensures written { WritesWhole (W.contents self.old.to) (W.contents self.new.to) bytes.now
            result }
    {
        match write_whole(&mut self.to, bytes, &mut None) {
            Err(FileFail::Failed) => {
                self.faults = self.faults.saturating_add(1);
                Err(FileFail::Failed)
            }
            other => other,
        }
    }
}

#[cfg(test)]
mod tests {
    use super::*;
    use crate::in_memory::{Manner, MemFile, by};
    use pw_lists::Items;
    use std::io::ErrorKind;
    use std::test::Fail;

    #[test]
    fn an_output_goes_on_after_a_short_write(rt: HostRuntime) -> Result<(), Fail> {
        let alloc = rt.alloc();
        let text = Items::filled(alloc, 70_000, 7)?;
        let mut out = StdSink::over(MemFile::new(Items::new(alloc), by(4096)));
        assert_eq!(rt; out.put(alloc, b"".as_slice()), Ok(()));
        assert_eq!(rt; out.put(alloc, text.as_slice()), Ok(()));
        assert_eq!(rt; out.faults, 0);
        assert!(rt; out.to.bytes.as_slice() == text.as_slice());
        Ok(())
    }

    #[test]
    fn a_failed_write_is_a_failed_put(rt: HostRuntime) -> Result<(), Fail> {
        let alloc = rt.alloc();
        let manner = Manner {
            most: 4,
            fails_at: 3,
            kind: ErrorKind::Interrupted,
        };
        let mut out = StdSink::over(MemFile::new(Items::new(alloc), manner));
        assert_eq!(rt;
            out.put(alloc, b"seven and eight".as_slice()),
            Err(FileFail::Failed)
        );
        assert_eq!(rt; out.faults, 1);
        assert!(rt; out.to.bytes.as_slice() == b"seven an".as_slice());
        // So is one that takes nothing.
        let mut full = StdSink::over(MemFile::new(Items::new(alloc), by(0)));
        assert_eq!(rt; full.put(alloc, b"nine".as_slice()), Err(FileFail::Failed));
        assert_eq!(rt; full.faults, 1);
        Ok(())
    }
}
