//! An output in memory, some of whose calls are to fail.
ghost use Rattle.std.specs.Prelude.{◌≡◌, ℕ, IfOk, OnOk, OnErr};

use super::names::{kept_at, kept_of};
use crate::files::FileFail;
use crate::output::Sink;
use pw_lists::{Items, Memory};
use std::alloc::Global;

/// An output in memory. Calls of `put` are counted from 1; one that answers `Memory` is not
/// counted.
#[derive(Drop)]
pub struct MemSink {
    bytes: Items<u8>,
    faults: u64,
    puts: u64,
    failing_puts: Items<(u64, u64)>,
}

impl MemSink {
    ghost use Rattle.pw_outside.specs.InMemory.{mem_given, IsNewSink, WithPutFault, SameSink};

    /// An output that was given nothing, of which no call is to fail.
    pub fn new(alloc: Global) -> Result<MemSink, Memory>
        ensures { IfOk result IsNewSink }
    {
        Ok(MemSink {
            bytes: Items::new(alloc),
            faults: 0,
            puts: 0,
            failing_puts: Items::new(alloc),
        })
    }

    /// All bytes that were given.
    pub fn bytes(&self) -> &Items<u8>
        ensures { result.now ≡ mem_given self.now }
    {
        &self.bytes
    }

    /// The put of this number, counted from 1, is to fail after its first `kept` bytes.
    pub fn fail_put(&mut self, _alloc: Global, number: u64, kept: u64) -> Result<(), Memory>
        ensures ok { OnOk result (WithPutFault self.old self.new number kept) }
        ensures err { OnErr result (SameSink self.old self.new) }
    {
        self.failing_puts.push((number, kept))
    }
}

impl Sink for MemSink {
    ghost use Rattle.std.specs.Prelude.{Some, ◌≤◌};
    ghost use Rattle.pw_outside.specs.Output.{IsPut};
    ghost use Rattle.pw_outside.specs.Causes.{HasCause};
    ghost use Rattle.pw_outside.specs.InMemory.{mem_given};
    ghost use Rattle.pw_outside.specs.FailingCalls.{HasPut};

    ghost given = { λ sink. Some (mem_given sink) };

    ghost faults = { λ sink. sink.faults };

    fn put(&mut self, _alloc: Global, bytes: &[u8]) -> Result<(), FileFail>
        ensures given { IsPut bytes.now (Some (mem_given self.old))
            (Some (mem_given self.new)) result }
        ensures later { self.old.faults ≤ self.new.faults }
        ensures cause { HasCause self.old.faults self.new.faults result }
        // It fails exactly where this was said of its number, after as many bytes as were said.
        ensures call { HasPut bytes.now self.old self.new result }
    {
        let number = self.puts.saturating_add(1);
        let Some(kept) = kept_at(self.failing_puts.as_slice(), number) else {
            return match self.bytes.extend(bytes) {
                Ok(()) => {
                    self.puts = number;
                    Ok(())
                }
                Err(_refused) => Err(FileFail::Memory),
            };
        };
        let count = kept_of(kept, bytes.len());
        match self.bytes.extend(&bytes[..count]) {
            Ok(()) => {
                self.puts = number;
                self.faults = self.faults.saturating_add(1);
                Err(FileFail::Failed)
            }
            Err(_refused) => Err(FileFail::Memory),
        }
    }
}
