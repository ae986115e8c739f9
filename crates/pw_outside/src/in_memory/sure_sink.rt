//! An output in memory, of which no call fails.
ghost use Rattle.std.specs.Prelude.{◌≡◌, ℕ, [], IfOk};

use crate::files::FileFail;
use crate::output::Sink;
use pw_lists::{Items, Memory};
use std::alloc::Global;

/// An output in memory whose count of faults is always 0.
#[derive(Drop)]
pub struct SureSink {
    bytes: Items<u8>,
}

impl SureSink {
    ghost use Rattle.pw_outside.specs.InMemory.{sure_given};

    /// An output that was given nothing.
    pub fn new(alloc: Global) -> Result<SureSink, Memory>
        ensures { IfOk result (λ sink. sure_given sink ≡ []) }
    {
        Ok(SureSink {
            bytes: Items::new(alloc),
        })
    }

    /// All bytes that were given.
    pub fn bytes(&self) -> &Items<u8>
        ensures { result.now ≡ sure_given self.now }
    {
        &self.bytes
    }
}

impl Sink for SureSink {
    ghost use Rattle.std.specs.Prelude.{Some};
    ghost use Rattle.pw_outside.specs.InMemory.{sure_given};

    ghost given = { λ sink. Some (sure_given sink) };

    ghost faults = { λ _. 0 };

    fn put(&mut self, _alloc: Global, bytes: &[u8]) -> Result<(), FileFail> {
        match self.bytes.extend(bytes) {
            Ok(()) => Ok(()),
            Err(_refused) => Err(FileFail::Memory),
        }
    }
}
