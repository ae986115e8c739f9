//! Files of which all but the script are longer than they may be.

use pw_lists::{Items, Text};
use pw_outside::{FileFail, Files, Loaded};
use std::alloc::Global;

/// Files that hold a script, as s.graph, and say of every other that it is too long.
#[derive(Drop)]
pub struct LongFiles {
    pub script: &'static [u8],
}

impl Files for LongFiles {
    ghost use Rattle.std.specs.Prelude.{None};

    ghost held = { λ _. None };

    ghost load_faults = { λ _. 0 };

    ghost store_faults = { λ _. 0 };

    fn load(&mut self, alloc: Global, name: &Text, limit: u64) -> Result<Loaded, FileFail> {
        if name.as_slice() != b"s.graph".as_slice() || limit < self.script.len() as u64 {
            return Ok(Loaded::TooLong);
        }
        match Items::from_slice(alloc, self.script) {
            Ok(bytes) => Ok(Loaded::Whole(bytes)),
            Err(_memory) => Err(FileFail::Memory),
        }
    }

    fn store(&mut self, _alloc: Global, _name: &Text, _bytes: &[u8]) -> Result<(), FileFail> {
        Ok(())
    }
}
