//! Files in memory, of which no call fails.
ghost use Rattle.std.specs.Prelude.{◌≡◌, ℕ, IfOk, OnOk, OnErr, option_copied};

use super::names::{NameMap, get, put};
use crate::files::{FileFail, Files, Loaded};
use pw_lists::{Items, Memory, Text};
use std::alloc::Global;
use std::collections::BTreeMap;

/// Files in memory whose counts of faults are always 0.
#[derive(Drop)]
pub struct SureFiles {
    map: NameMap,
}

impl SureFiles {
    ghost use Rattle.pw_outside.specs.Files.{nothing, stored};
    ghost use Rattle.pw_outside.specs.InMemory.{sure_names};

    /// Files that hold nothing.
    pub fn new(alloc: Global) -> Result<SureFiles, Memory>
        ensures { IfOk result (λ files. sure_names files ≡ nothing) }
    {
        Ok(SureFiles {
            map: BTreeMap::new(alloc),
        })
    }

    /// Holds the bytes under the name, all other names as before.
    pub fn add_file(&mut self, alloc: Global, name: &Text, bytes: &[u8]) -> Result<(), Memory>
        ensures ok { OnOk result (sure_names self.new
            ≡ stored name.now bytes.now (sure_names self.old)) }
        ensures err { OnErr result (sure_names self.new ≡ sure_names self.old) }
    {
        put(&mut self.map, alloc, name.as_slice(), bytes)
    }

    /// What is held under the name, if it is.
    pub fn file(&self, name: &Text) -> Option<&Items<u8>>
        ensures { option_copied result ≡ sure_names self.now name.now }
    {
        self.map.get(name.as_slice())
    }
}

impl Files for SureFiles {
    ghost use Rattle.std.specs.Prelude.{Some};
    ghost use Rattle.pw_outside.specs.InMemory.{sure_names};

    ghost held = { λ files. Some (sure_names files) };

    ghost load_faults = { λ _. 0 };

    ghost store_faults = { λ _. 0 };

    fn load(&mut self, alloc: Global, name: &Text, limit: u64) -> Result<Loaded, FileFail> {
        get(&self.map, alloc, name, limit)
    }

    fn store(&mut self, alloc: Global, name: &Text, bytes: &[u8]) -> Result<(), FileFail> {
        match put(&mut self.map, alloc, name.as_slice(), bytes) {
            Ok(()) => Ok(()),
            Err(_refused) => Err(FileFail::Memory),
        }
    }
}
