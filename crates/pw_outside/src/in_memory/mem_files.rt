//! Files in memory, some of whose calls are to fail.
ghost use Rattle.std.specs.Prelude.{◌≡◌, ℕ, [], ◌∷◌, ◌++◌, None, IfOk, OnOk, OnErr, MatchOption, option_copied};

use super::names::{NameMap, get, kept_at, kept_of, put};
use crate::files::{FileFail, Files, Loaded};
use pw_lists::{Items, Memory, Text};
use std::alloc::Global;
use std::collections::BTreeMap;

/// Files in memory. Calls are counted from 1, loads and stores apart; one that answers `Memory` is
/// not counted.
#[derive(Drop)]
pub struct MemFiles {
    map: NameMap,
    load_faults: u64,
    store_faults: u64,
    loads: u64,
    stores: u64,
    failing_loads: Items<u64>,
    failing_stores: Items<(u64, u64)>,
}

impl MemFiles {
    ghost use Rattle.pw_outside.specs.Files.{nothing, stored};
    ghost use Rattle.pw_outside.specs.InMemory.{mem_names, IsNewFiles, WithLoadFault, WithStoreFault, SameFaults, SameFiles};

    /// Files that hold nothing, of which no call is to fail.
    pub fn new(alloc: Global) -> Result<MemFiles, Memory>
        ensures { IfOk result IsNewFiles }
    {
        Ok(MemFiles {
            map: BTreeMap::new(alloc),
            load_faults: 0,
            store_faults: 0,
            loads: 0,
            stores: 0,
            failing_loads: Items::new(alloc),
            failing_stores: Items::new(alloc),
        })
    }

    /// Holds the bytes under the name, all other names as before.
    pub fn add_file(&mut self, alloc: Global, name: &Text, bytes: &[u8]) -> Result<(), Memory>
        ensures ok { OnOk result (mem_names self.new
            ≡ stored name.now bytes.now (mem_names self.old)) }
        ensures err { OnErr result (mem_names self.new ≡ mem_names self.old) }
        ensures faults { SameFaults self.old self.new }
    {
        put(&mut self.map, alloc, name.as_slice(), bytes)
    }

    /// What is held under the name, if it is.
    pub fn file(&self, name: &Text) -> Option<&Items<u8>>
        ensures { option_copied result ≡ mem_names self.now name.now }
    {
        self.map.get(name.as_slice())
    }

    /// The load of this number, counted from 1, is to fail.
    pub fn fail_load(&mut self, _alloc: Global, number: u64) -> Result<(), Memory>
        ensures ok { OnOk result (WithLoadFault self.old self.new number) }
        ensures err { OnErr result (SameFiles self.old self.new) }
    {
        self.failing_loads.push(number)
    }

    /// The store of this number, counted from 1, is to fail after its first `kept` bytes.
    pub fn fail_store(&mut self, _alloc: Global, number: u64, kept: u64) -> Result<(), Memory>
        ensures ok { OnOk result (WithStoreFault self.old self.new number kept) }
        ensures err { OnErr result (SameFiles self.old self.new) }
    {
        self.failing_stores.push((number, kept))
    }
}

impl Files for MemFiles {
    ghost use Rattle.std.specs.Prelude.{Some, ◌≤◌};
    ghost use Rattle.pw_outside.specs.Files.{IsLoaded, IsWithin, IsStored};
    ghost use Rattle.pw_outside.specs.Causes.{HasCause};
    ghost use Rattle.pw_outside.specs.InMemory.{mem_names};
    ghost use Rattle.pw_outside.specs.FailingCalls.{HasLoaded, HasStored};

    ghost held = { λ files. Some (mem_names files) };

    ghost load_faults = { λ files. files.load_faults };

    ghost store_faults = { λ files. files.store_faults };

    fn load(&mut self, alloc: Global, name: &Text, limit: u64) -> Result<Loaded, FileFail>
        ensures held { Some (mem_names self.new) ≡ Some (mem_names self.old) }
        ensures told { IsLoaded (mem_names self.old name.now) limit result }
        ensures within { IsWithin limit result }
        ensures later { self.old.load_faults ≤ self.new.load_faults }
        ensures cause { HasCause self.old.load_faults self.new.load_faults result }
        ensures stores { self.new.store_faults ≡ self.old.store_faults }
        // It fails exactly where this was said of its number.
        ensures call { HasLoaded self.old self.new result }
    {
        let number = self.loads.saturating_add(1);
        if self.failing_loads.as_slice().contains(&number) {
            self.loads = number;
            self.load_faults = self.load_faults.saturating_add(1);
            return Err(FileFail::Failed);
        }
        match get(&self.map, alloc, name, limit) {
            Ok(loaded) => {
                self.loads = number;
                Ok(loaded)
            }
            Err(_refused) => Err(FileFail::Memory),
        }
    }

    fn store(&mut self, alloc: Global, name: &Text, bytes: &[u8]) -> Result<(), FileFail>
        ensures held { IsStored name.now bytes.now (Some (mem_names self.old))
            (Some (mem_names self.new)) result }
        ensures later { self.old.store_faults ≤ self.new.store_faults }
        ensures cause { HasCause self.old.store_faults self.new.store_faults result }
        ensures loads { self.new.load_faults ≡ self.old.load_faults }
        // It fails exactly where this was said of its number, after as many bytes as were said.
        ensures call { HasStored name.now bytes.now self.old self.new result }
    {
        let number = self.stores.saturating_add(1);
        let Some(kept) = kept_at(self.failing_stores.as_slice(), number) else {
            return match put(&mut self.map, alloc, name.as_slice(), bytes) {
                Ok(()) => {
                    self.stores = number;
                    Ok(())
                }
                Err(_refused) => Err(FileFail::Memory),
            };
        };
        let count = kept_of(kept, bytes.len());
        match put(&mut self.map, alloc, name.as_slice(), &bytes[..count]) {
            Ok(()) => {
                self.stores = number;
                self.store_faults = self.store_faults.saturating_add(1);
                Err(FileFail::Failed)
            }
            Err(_refused) => Err(FileFail::Memory),
        }
    }
}
