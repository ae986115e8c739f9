//! The files of the outside: what is held under each name, and how many calls have failed.
ghost use Rattle.std.specs.Prelude.{◌≡◌, ℕ, ◌≤◌, IsSome};
ghost use Rattle.pw_outside.specs.Files.{Held, names_in, IsLoaded, IsWithin, IsStored};
ghost use Rattle.pw_outside.specs.Causes.{HasCause};

use pw_lists::{Items, Text};
use std::alloc::Global;

/// What a load found.
#[derive(Drop)]
pub enum Loaded {
    Whole(Items<u8>),
    Absent,
    /// The file is longer than the limit.
    TooLong,
}

/// How a call of the outside failed.
#[derive(Clone, Copy, Debug, PartialEq, Eq, Drop)]
pub enum FileFail {
    Failed,
    Memory,
}

/// Files by name. Contracts see what is held, where the object reports it, and two counts of faults
/// that never fall.
pub trait Files {
    ghost use Rattle.pw_outside.specs.Files.{Held};

    ghost held: { Self → Held };

    ghost load_faults: { Self → ℕ };

    ghost store_faults: { Self → ℕ };

    /// Reads the file of this name, of at most `limit` bytes. Nothing that is held changes.
    fn load(&mut self, alloc: Global, name: &Text, limit: u64) -> Result<Loaded, FileFail>
        ensures held { held self.new ≡ held self.old }
        ensures told { IsSome (held self.old)
            → IsLoaded (names_in (held self.old) name.now) limit result }
        ensures within { IsWithin limit result }
        ensures later { load_faults self.old ≤ load_faults self.new }
        ensures cause { HasCause (load_faults self.old) (load_faults self.new) result }
        ensures stores { store_faults self.new ≡ store_faults self.old };

    /// Writes the bytes under the name. After `Failed` a prefix of them is stored there, after
    /// `Memory` all is as before.
    fn store(&mut self, alloc: Global, name: &Text, bytes: &[u8]) -> Result<(), FileFail>
        ensures held { IsStored name.now bytes.now (held self.old) (held self.new) result }
        ensures later { store_faults self.old ≤ store_faults self.new }
        ensures cause { HasCause (store_faults self.old) (store_faults self.new) result }
        ensures loads { load_faults self.new ≡ load_faults self.old };
}
