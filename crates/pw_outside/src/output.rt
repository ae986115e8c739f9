//! Where the text goes.
ghost use Rattle.std.specs.Prelude.{ℕ, ◌≤◌};
ghost use Rattle.pw_outside.specs.Output.{Given, IsPut};
ghost use Rattle.pw_outside.specs.Causes.{HasCause};

use crate::files::FileFail;
use std::alloc::Global;

/// An output. Contracts see the bytes that were given, where the object reports them, and a count
/// of faults that never falls.
pub trait Sink {
    ghost use Rattle.pw_outside.specs.Output.{Given};

    ghost given: { Self → Given };

    ghost faults: { Self → ℕ };

    /// Puts all bytes. After `Failed` a prefix of them was given, after `Memory` no byte.
    fn put(&mut self, alloc: Global, bytes: &[u8]) -> Result<(), FileFail>
        ensures given { IsPut bytes.now (given self.old) (given self.new) result }
        ensures later { faults self.old ≤ faults self.new }
        ensures cause { HasCause (faults self.old) (faults self.new) result };
}
