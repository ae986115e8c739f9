//! Why a text is no dump of a value.
ghost use Rattle.std.specs.Prelude.{◌≡◌};
ghost use Rattle.dump_reading.specs.declared.fault.Stop.TheVariants as s;
ghost use Rattle.dump_reading.specs.declared.fault.DumpFault.TheVariants as f;

use pw_lists::Memory;

/// What is wrong with a line, in the order in which it is looked for.
#[derive(Clone, Copy, PartialEq, Eq, Drop)]
pub enum DumpWhy {
    /// A value would be more than 16 deep.
    Deep,
    /// The text ends where a line should be.
    Missing,
    /// The line is not ended by a line feed.
    Unended,
    /// It is indented by less than two spaces a level.
    Indent,
    /// Its words are not those of a value, a property or a control, as should be here.
    Words,
    /// No array or choice may hold this child type, or the value is of another type.
    Child,
    /// It is after the value.
    More,
}

/// Why a text is no dump.
#[derive(Clone, Copy, Drop)]
pub enum DumpFault {
    /// The line at fault, counted from 1.
    Line { number: u64, why: DumpWhy },
    /// No memory was left.
    Memory,
}

impl From<Memory> for DumpFault {
    ghost from_gives = { λ _ fault. fault ≡ f.Memory };

    fn from(_memory: Memory) -> DumpFault {
        DumpFault::Memory
    }
}

/// Why no value was read: at a line, from which on `left` bytes of the text are left, or because
/// memory ran out.
#[derive(Clone, Copy, Drop)]
pub(crate) enum Stop {
    Line { left: usize, why: DumpWhy },
    Memory,
}

impl From<Memory> for Stop {
    ghost from_gives = { λ _ stop. stop ≡ s.Memory };

    fn from(_memory: Memory) -> Stop {
        Stop::Memory
    }
}
