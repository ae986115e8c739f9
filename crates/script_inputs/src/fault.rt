//! Why a script has no inputs.
ghost use Rattle.std.specs.Prelude.{◌≡◌};
ghost use Rattle.script_inputs.specs.declared.fault.InputFault.TheVariants as f;

use pw_lists::Memory;

/// Why a script has no inputs: the first line that is refused, by its number, or no memory.
#[derive(Clone, Copy, Debug, PartialEq, Eq, Drop)]
pub enum InputFault {
    /// A `source` line for which no wave is left: fewer were given than there are such lines.
    NoWave { line: u32 },
    /// An `offer` line for which no format is left: fewer were given than there are such lines.
    NoFormat { line: u32 },
    /// The format of an `offer` line is an object of another type than Format, 0x40003.
    NotFormat { line: u32 },
    /// The format of an `offer` line and what its port offers by then clash, first at this key.
    Clash { line: u32, key: u32 },
    Memory,
}

impl From<Memory> for InputFault {
    ghost from_gives = { λ _ fault. fault ≡ f.Memory };

    fn from(_memory: Memory) -> InputFault {
        InputFault::Memory
    }
}
