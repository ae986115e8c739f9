//! Why a POD is no format.
ghost use Rattle.std.specs.Prelude.{◌≡◌};
ghost use Rattle.format_filter.specs.FormatFaults.{format_fault_number};
ghost use Rattle.format_filter.specs.declared.fault.FormatFault.TheVariants as f;

use pw_lists::Memory;

/// The first fault of a POD that is no format, or that memory ran out.
#[derive(Clone, Copy, Debug, Drop)]
pub enum FormatFault {
    /// It is no Object.
    NotObject,
    /// A property before has this key.
    KeyTwice { key: u32 },
    /// The choice under this key is of kind Flags.
    FlagsChoice { key: u32 },
    /// The Range under this key lacks a value, is of other values than numbers, or has its min
    /// above its max.
    BadRange { key: u32 },
    /// The Step under this key does so, or its step is not above 0.
    BadStep { key: u32 },
    /// The choice under this key has no values.
    EmptyChoice { key: u32 },
    /// No memory was left.
    Memory,
}

impl From<Memory> for FormatFault {
    ghost from_gives = { λ _ fault. fault ≡ f.Memory };

    fn from(_memory: Memory) -> FormatFault {
        FormatFault::Memory
    }
}

impl FormatFault {
    /// Its number, from 1 to 7.
    pub fn number(self) -> u8
        ensures { result ≡ format_fault_number self }
    {
        match self {
            FormatFault::NotObject => 1,
            FormatFault::KeyTwice { .. } => 2,
            FormatFault::FlagsChoice { .. } => 3,
            FormatFault::BadRange { .. } => 4,
            FormatFault::BadStep { .. } => 5,
            FormatFault::EmptyChoice { .. } => 6,
            FormatFault::Memory => 7,
        }
    }
}
