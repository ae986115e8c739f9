//! Why bytes are not a POD, and why a value is not written.
ghost use Rattle.std.specs.Prelude.{◌≡◌};
ghost use Rattle.pod_codec.specs.PodFaults.{pod_fault_number, write_fault_number};
ghost use Rattle.pod_codec.specs.declared.fault.PodFault.TheVariants as p;
ghost use Rattle.pod_codec.specs.declared.fault.WriteFault.TheVariants as w;

use pw_lists::Memory;

/// The first fault of bytes that spell no POD within the limits, or that memory ran out. Offsets
/// count from the first byte that is given; they are below 2^32 since a POD has at most 1,048,584
/// bytes.
#[derive(Clone, Copy, Debug, PartialEq, Eq, Drop)]
pub enum PodFault {
    /// The POD whose header begins there, or the key and flags that do, pass the end.
    Short { offset: u32 },
    /// The number that is there is no type, child type or choice type that is read.
    TypeUnknown { offset: u32, number: u32 },
    /// The size that is there is not that of its type.
    Size { offset: u32 },
    /// The elements of the array or choice that begins there do not fill its body.
    Uneven { offset: u32 },
    /// The POD that begins there is in sixteen others.
    Deep { offset: u32 },
    /// The outermost body has `size` bytes, more than 1,048,576.
    Large { size: u32 },
    /// The string that begins there does not end in a nul.
    Nul { offset: u32 },
    /// No memory was left.
    Memory,
}

impl From<Memory> for PodFault {
    ghost from_gives = { λ _ fault. fault ≡ p.Memory };

    fn from(_memory: Memory) -> PodFault {
        PodFault::Memory
    }
}

impl PodFault {
    /// Its number in a printed line, from 1 to 8.
    pub fn number(self) -> u8
        ensures { result ≡ pod_fault_number self }
    {
        match self {
            PodFault::Short { .. } => 1,
            PodFault::TypeUnknown { .. } => 2,
            PodFault::Size { .. } => 3,
            PodFault::Uneven { .. } => 4,
            PodFault::Deep { .. } => 5,
            PodFault::Large { .. } => 6,
            PodFault::Nul { .. } => 7,
            PodFault::Memory => 8,
        }
    }
}

/// Why a value was not written.
#[derive(Clone, Copy, Debug, PartialEq, Eq, Drop)]
pub enum WriteFault {
    /// It is too deep or too long, or a child is of another type than its parent says.
    Unwritable,
    /// No memory was left.
    Memory,
}

impl WriteFault {
    /// Its number, 1 or 2.
    pub fn number(self) -> u8
        ensures { result ≡ write_fault_number self }
    {
        match self {
            WriteFault::Unwritable => 1,
            WriteFault::Memory => 2,
        }
    }
}

impl From<Memory> for WriteFault {
    ghost from_gives = { λ _ fault. fault ≡ w.Memory };

    fn from(_memory: Memory) -> WriteFault {
        WriteFault::Memory
    }
}
