//! Why a POD gives no points.
ghost use Rattle.std.specs.Prelude.{◌≡◌};
ghost use Rattle.control_sequence.specs.ControlFaults.{control_fault_number};
ghost use Rattle.control_sequence.specs.declared.fault.ControlFault.TheVariants as f;

use pw_lists::Memory;

/// Why a POD gives no points: the first control at fault, by its place in the sequence, counted
/// from 0.
#[derive(Clone, Copy, PartialEq, Eq, Drop)]
pub enum ControlFault {
    /// The value is no Sequence.
    NotSequence,
    /// Its offset is below that of the control before it.
    OffsetFalls { index: u32 },
    /// It is of kind Properties (1), and its value is no Object of type Props (0x40002).
    NotProps { index: u32 },
    /// The first gain (custom key 0x1000001) of its properties is no Int from -32767 to 32767.
    GainForm { index: u32 },
    /// No memory was left.
    Memory,
}

impl From<Memory> for ControlFault {
    ghost from_gives = { λ _ fault. fault ≡ f.Memory };

    fn from(_memory: Memory) -> ControlFault {
        ControlFault::Memory
    }
}

impl ControlFault {
    /// Its number, from 1 to 5. Takes no memory.
    pub fn number(self) -> u8
        ensures { result ≡ control_fault_number self }
    {
        match self {
            ControlFault::NotSequence => 1,
            ControlFault::OffsetFalls { .. } => 2,
            ControlFault::NotProps { .. } => 3,
            ControlFault::GainForm { .. } => 4,
            ControlFault::Memory => 5,
        }
    }
}
