//! Why a list is refused.
ghost use Rattle.pod_text.specs.declared.fault.ListFault.TheVariants as f;
ghost use Rattle.std.specs.Prelude.{◌≡◌};

use pw_lists::Memory;

/// What is wrong with a line of a list of gains, in the order in which it is looked for.
#[derive(Clone, Copy, Debug, PartialEq, Eq, Drop)]
pub enum ListWhy {
    /// It has not two words.
    Words,
    /// Its first word is no number from 0 to 4294967295.
    Frame,
    /// Its frame is below that of the point before it.
    FrameFalls,
    /// Its second word is no gain: a number from -32767 to 32767, or -60dB to 42dB.
    Gain,
}

/// Why bytes are no list of gains.
#[derive(Clone, Copy, Debug, Drop)]
pub enum ListFault {
    /// The first line at fault, counted from 1.
    Line { number: u64, why: ListWhy },
    /// No memory was left.
    Memory,
}

impl From<Memory> for ListFault {
    ghost from_gives = { λ _ fault. fault ≡ f.Memory };

    fn from(_memory: Memory) -> ListFault {
        ListFault::Memory
    }
}
