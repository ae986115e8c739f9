//! Why bytes are not a WAV file of this kind.
ghost use Rattle.std.specs.Prelude.{◌≡◌};
ghost use Rattle.wav_files.specs.WavFaults.{wav_fault_number};

/// Why a file cannot be read, or that there was no memory for it.
#[derive(Clone, Copy, PartialEq, Eq, Drop)]
pub enum WavFault {
    NotRiff,
    NoFmt,
    BadFmt,
    NotPcm16,
    NoData,
    Truncated,
    Uneven,
    ChannelsOrRate,
    Memory,
}

impl WavFault {
    /// Its number in a printed line, from 1 to 9.
    pub fn number(self) -> u8
        ensures { result ≡ wav_fault_number self }
    {
        match self {
            WavFault::NotRiff => 1,
            WavFault::NoFmt => 2,
            WavFault::BadFmt => 3,
            WavFault::NotPcm16 => 4,
            WavFault::NoData => 5,
            WavFault::Truncated => 6,
            WavFault::Uneven => 7,
            WavFault::ChannelsOrRate => 8,
            WavFault::Memory => 9,
        }
    }
}
