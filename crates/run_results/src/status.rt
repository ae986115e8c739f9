//! The statuses of `pipegraph`.
ghost use Rattle.std.specs.Prelude.{◌≡◌};

use graph_script::ScriptWhy;
use pw_lists::Which;
use wav_files::WavFault;

/// Why a POD is refused, or what it says does not fit. Offsets count bytes of the file; a key is a
/// property's, an index counts controls from 0.
#[derive(Clone, Copy, PartialEq, Eq, Drop)]
pub enum PodWhy {
    Short { offset: u32 },
    TypeUnknown { offset: u32, number: u32 },
    Size { offset: u32 },
    Uneven { offset: u32 },
    Deep { offset: u32 },
    Large { size: u32 },
    Nul { offset: u32 },
    /// The file goes on after its POD.
    Rest { offset: u32 },
    NotObject,
    KeyTwice { key: u32 },
    FlagsChoice { key: u32 },
    BadRange { key: u32 },
    BadStep { key: u32 },
    EmptyChoice { key: u32 },
    /// The object of an `offer` line is of another type.
    NotFormat,
    /// The object of an `offer` line has nothing in common with the offer so far.
    Clash { key: u32 },
    NotSequence,
    OffsetFalls { index: u32 },
    NotProps { index: u32 },
    GainForm { index: u32 },
}

/// How a call ended. A place is a line of the script, or the index of a word.
#[derive(Clone, Copy, PartialEq, Eq, Drop)]
pub enum Status {
    /// Everything was done.
    Ok,
    /// The words are no command line; `word` is the first at fault, or their number where more were
    /// wanted.
    Usage { word: u32 },
    /// The script's first line at fault.
    Script { line: u32, why: ScriptWhy },
    /// A file that is no WAV file of this kind.
    Wav { place: u32, why: WavFault },
    /// A file that is no POD, or not one that fits.
    Pod { place: u32, why: PodWhy },
    /// A file that is not there.
    Absent { place: u32 },
    /// A load that failed.
    ReadFault { place: u32 },
    /// A store that failed, or at place 0 a put of the text.
    WriteFault { place: u32 },
    /// A quantity that passes its limit.
    Limit { place: u32, which: Which },
    /// No memory was left.
    Memory,
}

impl Status {
    ghost use Rattle.run_results.specs.StatusNumbers.{status_number};

    /// Its number, with which the program ends: 0 to 9.
    pub fn number(&self) -> u8
        ensures { result ≡ status_number self.now }
    {
        match self {
            Status::Ok => 0,
            Status::Usage { .. } => 1,
            Status::Script { .. } => 2,
            Status::Wav { .. } => 3,
            Status::Pod { .. } => 4,
            Status::Absent { .. } => 5,
            Status::ReadFault { .. } => 6,
            Status::WriteFault { .. } => 7,
            Status::Limit { .. } => 8,
            Status::Memory => 9,
        }
    }
}
