//! How a call ended. The numbers are those of `pipegraph`.
ghost use Rattle.std.specs.Prelude.{◌≡◌};
ghost use Rattle.pod_text.specs.Statuses.{status_number};

use crate::fault::ListWhy;
use command_frame::Ending;
use dump_reading::DumpWhy;
use pw_outside::Sink;
use std::alloc::Global;

/// How a call ended. A place is a word of the command line, counted from 0.
#[derive(Clone, Copy, PartialEq, Eq, Drop)]
pub enum Status {
    /// All was done.
    Ok,
    /// The words are no command line; `word` is the first at fault, or their number where more were
    /// wanted.
    Usage { word: u32 },
    /// The first line of a list at fault, counted from 1.
    List { line: u64, why: ListWhy },
    /// A line of a text at fault, counted from 1: it is no dump of a value.
    Text { line: u64, why: DumpWhy },
    /// What was read has no POD: it would be longer than 1,048,576 bytes.
    TooLong,
    /// A file that is not there.
    Absent { place: u32 },
    /// A load that failed.
    ReadFault { place: u32 },
    /// A store that failed.
    WriteFault { place: u32 },
    /// A put on standard output that failed.
    PutFault,
    /// A file that is longer than its limit.
    Limit { place: u32 },
    /// No memory was left.
    Memory,
}

impl Status {
    /// Its number, with which the program ends: 0 to 9.
    pub fn number(&self) -> u8
        ensures { result ≡ status_number self.now }
    {
        match self {
            Status::Ok => 0,
            Status::Usage { .. } => 1,
            Status::List { .. } | Status::Text { .. } => 2,
            Status::TooLong => 4,
            Status::Absent { .. } => 5,
            Status::ReadFault { .. } => 6,
            Status::WriteFault { .. } | Status::PutFault => 7,
            Status::Limit { .. } => 8,
            Status::Memory => 9,
        }
    }
}

impl Ending for Status {
    ghost use Rattle.pod_text.specs.Statuses.{statuses};

    ghost statuses = { statuses };

    fn done() -> Status {
        Status::Ok
    }

    fn usage(word: u32) -> Status {
        Status::Usage { word }
    }

    fn absent(place: u32) -> Status {
        Status::Absent { place }
    }

    fn read_fault(place: u32) -> Status {
        Status::ReadFault { place }
    }

    fn store_fault(place: u32) -> Status {
        Status::WriteFault { place }
    }

    fn put_fault() -> Status {
        Status::PutFault
    }

    fn memory() -> Status {
        Status::Memory
    }

    fn put_line<O: Sink>(self, _alloc: Global, _out: &mut O) -> Status {
        self
    }
}
