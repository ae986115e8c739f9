//! What a status is to the frame, whatever the program.
ghost use Rattle.std.specs.Prelude.{◌≡◌, ◌≤◌, []};

use pw_outside::Sink;
use std::alloc::Global;

/// What a status is to the frame. A place is a line of a script, or the index of a word.
#[derive(Clone, Copy, PartialEq, Eq, Drop)]
pub enum End {
    /// Everything was done.
    Done,
    /// The words are no command line; `word` is the first at fault, or their number where more were
    /// wanted.
    Usage { word: u32 },
    /// A load that failed.
    ReadFault { place: u32 },
    /// A store that failed.
    StoreFault { place: u32 },
    /// A put of the text that failed.
    PutFault,
    /// No memory was left.
    Memory,
    /// Any other refusal, which the program names.
    Refused,
}

/// The statuses of a program. Each is an end, and has a line, which may be empty.
pub trait Ending: Copy + Drop {
    ghost use Rattle.command_frame.specs.declared.ending.End.TheVariants as E;
    ghost use Rattle.command_frame.specs.Statuses.{Statuses};
    ghost use Rattle.command_frame.specs.Delivery.{LineEnds};

    ghost statuses: { Statuses Self };

    fn done() -> Self
        ensures value { result ≡ statuses.done }
        ensures end { statuses.means result ≡ E.Done };

    fn usage(word: u32) -> Self
        ensures value { result ≡ statuses.usage word }
        ensures end { statuses.means result ≡ E.Usage word };

    /// The status of a file that is not there.
    fn absent(place: u32) -> Self
        ensures value { result ≡ statuses.absent place }
        ensures end { statuses.means result ≡ E.Refused };

    fn read_fault(place: u32) -> Self
        ensures value { result ≡ statuses.read_fault place }
        ensures end { statuses.means result ≡ E.ReadFault place };

    /// The status of a store that failed. A program that stores at a place says that this is a
    /// store's fault at it.
    fn store_fault(place: u32) -> Self
        ensures value { result ≡ statuses.store_fault place };

    fn put_fault() -> Self
        ensures value { result ≡ statuses.put_fault }
        ensures end { statuses.means result ≡ E.PutFault };

    fn memory() -> Self
        ensures value { result ≡ statuses.memory }
        ensures end { statuses.means result ≡ E.Memory };

    /// Puts its line; where that is empty, nothing. A put that fails leaves the status. Where memory
    /// is short for the line, lack of memory is the status then, and its line may be put.
    fn put_line<O: Sink>(self, alloc: Global, out: &mut O) -> Self
        ensures ends { LineEnds statuses self (O.faults out.old) (O.faults out.new)
            (O.given out.old) (O.given out.new) result }
        ensures later { O.faults out.old ≤ O.faults out.new }
        ensures none { statuses.line self ≡ [] → out.new ≡ out.old };
}
