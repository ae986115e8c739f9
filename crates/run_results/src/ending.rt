//! What a status of `pipegraph` is to the frame of commands.
ghost use Rattle.std.specs.Prelude.{◌≡◌, ◌≢◌, ◌≤◌, []};
ghost use Rattle.command_frame.specs.Delivery.{LineEnds};
ghost use Rattle.run_results.specs.Statuses.{statuses, line_put};

use crate::status::Status;
use crate::status_line::{is_lined, status_line};
use command_frame::Ending;
use pw_outside::{FileFail, Sink};
use std::alloc::Global;

// Puts the line of a status. A put that fails leaves the status.
fn put_whole<O: Sink>(alloc: Global, out: &mut O, line: &[u8], status: Status) -> Status
    requires same { line.now ≡ line_put status }
    requires some { line.now ≢ [] }
    ensures ends { LineEnds statuses status (O.faults out.old) (O.faults out.new)
        (O.given out.old) (O.given out.new) result }
    ensures later { O.faults out.old ≤ O.faults out.new }
{
    match out.put(alloc, line) {
        Err(FileFail::Memory) => Status::Memory,
        _ => status,
    }
}

impl Ending for Status {
    ghost use Rattle.run_results.specs.Statuses.{statuses};

    ghost statuses = { statuses };

    fn done() -> Status {
        Status::Ok
    }

    fn usage(word: u32) -> Status {
        Status::Usage { word }
    }

    fn absent(place: u32) -> Status {
        Status::Absent { place }
    }

    fn read_fault(place: u32) -> Status {
        Status::ReadFault { place }
    }

    fn store_fault(place: u32) -> Status {
        Status::WriteFault { place }
    }

    fn put_fault() -> Status {
        Status::WriteFault { place: 0 }
    }

    fn memory() -> Status {
        Status::Memory
    }

    #[tactic(auto, using(crate::proofs::LineLemmas::lines))]
    fn put_line<O: Sink>(self, alloc: Global, out: &mut O) -> Status {
        if is_lined(self) {
            put_whole(alloc, out, status_line(self).as_slice(), self)
        } else {
            self
        }
    }
}
