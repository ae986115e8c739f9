//! A load of a command.
ghost use Rattle.std.specs.Prelude.{◌≡◌, ◌≤◌, length, IfErr};
ghost use Rattle.command_frame.specs.declared.ending.End.TheVariants as E;
ghost use Rattle.command_frame.specs.Allowed.{IsLoad, IsLoadStop};
ghost use Rattle.command_frame.specs.Ending.{CommandCause};
ghost use Rattle.command_frame.specs.Preparing.{LoadsOnly, Tells};

use crate::ending::Ending;
use pw_lists::{Items, Text};
use pw_outside::{FileFail, Files, Loaded};
use std::alloc::Global;

/// Loads the file of this name, of at most `limit` bytes, or says why the command ends here; `long`
/// is the refusal of a longer file.
pub fn load_step<S: Ending, F: Files>(
    alloc: Global,
    files: &mut F,
    place: u32,
    name: &Text,
    limit: u64,
    long: S,
) -> Result<Items<u8>, S>
    requires refusal { S.statuses.means long ≡ E.Refused }
    ensures files { LoadsOnly (F.held files.old) (F.held files.new) (F.load_faults files.old)
        (F.load_faults files.new) (F.store_faults files.old) (F.store_faults files.new) }
    ensures told { Tells S.statuses (F.held files.old)
        (λ names. IsLoad S.statuses names place name.now limit long) result }
    ensures stops { IfErr result (IsLoadStop S.statuses place long) }
    ensures cause { CommandCause S.statuses (λ bytes. length bytes ≤ limit)
        (F.load_faults files.old) (F.load_faults files.new) result }
{
    match files.load(alloc, name, limit) {
        Ok(Loaded::Whole(bytes)) => Ok(bytes),
        Ok(Loaded::Absent) => Err(S::absent(place)),
        Ok(Loaded::TooLong) => Err(long),
        Err(FileFail::Failed) => Err(S::read_fault(place)),
        Err(FileFail::Memory) => Err(S::memory()),
    }
}
