//! A file that holds one POD.
ghost use Rattle.std.specs.Prelude.{◌≡◌, length, IfOk};
ghost use Rattle.pod_codec.specs.SoundChoices.{HasSoundChoices};
ghost use Rattle.pw_top.specs.PodFile.{pod_refusal, HoldsPod};
ghost use Rattle.pw_top.specs.Allowed.{Reads};
ghost use Rattle.pw_top.specs.working.Ending.{Ends, CommandCause};

use pod_codec::{Pod, PodFault, read_pod};
use pw_lists::POD_BYTES_LIMIT;
use run_results::{PodWhy, Status};
use std::alloc::Global;

/// The bytes of a file with one POD, at most.
pub const POD_BYTES: u64 = POD_BYTES_LIMIT + 8;

// The refusal of bytes that are no POD.
fn refusal_of(place: u32, fault: PodFault) -> Status
    ensures { result ≡ pod_refusal place fault }
{
    let why = match fault {
        PodFault::Short { offset } => PodWhy::Short { offset },
        PodFault::TypeUnknown { offset, number } => PodWhy::TypeUnknown { offset, number },
        PodFault::Size { offset } => PodWhy::Size { offset },
        PodFault::Uneven { offset } => PodWhy::Uneven { offset },
        PodFault::Deep { offset } => PodWhy::Deep { offset },
        PodFault::Large { size } => PodWhy::Large { size },
        PodFault::Nul { offset } => PodWhy::Nul { offset },
        PodFault::Memory => return Status::Memory,
    };
    Status::Pod { place, why }
}

/// The value of a file that is one POD, or why it is refused at this place.
pub fn pod_step(alloc: Global, place: u32, bytes: &[u8]) -> Result<Pod, Status>
    ensures told { Ends (Reads (HoldsPod place bytes.now)) result }
    ensures cause { CommandCause (λ pod. Unit {0}) 0 0 result }
    ensures sound { IfOk result HasSoundChoices }
{
    match read_pod(alloc, bytes) {
        Err(fault) => Err(refusal_of(place, fault)),
        Ok((pod, length)) => {
            if length == bytes.len() {
                Ok(pod)
            } else {
                Err(Status::Pod {
                    place,
                    why: PodWhy::Rest {
                        offset: length as u32,
                    },
                })
            }
        }
    }
}
