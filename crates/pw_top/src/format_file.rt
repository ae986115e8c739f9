//! A file that holds one object, read as a format.
ghost use Rattle.std.specs.Prelude.{◌≡◌, IfOk};
ghost use Rattle.pod_codec.specs.SoundChoices.{HasSoundChoices};
ghost use Rattle.format_filter.specs.CommonFormat.{IsSoundFormat};
ghost use Rattle.pw_top.specs.FormatFile.{format_refusal, IsFormatIn, HoldsFormat};
ghost use Rattle.pw_top.specs.Allowed.{Reads};
ghost use Rattle.pw_top.specs.working.Ending.{Ends, CommandCause};

use crate::pod_file::pod_step;
use format_filter::{Format, FormatFault, format_of};
use pod_codec::Pod;
use run_results::{PodWhy, Status};
use std::alloc::Global;

// The refusal of a value that is no format.
fn refusal_of(place: u32, fault: FormatFault) -> Status
    ensures { result ≡ format_refusal place fault }
{
    let why = match fault {
        FormatFault::NotObject => PodWhy::NotObject,
        FormatFault::KeyTwice { key } => PodWhy::KeyTwice { key },
        FormatFault::FlagsChoice { key } => PodWhy::FlagsChoice { key },
        FormatFault::BadRange { key } => PodWhy::BadRange { key },
        FormatFault::BadStep { key } => PodWhy::BadStep { key },
        FormatFault::EmptyChoice { key } => PodWhy::EmptyChoice { key },
        FormatFault::Memory => return Status::Memory,
    };
    Status::Pod { place, why }
}

// The format of a value.
fn format_in(alloc: Global, place: u32, pod: &Pod) -> Result<Format, Status>
    requires sound { HasSoundChoices pod.now }
    ensures told { Ends (Reads (IsFormatIn place pod.now)) result }
    ensures cause { CommandCause (λ format. Unit {0}) 0 0 result }
    ensures sound { IfOk result IsSoundFormat }
{
    match format_of(alloc, pod) {
        Ok(format) => Ok(format),
        Err(fault) => Err(refusal_of(place, fault)),
    }
}

/// The format of a file that is one object, or why it is refused at this place.
pub fn format_step(alloc: Global, place: u32, bytes: &[u8]) -> Result<Format, Status>
    ensures told { Ends (Reads (HoldsFormat place bytes.now)) result }
    ensures cause { CommandCause (λ format. Unit {0}) 0 0 result }
    ensures sound { IfOk result IsSoundFormat }
{
    match pod_step(alloc, place, bytes) {
        Ok(pod) => format_in(alloc, place, &pod),
        Err(status) => Err(status),
    }
}
