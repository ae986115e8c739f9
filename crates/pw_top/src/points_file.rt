//! A file that holds one control sequence.
ghost use Rattle.std.specs.Prelude.{IfOk};
ghost use Rattle.control_sequence.specs.Automation.{ArePoints};
ghost use Rattle.pw_top.specs.Allowed.{Reads};
ghost use Rattle.pw_top.specs.Automate.{control_refusal, GivesPoints, HoldsPoints};
ghost use Rattle.pw_top.specs.working.Ending.{Ends, CommandCause};
ghost use Rattle.std.specs.Prelude.{◌≡◌};

use crate::pod_file::pod_step;
use control_sequence::{ControlFault, Points, controls_of};
use pod_codec::Pod;
use run_results::{PodWhy, Status};
use std::alloc::Global;

// The refusal of a value that gives no points.
fn refusal_of(place: u32, fault: ControlFault) -> Status
    ensures { result ≡ control_refusal place fault }
{
    let why = match fault {
        ControlFault::NotSequence => PodWhy::NotSequence,
        ControlFault::OffsetFalls { index } => PodWhy::OffsetFalls { index },
        ControlFault::NotProps { index } => PodWhy::NotProps { index },
        ControlFault::GainForm { index } => PodWhy::GainForm { index },
        ControlFault::Memory => return Status::Memory,
    };
    Status::Pod { place, why }
}

// The points of a value, or why it is refused.
fn points_of(alloc: Global, place: u32, pod: &Pod) -> Result<Points, Status>
    ensures told { Ends (Reads (GivesPoints place pod.now)) result }
    ensures cause { CommandCause (λ points. Unit {0}) 0 0 result }
    ensures sound { IfOk result (λ points. ArePoints points.items) }
{
    match controls_of(alloc, pod) {
        Ok(points) => Ok(points),
        Err(fault) => Err(refusal_of(place, fault)),
    }
}

/// The points of a file that is one control sequence, or why it is refused at this place.
pub fn points_step(alloc: Global, place: u32, bytes: &[u8]) -> Result<Points, Status>
    ensures told { Ends (Reads (HoldsPoints place bytes.now)) result }
    ensures cause { CommandCause (λ points. Unit {0}) 0 0 result }
    ensures sound { IfOk result (λ points. ArePoints points.items) }
{
    match pod_step(alloc, place, bytes) {
        Ok(pod) => points_of(alloc, place, &pod),
        Err(status) => Err(status),
    }
}
