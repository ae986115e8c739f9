//! The bytes of a POD from those of a list or a text, and those of a format.
ghost use Rattle.std.specs.Prelude.{◌≡◌};
ghost use Rattle.control_sequence.specs.Automation.{ArePoints};
ghost use Rattle.format_filter.specs.CommonFormat.{IsSoundFormat};
ghost use Rattle.pod_text.specs.Making.{IsSpelled, IsPointsPod, IsGainsPod, IsFormatPod};
ghost use Rattle.pod_text.specs.DumpMaking.{IsDumpPod, IsMadePod};

use crate::fault::ListFault;
use crate::gains::read_gains;
use crate::sequences::sequence_of;
use crate::source::Source;
use crate::status::Status;
use control_sequence::Points;
use dump_reading::{DumpFault, read_dump};
use format_filter::{Format, pod_of};
use pod_codec::{Pod, WriteFault, write_pod};
use pw_lists::Items;
use std::alloc::Global;

// The one spelling of a value.
fn spelled(alloc: Global, pod: &Pod) -> Result<Items<u8>, Status>
    ensures { IsSpelled pod.now result }
{
    let mut bytes = Items::new(alloc);
    match write_pod(alloc, pod, &mut bytes) {
        Ok(()) => Ok(bytes),
        Err(WriteFault::Unwritable) => Err(Status::TooLong),
        Err(WriteFault::Memory) => Err(Status::Memory),
    }
}

// The bytes of the sequence of points.
fn points_pod(alloc: Global, points: &Points) -> Result<Items<u8>, Status>
    requires { ArePoints points.now.items }
    ensures { IsPointsPod points.now.items result }
{
    match sequence_of(alloc, points) {
        Ok(pod) => spelled(alloc, &pod),
        Err(_memory) => Err(Status::Memory),
    }
}

/// The bytes of the object of a format, in its one spelling, or why there are none.
pub(crate) fn format_pod(alloc: Global, format: &Format) -> Result<Items<u8>, Status>
    requires { IsSoundFormat format.now }
    ensures { IsFormatPod format.now result }
{
    match pod_of(alloc, format) {
        Ok(pod) => spelled(alloc, &pod),
        Err(_memory) => Err(Status::Memory),
    }
}

// The bytes of the sequence of a list, in its one spelling, or why there are none.
fn gains_pod(alloc: Global, list: &[u8]) -> Result<Items<u8>, Status>
    ensures { IsGainsPod list.now result }
{
    match read_gains(alloc, list) {
        Ok(points) => points_pod(alloc, &points),
        Err(ListFault::Line { number, why }) => Err(Status::List { line: number, why }),
        Err(ListFault::Memory) => Err(Status::Memory),
    }
}

// The bytes of the value whose dump a text is, in its one spelling, or why there are none.
fn dump_pod(alloc: Global, text: &[u8]) -> Result<Items<u8>, Status>
    ensures { IsDumpPod text.now result }
{
    match read_dump(alloc, text) {
        Ok(pod) => spelled(alloc, &pod),
        Err(DumpFault::Line { number, why }) => Err(Status::Text { line: number, why }),
        Err(DumpFault::Memory) => Err(Status::Memory),
    }
}

/// The bytes that are made of what was read, in their one spelling, or why there are none.
pub(crate) fn made_pod(alloc: Global, source: Source, bytes: &[u8]) -> Result<Items<u8>, Status>
    ensures { IsMadePod source bytes.now result }
{
    match source {
        Source::Gains => gains_pod(alloc, bytes),
        Source::Dump => dump_pod(alloc, bytes),
    }
}
