//! `dump FILE`: the file is loaded and read, and its value is put as text.
#![tactic(auto, using(crate::proofs::AllowedLemmas::parts))]

ghost use Rattle.pw_top.specs.working.Ending.{Ends, CommandCause, IsDeliverable};
ghost use Rattle.pw_top.specs.Dump.{DumpsPod, DumpsBytes};

use crate::pod_file::{POD_BYTES, pod_step};
use crate::preparing::Prepare;
use command_frame::load_step;
use pod_codec::{Pod, dump_text};
use pw_lists::{Items, Text, Which};
use pw_outside::Files;
use run_results::{Status, Work};
use std::alloc::Global;

/// Dumps the POD of this file.
#[derive(Drop)]
pub struct DumpFile {
    pub file: Text,
}

impl Prepare for DumpFile {
    ghost use Rattle.pw_top.specs.Dump.{IsDumpAnswer};

    ghost answers = { λ c names. IsDumpAnswer names c.file };

    fn prepare<F: Files>(self, alloc: Global, files: &mut F) -> Result<Work, Status> {
        let long = Status::Limit {
            place: 1,
            which: Which::PodBytes,
        };
        match load_step(alloc, files, 1, &self.file, POD_BYTES, long) {
            Err(status) => Err(status),
            Ok(bytes) => dump_bytes(alloc, &bytes),
        }
    }
}

// The text of a value, and nothing to store.
fn dump_of(alloc: Global, pod: &Pod) -> Result<Work, Status>
    ensures done { Ends (DumpsPod pod.now) result }
    ensures cause { CommandCause IsDeliverable 0 0 result }
{
    match dump_text(alloc, pod) {
        Err(_memory) => Err(Status::Memory),
        Ok(text) => Ok(Work {
            stores: Items::new(alloc),
            text,
        }),
    }
}

// What a file gives that was loaded.
fn dump_bytes(alloc: Global, bytes: &Items<u8>) -> Result<Work, Status>
    ensures done { Ends (DumpsBytes bytes.now) result }
    ensures cause { CommandCause IsDeliverable 0 0 result }
{
    match pod_step(alloc, 1, bytes.as_slice()) {
        Err(status) => Err(status),
        Ok(pod) => dump_of(alloc, &pod),
    }
}
