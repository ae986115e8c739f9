//! A file that is a wave.
#![tactic(auto, using(crate::proofs::AllowedLemmas::parts))]

ghost use Rattle.std.specs.Prelude.{◌≡◌, ◌≤◌, length, IfOk};
ghost use Rattle.pw_lists.specs.Limits.{wav_bytes_limit};
ghost use Rattle.wav_files.specs.WavReading.{wav_of};
ghost use Rattle.wav_files.specs.WavWriting.{IsWave};
ghost use Rattle.pw_top.specs.Allowed.{Reads};
ghost use Rattle.pw_top.specs.working.Ending.{Ends, CommandCause};
ghost use Rattle.pw_top.specs.Refusals.{wave_outcome};

use pw_lists::Items;
use run_results::Status;
use std::alloc::Global;
use wav_files::{Wav, WavFault, read_wav};

/// The wave of a file, or why it is refused at this place.
pub fn wave_step(alloc: Global, place: u32, bytes: &Items<u8>) -> Result<Wav, Status>
    requires small { length bytes.now ≤ wav_bytes_limit }
    ensures told { Ends (Reads (λ outcome. outcome ≡ wave_outcome place (wav_of bytes.now)))
        result }
    ensures cause { CommandCause (λ wav. Unit {0}) 0 0 result }
    ensures wave { IfOk result IsWave }
{
    match read_wav(alloc, bytes.as_slice()) {
        Err(WavFault::Memory) => Err(Status::Memory),
        Err(why) => Err(Status::Wav { place, why }),
        Ok(wav) => Ok(wav),
    }
}
