//! The voices of a host as waves. A host whose samples have other rates or channels changes only
//! this file.
ghost use Rattle.std.specs.Prelude.{◌≡◌, map, All, IfOk};
ghost use Rattle.script_inputs.specs.Inputs.{HasForm};
ghost use Rattle.host_example.specs.Voices.{mono};

use pw_lists::{Items, Memory};
use std::alloc::Global;
use wav_files::Wav;

/// Frames a second of each wave.
const RATE: u32 = 48_000;

// The wave of a voice.
fn wave_of(alloc: Global, samples: &[i16]) -> Result<Wav, Memory>
    ensures wave { IfOk result (λ wave. wave ≡ mono samples.now) }
    ensures form { IfOk result HasForm }
{
    let samples = Items::from_slice(alloc, samples)?;
    Ok(Wav {
        rate: RATE,
        channels: 1,
        samples,
    })
}

/// A wave of one channel for each voice, in order.
pub fn waves_of(alloc: Global, voices: &[&[i16]]) -> Result<Items<Wav>, Memory>
    ensures waves { IfOk result (λ waves. waves ≡ map mono (map (λ v. v.now) voices.now)) }
    ensures forms { IfOk result (All HasForm) }
{
    let mut waves = Items::new(alloc);
    for samples in voices {
        let wave = wave_of(alloc, samples)?;
        waves.push(wave)?;
    }
    Ok(waves)
}
