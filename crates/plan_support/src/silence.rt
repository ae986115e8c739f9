//! Waves of zeros.
ghost use Rattle.std.specs.Prelude.{All, IfOk};
ghost use Rattle.script_inputs.specs.Inputs.{HasForm};

use pw_lists::{Items, Memory};
use std::alloc::Global;
use wav_files::Wav;

/// Frames a second of each wave.
const RATE: u32 = 48_000;

/// A wave of n frames of zeros at 48000 frames a second.
#[derive(Clone, Copy, Drop)]
pub enum Silence {
    Mono { frames: u32 },
    Stereo { frames: u32 },
}

// The wave.
fn wave_of(alloc: Global, silence: Silence) -> Result<Wav, Memory>
    ensures { IfOk result HasForm }
{
    let (channels, len) = match silence {
        Silence::Mono { frames } => (1, frames as usize),
        Silence::Stereo { frames } => (2, frames as usize * 2),
    };
    Ok(Wav {
        rate: RATE,
        channels,
        samples: Items::filled(alloc, len, 0)?,
    })
}

/// The waves, in order.
pub(crate) fn waves_of(alloc: Global, silences: &[Silence]) -> Result<Items<Wav>, Memory>
    ensures { IfOk result (All HasForm) }
{
    let mut waves = Items::new(alloc);
    for silence in silences {
        let wave = wave_of(alloc, *silence)?;
        waves.push(wave)?;
    }
    Ok(waves)
}
