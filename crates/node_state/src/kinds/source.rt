//! A source keeps its own copy of the samples that it will give, and its place in them.
ghost use Rattle.std.specs.Prelude.{◌≡◌, ◌+◌, ◌*◌, ◌<◌, ◌≤◌, ◌++◌, length, min, take, drop, IfOk};
ghost use Rattle.pw_lists.specs.Samples.{silence};
ghost use Rattle.node_state.specs.Slices.{IsNoneOr};

use crate::rows::copy_front;
use pw_lists::{Items, Memory};
use std::alloc::Global;
use wav_files::Wav;

/// Samples of `channels` a frame, and how many of them have been given.
#[derive(Drop)]
pub(crate) struct SourceState {
    pub(crate) channels: u32,
    pub(crate) samples: Items<i16>,
    pub(crate) given: usize,
    ghost within: { given ≤ length samples },
}

// The whole list, then zeros.
#[inline(never)]
fn pad_end(samples: &[i16], to: &mut [i16])
    requires { length samples.now < length to.old }
    ensures { to.new ≡ take (length to.old) (samples.now ++ silence (length to.old)) }
{
    let n = copy_front(samples, to);
    to[n..].fill(0);
}

// The first samples of the list, then zeros.
fn pad(samples: &[i16], to: &mut [i16])
    ensures { to.new ≡ take (length to.old) (samples.now ++ silence (length to.old)) }
{
    if to.len() <= samples.len() {
        to.copy_from_slice(&samples[..to.len()]);
    } else {
        pad_end(samples, to);
    }
}

impl SourceState {
    /// The beginning of a wave, at most `frames` frames, in memory of its own.
    pub(crate) fn new(alloc: Global, wav: &Wav, frames: u64) -> Result<SourceState, Memory>
        ensures channels { IfOk result (λ s. s.channels ≡ wav.now.channels) }
        ensures samples { IfOk result
            (λ s. s.samples ≡ take (frames * wav.now.channels) wav.now.samples) }
        ensures given { IfOk result (λ s. s.given ≡ 0) }
    {
        let samples = wav.samples.as_slice();
        let most = (frames as usize).saturating_mul(wav.channels as usize);
        let n = samples.len().min(most);
        match Items::from_slice(alloc, &samples[..n]) {
            Ok(samples) => Ok(SourceState {
                channels: wav.channels,
                samples,
                given: 0,
            }),
            Err(memory) => Err(memory),
        }
    }

    /// The next samples of the file, then zeros, where the output has a form. Those of one quantum
    /// are given in any case.
    #[inline(never)]
    pub(crate) fn process(&mut self, quantum: u32, left: &mut [i16])
        requires { IsNoneOr (quantum * self.old.channels) left.old }
        ensures left { left.new
            ≡ take (length left.old)
            (drop self.old.given self.old.samples ++ silence (quantum * self.old.channels)) }
        ensures given { self.new.given ≡ min (self.old.given + quantum * self.old.channels)
            (length self.old.samples) }
        ensures same { (self.new.channels ≡ self.old.channels)
            × (self.new.samples ≡ self.old.samples) }
    {
        let samples = &self.samples.as_slice()[self.given..];
        self.given += samples.len().min(quantum as usize * self.channels as usize);
        pad(samples, left);
    }
}
