//! The line of a number.
ghost use Rattle.std.specs.Prelude.{◌≡◌, ◌≤◌, ◌++◌, length, codes, decimal, All, IfOk, OnOk};
ghost use Rattle.std.specs.Fmt.{signed_decimal};
ghost use Rattle.pw_lists.specs.Limits.{sink_samples_limit};
ghost use Rattle.pw_graph.specs.SoundPlan.{IsSoundPlan};
ghost use Rattle.wav_files.specs.WavWriting.{IsWave};
ghost use Rattle.cycle_model.specs.Epochs.{all_cycles};
ghost use Rattle.soak_graph.specs.SoakLine.{sink_wave, frames_in, sum_of, meter_peak, soak_line};

use crate::putting::put_integer;
use pw_graph::Plan;
use pw_lists::{Items, Memory, Text, append_decimal};
use std::alloc::Global;
use wav_files::{Kept, Outcome, Peak, Wav};

// The cycles of all epochs.
#[tactic(auto, using(crate::proofs::SoakLineLemmas::cycles_within))]
fn all_cycles(plan: &Plan) -> u64
    requires { IsSoundPlan plan.now }
    ensures { result ≡ all_cycles plan.now }
{
    let mut cycles = 0;
    for epoch in plan.epochs.as_slice() {
        cycles += u64::from(epoch.shape.cycles);
    }
    cycles
}

// The frames of a wave.
fn frames_in(wav: &Wav) -> u64
    requires { IsWave wav.now }
    ensures { result ≡ frames_in wav.now }
{
    wav.samples.len() as u64 / u64::from(wav.channels)
}

// The sum of samples.
fn sum_of(samples: &[i16]) -> i64
    requires { length samples.now ≤ sink_samples_limit }
    ensures { result ≡ sum_of samples.now }
{
    let mut sum = 0;
    for sample in samples {
        sum += i64::from(*sample);
    }
    sum
}

// The frames of the sink and the sum of its samples, 0 where there is no sink.
fn sink_numbers(sinks: &[Kept]) -> (u64, i64)
    requires { All (λ kept. IsWave kept.wav) sinks.now }
    ensures frames { result.0 ≡ frames_in (sink_wave sinks.now) }
    ensures sum { result.1 ≡ sum_of (sink_wave sinks.now).samples }
{
    match sinks {
        [] => (0, 0),
        [kept, ..] => (frames_in(&kept.wav), sum_of(kept.wav.samples.as_slice())),
    }
}

// The peak of the meter, 0 where there is no meter.
fn meter_peak(peaks: &[Peak]) -> u64
    ensures { result ≡ meter_peak peaks.now }
{
    match peaks {
        [] => 0,
        [peak, ..] => u64::from(peak.value),
    }
}

// A number after a space.
fn put_number(text: &mut Text, n: u64) -> Result<(), Memory>
    ensures { OnOk result (text.new ≡ text.old ++ codes " " ++ decimal n) }
{
    text.push(b' ')?;
    append_decimal(text, n)
}

// A sum after a space.
fn put_sum(text: &mut Text, sum: i64) -> Result<(), Memory>
    ensures { OnOk result (text.new ≡ text.old ++ codes " " ++ signed_decimal sum) }
{
    text.push(b' ')?;
    put_integer(text, sum)
}

/// The line of a number, by its plan and by what a run of that has kept: the number, the cycles of
/// all epochs, the frames of the sink, the sum of its samples, and the peak of the meter; words are
/// parted by one space, and a line feed ends it.
pub fn soak_line(alloc: Global, number: u32, plan: &Plan, outcome: &Outcome) -> Result<Text, Memory>
    requires sound { IsSoundPlan plan.now }
    requires waves { All (λ kept. IsWave kept.wav) outcome.now.sinks }
    ensures { IfOk result (λ text. text ≡ soak_line number plan.now outcome.now) }
{
    let mut text = Items::from_slice(alloc, b"soak".as_slice())?;
    put_number(&mut text, u64::from(number))?;
    put_number(&mut text, all_cycles(plan))?;
    let (frames, sum) = sink_numbers(outcome.sinks.as_slice());
    put_number(&mut text, frames)?;
    put_sum(&mut text, sum)?;
    put_number(&mut text, meter_peak(outcome.peaks.as_slice()))?;
    text.push(b'\n')?;
    Ok(text)
}
