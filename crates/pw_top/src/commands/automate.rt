//! `automate IN SEQ OUT`: a wave by the gains of a control sequence is stored as another.
#![tactic(auto, using(crate::proofs::AllowedLemmas::parts))]

ghost use Rattle.std.specs.Prelude.{◌≡◌, ◌≤◌, ◌/◌, ◌++◌, [], ◌∷◌, codes, length, IfOk};
ghost use Rattle.pw_lists.specs.Limits.{wav_bytes_limit};
ghost use Rattle.control_sequence.specs.Automation.{ArePoints, automated};
ghost use Rattle.wav_files.specs.WavWriting.{IsWave};
ghost use Rattle.run_results.specs.StatusLine.{numbers_line};
ghost use Rattle.command_frame.specs.Preparing.{LoadsOnly};
ghost use Rattle.pw_top.specs.working.Ending.{Ends, CommandCause, IsDeliverable, Tells};
ghost use Rattle.pw_top.specs.Automate.{automated_wave, automate_work, AutomatesWave, ReadsPoints, LoadsPoints, ReadsWave};

use crate::pod_file::POD_BYTES;
use crate::points_file::points_step;
use crate::preparing::Prepare;
use crate::wave_file::wave_step;
use command_frame::load_step;
use control_sequence::{Automation, Points};
use pw_lists::{Items, Memory, Text, WAV_BYTES_LIMIT, Which, append_decimal};
use pw_outside::Files;
use run_results::{Content, Status, Store, Work};
use std::alloc::Global;
use wav_files::Wav;

/// Stores the wave of one file, by the gains of another's control sequence, under a third name.
#[derive(Drop)]
pub struct AutomateFile {
    pub input: Text,
    pub seq: Text,
    pub out: Text,
}

impl Prepare for AutomateFile {
    ghost use Rattle.pw_top.specs.Automate.{IsAutomateAnswer};

    ghost answers = { λ c names. IsAutomateAnswer names c.input c.seq c.out };

    fn prepare<F: Files>(self, alloc: Global, files: &mut F) -> Result<Work, Status> {
        let AutomateFile { input, seq, out } = self;
        let long = Status::Limit {
            place: 1,
            which: Which::WavBytes,
        };
        match load_step(alloc, files, 1, &input, WAV_BYTES_LIMIT, long) {
            Err(status) => Err(status),
            Ok(bytes) => wave_loaded(alloc, files, &bytes, &seq, out),
        }
    }
}

// What the first file gives that was loaded.
fn wave_loaded<F: Files>(
    alloc: Global,
    files: &mut F,
    bytes: &Items<u8>,
    seq: &Text,
    out: Text,
) -> Result<Work, Status>
    requires small { length bytes.now ≤ wav_bytes_limit }
    ensures files { LoadsOnly (F.held files.old) (F.held files.new) (F.load_faults files.old)
        (F.load_faults files.new) (F.store_faults files.old) (F.store_faults files.new) }
    ensures told { Tells (F.held files.old)
        (λ names. ReadsWave names seq.now out bytes.now) result }
    ensures cause { CommandCause IsDeliverable (F.load_faults files.old)
        (F.load_faults files.new) result }
{
    match wave_step(alloc, 1, bytes) {
        Err(status) => Err(status),
        Ok(wav) => load_points(alloc, files, wav, seq, out),
    }
}

// The sequence is loaded once the first file is a wave.
fn load_points<F: Files>(
    alloc: Global,
    files: &mut F,
    wav: Wav,
    seq: &Text,
    out: Text,
) -> Result<Work, Status>
    requires wave { IsWave wav }
    ensures files { LoadsOnly (F.held files.old) (F.held files.new) (F.load_faults files.old)
        (F.load_faults files.new) (F.store_faults files.old) (F.store_faults files.new) }
    ensures told { Tells (F.held files.old) (λ names. LoadsPoints names seq.now out wav) result }
    ensures cause { CommandCause IsDeliverable (F.load_faults files.old)
        (F.load_faults files.new) result }
{
    let long = Status::Limit {
        place: 2,
        which: Which::PodBytes,
    };
    match load_step(alloc, files, 2, seq, POD_BYTES, long) {
        Err(status) => Err(status),
        Ok(bytes) => points_loaded(alloc, wav, &bytes, out),
    }
}

// What the sequence's file gives that was loaded.
fn points_loaded(alloc: Global, wav: Wav, bytes: &Items<u8>, out: Text) -> Result<Work, Status>
    requires wave { IsWave wav }
    ensures done { Ends (ReadsPoints out wav bytes.now) result }
    ensures cause { CommandCause IsDeliverable 0 0 result }
{
    match points_step(alloc, 2, bytes.as_slice()) {
        Err(status) => Err(status),
        Ok(points) => automate_wave(alloc, wav, points, out),
    }
}

// What the wave gives with these points.
fn automate_wave(alloc: Global, wav: Wav, points: Points, out: Text) -> Result<Work, Status>
    requires wave { IsWave wav }
    requires points { ArePoints points.items }
    ensures done { Ends (AutomatesWave out wav points) result }
    ensures cause { CommandCause IsDeliverable 0 0 result }
{
    match work_of(alloc, wav, points, out) {
        Ok(work) => Ok(work),
        Err(_memory) => Err(Status::Memory),
    }
}

// The wave by the gains of the points, in the row that it has.
fn automated(wav: Wav, points: Points) -> Wav
    requires wave { IsWave wav }
    requires points { ArePoints points.items }
    ensures wave { result ≡ automated_wave wav points.items }
{
    let Wav {
        rate,
        channels,
        mut samples,
    } = wav;
    Automation::new(points, channels).apply_in_place(samples.as_mut_slice());
    Wav {
        rate,
        channels,
        samples,
    }
}

// The line of this number of frames.
fn wrote_line(alloc: Global, frames: u64) -> Result<Text, Memory>
    ensures { IfOk result (λ text. text ≡ codes "wrote" ++ numbers_line (frames ∷ [])) }
{
    let mut text = Items::from_slice(alloc, b"wrote ".as_slice())?;
    append_decimal(&mut text, frames)?;
    text.push(b'\n')?;
    Ok(text)
}

// The store of the wave, and its line.
fn work_of(alloc: Global, wav: Wav, points: Points, out: Text) -> Result<Work, Memory>
    requires wave { IsWave wav }
    requires points { ArePoints points.items }
    ensures { IfOk result (λ work. work ≡ automate_work out wav points.items) }
{
    let frames = (wav.samples.len() / wav.channels as usize) as u64;
    let made = automated(wav, points);
    let mut stores = Items::new(alloc);
    stores.push(Store {
        place: 3,
        name: out,
        content: Content::Wave(made),
    })?;
    let text = wrote_line(alloc, frames)?;
    Ok(Work { stores, text })
}
