//! The files that the lines of a script name, loaded one after the other.
#![tactic(auto, using(crate::proofs::AllowedLemmas::parts))]

ghost use Rattle.std.specs.Prelude.{◌≡◌, ◌≤◌, ◌<◌, ◌-◌, length, Ok, IfOk, IfSome, Some, None, option_map};
ghost use Rattle.pw_graph.specs.declared.kind.Kind.TheVariants as K;
ghost use Rattle.pw_graph.specs.KindRanges.{IsInRange};
ghost use Rattle.pw_lists.specs.Limits.{all_wav_bytes_limit, nodes_limit};
ghost use Rattle.format_filter.specs.CommonFormat.{IsSoundFormat};
ghost use Rattle.wav_files.specs.WavWriting.{IsWave};
ghost use Rattle.graph_script.specs.Kinds.{made_by};
ghost use Rattle.port_model.specs.Narrowing.{Narrows};
ghost use Rattle.port_model.specs.Offers.{HasFileNumbers};
ghost use Rattle.port_model.specs.PortState.{IsPort};
ghost use Rattle.command_frame.specs.Preparing.{LoadsOnly};
ghost use Rattle.pw_top.specs.Allowed.{Reads};
ghost use Rattle.pw_top.specs.working.Ending.{Ends, CommandCause, Tells};
ghost use Rattle.script_inputs.specs.Inputs.{plain_kind};
ghost use Rattle.script_inputs.specs.working.SoundInputs.{MayMake};
ghost use Rattle.pw_top.specs.PlanInputs.{with_wave, with_plain, AreSoundInputs, AreInputsAfter};
ghost use Rattle.pw_top.specs.Loads.{wav_limit, wav_which, TakesWave, ReadsSource, LoadsSource, NarrowsTo};
ghost use Rattle.pw_top.specs.Loads.{ReadsOffer, LoadsOffer, LoadsLine};

use crate::format_file::format_step;
use crate::inputs::PlanInputs;
use crate::pod_file::POD_BYTES;
use crate::wave_file::wave_step;
use command_frame::load_step;
use format_filter::Format;
use graph_script::{Command, Line, kind_made};
use port_model::Narrowed;
use pw_graph::{Kind, PortId};
use pw_lists::{ALL_WAV_BYTES_LIMIT, Items, Memory, Text, WAV_BYTES_LIMIT, Which};
use pw_outside::Files;
use run_results::{PodWhy, Status};
use std::alloc::Global;
use wav_files::{Wav, WavIn};

// The bytes of the next WAV file, at most.
fn wav_limit(used: u64) -> u64
    requires { used ≤ all_wav_bytes_limit }
    ensures { result ≡ wav_limit used }
{
    if ALL_WAV_BYTES_LIMIT - used < WAV_BYTES_LIMIT {
        ALL_WAV_BYTES_LIMIT - used
    } else {
        WAV_BYTES_LIMIT
    }
}

// Which limit that is.
fn wav_which(used: u64) -> Which
    requires { used ≤ all_wav_bytes_limit }
    ensures { result ≡ wav_which used }
{
    if ALL_WAV_BYTES_LIMIT - used < WAV_BYTES_LIMIT {
        Which::AllWavBytes
    } else {
        Which::WavBytes
    }
}

// The node of a source, with its wave.
fn with_wave(inputs: PlanInputs, node: u32, size: u64, wav: Wav) -> Result<PlanInputs, Memory>
    requires wave { IsWave wav }
    requires room { length inputs.ports < nodes_limit }
    requires used { inputs.used ≤ all_wav_bytes_limit }
    requires size { size ≤ all_wav_bytes_limit - inputs.used }
    ensures { IfOk result (λ after. after ≡ with_wave inputs node size wav) }
{
    let PlanInputs {
        mut ports,
        mut waves,
        used,
    } = inputs;
    ports.add(&Kind::Source, wav.rate, u32::from(wav.channels))?;
    waves.push(WavIn { node, wav })?;
    Ok(PlanInputs {
        ports,
        waves,
        used: used + size,
    })
}

// A `source` line, once its file is a wave.
fn take_wave(node: u32, inputs: PlanInputs, size: u64, wav: Wav) -> Result<PlanInputs, Status>
    requires sound { AreSoundInputs inputs }
    requires node { node ≡ length inputs.ports }
    requires room { length inputs.ports < nodes_limit }
    requires wave { IsWave wav }
    requires size { size ≤ all_wav_bytes_limit - inputs.used }
    ensures done { Ends (TakesWave node inputs size wav) result }
    ensures cause { CommandCause (AreInputsAfter inputs (Some K.Source)) 0 0 result }
{
    match with_wave(inputs, node, size, wav) {
        Ok(after) => Ok(after),
        Err(_memory) => Err(Status::Memory),
    }
}

// A `source` line, once its file is loaded.
fn source_loaded(
    alloc: Global,
    place: u32,
    node: u32,
    bytes: &Items<u8>,
    inputs: PlanInputs,
) -> Result<PlanInputs, Status>
    requires sound { AreSoundInputs inputs }
    requires node { node ≡ length inputs.ports }
    requires room { length inputs.ports < nodes_limit }
    requires small { length bytes.now ≤ wav_limit inputs.used }
    ensures done { Ends (ReadsSource place node inputs bytes.now) result }
    ensures cause { CommandCause (AreInputsAfter inputs (Some K.Source)) 0 0 result }
{
    match wave_step(alloc, place, bytes) {
        Err(status) => Err(status),
        Ok(wav) => take_wave(node, inputs, bytes.len() as u64, wav),
    }
}

// A `source` line.
fn load_source<F: Files>(
    alloc: Global,
    files: &mut F,
    place: u32,
    node: u32,
    file: &Text,
    inputs: PlanInputs,
) -> Result<PlanInputs, Status>
    requires sound { AreSoundInputs inputs }
    requires node { node ≡ length inputs.ports }
    requires room { length inputs.ports < nodes_limit }
    ensures files { LoadsOnly (F.held files.old) (F.held files.new) (F.load_faults files.old)
        (F.load_faults files.new) (F.store_faults files.old) (F.store_faults files.new) }
    ensures told { Tells (F.held files.old)
        (λ names. LoadsSource names place node file.now inputs) result }
    ensures cause { CommandCause (AreInputsAfter inputs (Some K.Source)) (F.load_faults files.old)
        (F.load_faults files.new) result }
{
    let limit = wav_limit(inputs.used);
    let long = Status::Limit {
        place,
        which: wav_which(inputs.used),
    };
    match load_step(alloc, files, place, file, limit, long) {
        Err(status) => Err(status),
        Ok(bytes) => source_loaded(alloc, place, node, &bytes, inputs),
    }
}

// An `offer` line, once its file is an object.
fn narrow(
    place: u32,
    port: PortId,
    inputs: PlanInputs,
    format: &Format,
) -> Result<PlanInputs, Status>
    requires sound { AreSoundInputs inputs }
    requires port { IsPort inputs.ports port }
    requires format { IsSoundFormat format.now }
    ensures done { Ends (Reads (NarrowsTo place port inputs format.now)) result }
    ensures cause { CommandCause (AreInputsAfter inputs None) 0 0 result }
{
    let mut after = inputs;
    match after.ports.offer(port, format) {
        Ok(Narrowed::Done) => Ok(after),
        Ok(Narrowed::NotFormat) => Err(Status::Pod {
            place,
            why: PodWhy::NotFormat,
        }),
        Ok(Narrowed::Clash { key }) => Err(Status::Pod {
            place,
            why: PodWhy::Clash { key },
        }),
        Err(_memory) => Err(Status::Memory),
    }
}

// An `offer` line, once its file is loaded.
fn offer_loaded(
    alloc: Global,
    place: u32,
    port: PortId,
    bytes: &Items<u8>,
    inputs: PlanInputs,
) -> Result<PlanInputs, Status>
    requires sound { AreSoundInputs inputs }
    requires port { IsPort inputs.ports port }
    ensures done { Ends (ReadsOffer place port inputs bytes.now) result }
    ensures cause { CommandCause (AreInputsAfter inputs None) 0 0 result }
{
    match format_step(alloc, place, bytes.as_slice()) {
        Err(status) => Err(status),
        Ok(format) => narrow(place, port, inputs, &format),
    }
}

// An `offer` line.
fn load_offer<F: Files>(
    alloc: Global,
    files: &mut F,
    place: u32,
    port: PortId,
    file: &Text,
    inputs: PlanInputs,
) -> Result<PlanInputs, Status>
    requires sound { AreSoundInputs inputs }
    requires port { IsPort inputs.ports port }
    ensures files { LoadsOnly (F.held files.old) (F.held files.new) (F.load_faults files.old)
        (F.load_faults files.new) (F.store_faults files.old) (F.store_faults files.new) }
    ensures told { Tells (F.held files.old)
        (λ names. LoadsOffer names place port file.now inputs) result }
    ensures cause { CommandCause (AreInputsAfter inputs None) (F.load_faults files.old)
        (F.load_faults files.new) result }
{
    let long = Status::Limit {
        place,
        which: Which::PodBytes,
    };
    match load_step(alloc, files, place, file, POD_BYTES, long) {
        Err(status) => Err(status),
        Ok(bytes) => offer_loaded(alloc, place, port, &bytes, inputs),
    }
}

// The kind of a node that needs no file.
fn plain_kind(alloc: Global, command: &Command) -> Result<Option<Kind>, Memory>
    ensures { IfOk result (λ kind. kind ≡ plain_kind command.now) }
{
    match command {
        Command::Source { .. } => Ok(None),
        other => kind_made(alloc, other),
    }
}

// A node more, if there is a kind.
fn with_plain(inputs: PlanInputs, made: Option<Kind>) -> Result<PlanInputs, Memory>
    requires { IfSome made (λ kind. (length inputs.ports < nodes_limit) × IsInRange kind
        × HasFileNumbers kind 0 0) }
    ensures { IfOk result (λ after. after ≡ with_plain inputs made) }
{
    let mut after = inputs;
    if let Some(kind) = made {
        after.ports.add(&kind, 0, 0)?;
    }
    Ok(after)
}

// A line that loads nothing.
fn keep_line(alloc: Global, command: &Command, inputs: PlanInputs) -> Result<PlanInputs, Status>
    requires sound { AreSoundInputs inputs }
    requires line { IfSome (plain_kind command.now)
        (λ kind. (length inputs.ports < nodes_limit) × IsInRange kind
        × HasFileNumbers kind 0 0) }
    ensures done { Ends (Reads
        (λ outcome. outcome ≡ Ok (with_plain inputs (plain_kind command.now)))) result }
    ensures cause { CommandCause (AreInputsAfter inputs (plain_kind command.now)) 0 0 result }
{
    match plain_kind(alloc, command) {
        Err(_memory) => Err(Status::Memory),
        Ok(made) => match with_plain(inputs, made) {
            Ok(after) => Ok(after),
            Err(_memory) => Err(Status::Memory),
        },
    }
}

/// What a line loads, and the node that it makes.
pub fn load_line<F: Files>(
    alloc: Global,
    files: &mut F,
    line: &Line,
    inputs: PlanInputs,
) -> Result<PlanInputs, Status>
    requires sound { AreSoundInputs inputs }
    requires line { MayMake inputs.ports line.now.command }
    ensures files { LoadsOnly (F.held files.old) (F.held files.new) (F.load_faults files.old)
        (F.load_faults files.new) (F.store_faults files.old) (F.store_faults files.new) }
    ensures told { Tells (F.held files.old)
        (λ names. LoadsLine names line.now.line line.now.command inputs) result }
    ensures cause { CommandCause
        (AreInputsAfter inputs (option_map (λ m. m.1) (made_by line.now.command)))
        (F.load_faults files.old) (F.load_faults files.new) result }
{
    match &line.command {
        Command::Source { node, file } => load_source(alloc, files, line.line, *node, file, inputs),
        Command::Offer { port, file } => load_offer(alloc, files, line.line, *port, file, inputs),
        other => keep_line(alloc, other, inputs),
    }
}
