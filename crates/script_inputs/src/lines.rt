//! What one line makes of the inputs so far.
ghost use Rattle.std.specs.Prelude.{◌≡◌, ◌<◌, length, Ok, IfOk, IfSome, Some, None, option_copied};
ghost use Rattle.pw_graph.specs.declared.kind.Kind.TheVariants as K;
ghost use Rattle.pw_graph.specs.KindRanges.{IsInRange};
ghost use Rattle.pw_lists.specs.Limits.{nodes_limit};
ghost use Rattle.format_filter.specs.CommonFormat.{IsSoundFormat};
ghost use Rattle.port_model.specs.Offers.{HasFileNumbers};
ghost use Rattle.port_model.specs.PortState.{IsPort};
ghost use Rattle.script_inputs.specs.Inputs.{HasForm, with_wave, plain_kind, with_plain};
ghost use Rattle.script_inputs.specs.ScriptInputs.{source_outcome, OffersFormat, MakesLine, UnlessMemory};
ghost use Rattle.script_inputs.specs.working.SoundInputs.{MayMake, AreSoundInputs, AreInputsAfter, kind_by};

use crate::fault::InputFault;
use crate::inputs::Inputs;
use format_filter::Format;
use graph_script::{Command, Line, kind_made};
use port_model::Narrowed;
use pw_graph::{Kind, PortId};
use pw_lists::Memory;
use std::alloc::Global;
use wav_files::{Wav, WavIn};

// The node of a source, with its wave.
fn with_wave(inputs: Inputs, node: u32, wav: Wav) -> Result<Inputs, Memory>
    requires form { HasForm wav }
    requires room { length inputs.ports < nodes_limit }
    ensures { IfOk result (λ after. after ≡ with_wave inputs node wav) }
{
    let mut after = inputs;
    after.ports.add(&Kind::Source, wav.rate, wav.channels)?;
    after.waves.push(WavIn { node, wav })?;
    Ok(after)
}

// A `source` line, by the wave that comes next.
fn source_line(
    line: u32,
    node: u32,
    wave: Option<Wav>,
    inputs: Inputs,
) -> Result<Inputs, InputFault>
    requires sound { AreSoundInputs inputs }
    requires node { node ≡ length inputs.ports }
    requires room { length inputs.ports < nodes_limit }
    requires form { IfSome wave HasForm }
    ensures made { UnlessMemory (λ r. r ≡ source_outcome line node wave inputs) result }
    ensures sound { IfOk result (AreInputsAfter inputs (Some K.Source)) }
{
    match wave {
        None => Err(InputFault::NoWave { line }),
        Some(wav) => match with_wave(inputs, node, wav) {
            Ok(after) => Ok(after),
            Err(Memory) => Err(InputFault::Memory),
        },
    }
}

// A port that a format narrows.
fn narrow(line: u32, port: PortId, format: &Format, inputs: Inputs) -> Result<Inputs, InputFault>
    requires sound { AreSoundInputs inputs }
    requires port { IsPort inputs.ports port }
    requires format { IsSoundFormat format.now }
    ensures made { UnlessMemory (OffersFormat line port (Some format.now) inputs) result }
    ensures sound { IfOk result (AreInputsAfter inputs None) }
{
    let mut after = inputs;
    match after.ports.offer(port, format) {
        Ok(Narrowed::Done) => Ok(after),
        Ok(Narrowed::NotFormat) => Err(InputFault::NotFormat { line }),
        Ok(Narrowed::Clash { key }) => Err(InputFault::Clash { line, key }),
        Err(Memory) => Err(InputFault::Memory),
    }
}

// An `offer` line, by the format that comes next.
fn offer_line(
    line: u32,
    port: PortId,
    format: Option<&Format>,
    inputs: Inputs,
) -> Result<Inputs, InputFault>
    requires sound { AreSoundInputs inputs }
    requires port { IsPort inputs.ports port }
    requires format { IfSome (option_copied format) IsSoundFormat }
    ensures made { UnlessMemory
        (OffersFormat line port (option_copied format.entry) inputs) result }
    ensures sound { IfOk result (AreInputsAfter inputs None) }
{
    match format {
        None => Err(InputFault::NoFormat { line }),
        Some(format) => narrow(line, port, format, inputs),
    }
}

// The kind of a node that no wave belongs to.
fn plain_kind(alloc: Global, command: &Command) -> Result<Option<Kind>, Memory>
    ensures { IfOk result (λ kind. kind ≡ plain_kind command.now) }
{
    match command {
        Command::Source { .. } => Ok(None),
        other => kind_made(alloc, other),
    }
}

// A node more, if there is a kind.
fn with_plain(inputs: Inputs, made: Option<Kind>) -> Result<Inputs, Memory>
    requires { IfSome made (λ kind. (length inputs.ports < nodes_limit) × IsInRange kind
        × HasFileNumbers kind 0 0) }
    ensures { IfOk result (λ after. after ≡ with_plain inputs made) }
{
    let mut after = inputs;
    if let Some(kind) = made {
        after.ports.add(&kind, 0, 0)?;
    }
    Ok(after)
}

// A line that no wave and no format belongs to.
fn plain_line(alloc: Global, command: &Command, inputs: Inputs) -> Result<Inputs, InputFault>
    requires sound { AreSoundInputs inputs }
    requires line { IfSome (plain_kind command.now)
        (λ kind. (length inputs.ports < nodes_limit) × IsInRange kind
        × HasFileNumbers kind 0 0) }
    ensures made { UnlessMemory (λ r. r ≡ Ok (with_plain inputs (plain_kind command.now))) result }
    ensures sound { IfOk result (AreInputsAfter inputs (plain_kind command.now)) }
{
    match plain_kind(alloc, command) {
        Err(Memory) => Err(InputFault::Memory),
        Ok(made) => match with_plain(inputs, made) {
            Ok(after) => Ok(after),
            Err(Memory) => Err(InputFault::Memory),
        },
    }
}

/// What a line makes of the inputs so far, by the wave and the format that come next. A line that
/// is no `source` and no `offer` looks at neither.
pub(crate) fn after_line(
    alloc: Global,
    line: &Line,
    wave: Option<Wav>,
    format: Option<&Format>,
    inputs: Inputs,
) -> Result<Inputs, InputFault>
    requires sound { AreSoundInputs inputs }
    requires line { MayMake inputs.ports line.now.command }
    requires form { IfSome wave HasForm }
    requires format { IfSome (option_copied format) IsSoundFormat }
    ensures made { UnlessMemory (MakesLine line.now.line line.now.command wave
        (option_copied format.entry) inputs) result }
    ensures sound { IfOk result (AreInputsAfter inputs (kind_by line.now.command)) }
{
    match &line.command {
        Command::Source { node, .. } => source_line(line.line, *node, wave, inputs),
        Command::Offer { port, .. } => offer_line(line.line, *port, format, inputs),
        other => plain_line(alloc, other, inputs),
    }
}
