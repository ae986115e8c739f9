//! How many samples each port of a node has in a quantum, by its kind, and new nodes that follow
//! whole streams.
ghost use Rattle.std.specs.Prelude.{◌≡◌, ◌≤◌, ◌*◌, None, option_copied};
ghost use Rattle.pw_graph.specs.KindRanges.{IsInRange};
ghost use Rattle.pw_graph.specs.SoundShape.{IsBetween};
ghost use Rattle.node_state.specs.Slices.{first_channels, second_channels, left_channels, right_channels, AllowsChannels};
ghost use Rattle.node_state.specs.Streams.{HasItsWave, channels_of};

use crate::following::{Streams, Widths, follows};
use node_state::NodeState;
use pw_graph::Kind;
use pw_lists::Memory;
use std::alloc::Global;
use wav_files::Wav;

// The channels at the first input, where the node has n there.
fn first_of(kind: &Kind, n: u32) -> u32
    requires kind { IsInRange kind.now }
    requires few { n ≤ 8 }
    ensures channels { result ≡ first_channels kind.now n }
    ensures few { result ≤ 8 }
{
    match kind {
        Kind::Source | Kind::Square { .. } | Kind::Dummy => 0,
        Kind::Map { channels, .. } => *channels,
        Kind::Split => 2,
        _ => n,
    }
}

// The channels at the second input.
fn second_of(kind: &Kind, n: u32) -> u32
    requires few { n ≤ 8 }
    ensures channels { result ≡ second_channels kind.now n }
    ensures few { result ≤ 8 }
{
    match kind {
        Kind::Mix2 { .. } => n,
        _ => 0,
    }
}

// The channels at the first output, where the node's wave has `wave` and its first input `n`.
fn left_of(kind: &Kind, wave: u32, n: u32) -> u32
    requires kind { IsInRange kind.now }
    requires wave { wave ≤ 8 }
    requires few { n ≤ 8 }
    ensures channels { result ≡ left_channels kind.now wave n }
    ensures few { result ≤ 8 }
{
    match kind {
        Kind::Source => wave,
        Kind::Square { channels, .. } => *channels,
        Kind::Map { list, .. } => list.len() as u32,
        Kind::Split => 1,
        Kind::Sink | Kind::Meter | Kind::Dummy => 0,
        _ => n,
    }
}

// The channels at the second output.
fn right_of(kind: &Kind) -> u32
    ensures channels { result ≡ right_channels kind.now }
    ensures few { result ≤ 8 }
{
    match kind {
        Kind::Split => 1,
        _ => 0,
    }
}

// The samples of `channels` channels in a quantum.
fn width(quantum: u32, channels: u32) -> usize
    requires quantum { quantum ≤ 64 }
    requires channels { channels ≤ 8 }
    ensures { result ≡ quantum * channels }
{
    quantum as usize * channels as usize
}

// The samples at each port.
fn widths_of(kind: &Kind, wave: u32, n: u32, quantum: u32) -> Widths
    requires kind { IsInRange kind.now }
    requires wave { wave ≤ 8 }
    requires few { n ≤ 8 }
    requires quantum { quantum ≤ 64 }
    ensures a { result.a ≡ quantum * first_channels kind.now n }
    ensures b { result.b ≡ quantum * second_channels kind.now n }
    ensures left { result.left ≡ quantum * left_channels kind.now wave n }
    ensures right { result.right ≡ quantum * right_channels kind.now }
{
    Widths {
        a: width(quantum, first_of(kind, n)),
        b: width(quantum, second_of(kind, n)),
        left: width(quantum, left_of(kind, wave, n)),
        right: width(quantum, right_of(kind)),
    }
}

// The channels of a wave, none without one.
fn channels_in(wav: Option<&Wav>) -> u32
    ensures { result ≡ channels_of (option_copied wav.entry) }
{
    match wav {
        Some(wav) => wav.channels,
        None => 0,
    }
}

/// A new node that, given the inputs quantum after quantum, gave just the outputs; none where it
/// gave others.
pub fn followed(
    alloc: Global,
    kind: &Kind,
    wav: Option<&Wav>,
    channels: u32,
    quantum: u32,
    quanta: u32,
    streams: Streams<'_>,
) -> Result<Option<NodeState>, Memory>
    requires kind { IsInRange kind.now }
    requires wave { HasItsWave kind.now (option_copied wav) }
    requires wide { channels_of (option_copied wav) ≤ 8 }
    requires channels { AllowsChannels kind.now channels }
    requires few { channels ≤ 8 }
    requires quantum { IsBetween 1 64 quantum }
    requires quanta { quanta ≤ 16 }
{
    let frames = u64::from(quanta) * u64::from(quantum);
    let mut state = NodeState::prepare(alloc, kind, wav, channels, quantum, frames)?;
    let widths = widths_of(kind, channels_in(wav), channels, quantum);
    if follows(alloc, &mut state, widths, streams, quanta)? {
        Ok(Some(state))
    } else {
        Ok(None)
    }
}

/// Whether a new node without a wave gives just the outputs.
pub fn gives(
    alloc: Global,
    kind: &Kind,
    channels: u32,
    quantum: u32,
    quanta: u32,
    streams: Streams<'_>,
) -> Result<bool, Memory>
    requires kind { IsInRange kind.now }
    requires wave { HasItsWave kind.now None }
    requires channels { AllowsChannels kind.now channels }
    requires few { channels ≤ 8 }
    requires quantum { IsBetween 1 64 quantum }
    requires quanta { quanta ≤ 16 }
{
    match followed(alloc, kind, None, channels, quantum, quanta, streams)? {
        Some(_state) => Ok(true),
        None => Ok(false),
    }
}

/// The streams of one input and one output.
pub fn one_way<'a>(a: &'a [i16], left: &'a [i16]) -> Streams<'a> {
    Streams {
        a,
        b: &[],
        left,
        right: &[],
    }
}
