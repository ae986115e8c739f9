//! The state of a node of any kind: one state a kind, and the choice between them.

use crate::kinds::{
    DelayState, GainState, MapState, MeterState, Mix2State, SinkState, SourceState, SplitState,
    SquareState,
};
use pw_graph::Kind;
use pw_lists::Memory;
use std::alloc::Global;
use wav_files::Wav;

/// What a node keeps between quanta, by its kind.
#[derive(Drop)]
pub(crate) enum KindState {
    Source(SourceState),
    Square(SquareState),
    Gain(GainState),
    Mix2(Mix2State),
    Delay(DelayState),
    Map(MapState),
    Split(SplitState),
    Sink(SinkState),
    Meter(MeterState),
}

impl KindState {
    ghost use Rattle.std.specs.Prelude.{◌≡◌, ℕ, ◌<◌, ◌≤◌, take, length, [], IfOk, IsTrue, ◌↔◌, option_copied};
    ghost use Rattle.pw_graph.specs.KindFunction.{KindInputs};
    ghost use Rattle.pw_graph.specs.KindPorts.{input_count};
    ghost use Rattle.pw_graph.specs.KindRanges.{IsInRange};
    ghost use Rattle.pw_lists.specs.Limits.{quantum_limit};
    ghost use Rattle.node_state.specs.States.{kind_of, wave_channels, stream_of, room_in, wanted_room};
    ghost use Rattle.node_state.specs.working.Steps.{CanStep, given_by, IsStep};
    ghost use Rattle.node_state.specs.StandsFor.{Keeps};
    ghost use Rattle.node_state.specs.Streams.{restarted, no_inputs, channels_of, HasItsWave};

    /// One quantum of the node.
    pub(crate) fn process(
        &mut self,
        quantum: u32,
        a: &[i16],
        b: &[i16],
        left: &mut [i16],
        right: &mut [i16],
    )
        requires quantum { quantum ≤ quantum_limit }
        requires slices { CanStep self.old quantum a.now b.now left.old right.old }
        ensures left { left.new ≡ take (length left.old)
            (given_by self.old quantum a.now b.now 0) }
        ensures right { right.new
            ≡ take (length right.old) (given_by self.old quantum a.now b.now 1) }
        ensures state { IsStep quantum a.now self.old self.new }
    {
        match self {
            KindState::Source(s) => s.process(quantum, left),
            KindState::Square(s) => s.process(quantum, left),
            KindState::Gain(s) => s.process(a, left),
            KindState::Mix2(s) => s.process(a, b, left),
            KindState::Delay(s) => s.process(a, left),
            KindState::Map(s) => s.process(a, left),
            KindState::Split(s) => s.process(a, left, right),
            KindState::Sink(s) => s.process(a),
            KindState::Meter(s) => s.process(a),
        }
    }

    /// The state of a node that has received nothing, with room for `frames` frames of `channels`
    /// channels at the first input.
    pub(crate) fn new(
        alloc: Global,
        kind: &Kind,
        wav: Option<&Wav>,
        channels: u32,
        frames: u64,
    ) -> Result<KindState, Memory>
        requires kind { IsInRange kind.now }
        requires wave { HasItsWave kind.now (option_copied wav) }
        requires channels { channels ≤ 8 }
        ensures kind { IfOk result (λ s. kind_of s ≡ kind.now) }
        ensures wave { IfOk result
            (λ s. wave_channels s ≡ channels_of (option_copied wav.entry)) }
        ensures keeps { IfOk result (λ s. Keeps s channels frames
            (no_inputs kind.now (option_copied wav.entry) channels)) }
        ensures empty { IfOk result (λ s. stream_of s ≡ []) }
        ensures room { IfOk result (λ s. wanted_room s channels frames ≤ room_in s) }
    {
        match kind {
            Kind::Source => {
                let Some(wav) = wav else { unreachable!() };
                Ok(KindState::Source(SourceState::new(alloc, wav, frames)?))
            }
            Kind::Square {
                rate,
                channels,
                period,
                amp,
            } => Ok(KindState::Square(SquareState::new(*rate, *channels, *period, *amp))),
            Kind::Gain { g } => Ok(KindState::Gain(GainState { g: *g })),
            Kind::Mix2 { ga, gb } => Ok(KindState::Mix2(Mix2State { ga: *ga, gb: *gb })),
            Kind::Delay { frames: delay } => Ok(KindState::Delay(DelayState::new(
                alloc, *delay, channels, frames,
            )?)),
            Kind::Map { channels, list } => Ok(KindState::Map(MapState::new(
                alloc, *channels, list,
            )?)),
            Kind::Split => Ok(KindState::Split(SplitState)),
            Kind::Sink => Ok(KindState::Sink(SinkState::new(alloc, frames, channels)?)),
            Kind::Meter => Ok(KindState::Meter(MeterState::new())),
            Kind::Dummy => unreachable!(),
        }
    }

    /// Begins the stream anew, of `channels` channels at the first input. Source and square go on.
    pub(crate) fn restart(&mut self, channels: u32)
        requires room { wanted_room self.old channels 0 ≤ room_in self.old }
        requires empty { stream_of self.old ≡ [] }
        ensures keeps { (before prepared : ℕ) (h : KindInputs)
            → Keeps self.old before prepared h
            → Keeps self.new channels prepared (restarted (kind_of self.old) channels h) }
        ensures kind { kind_of self.new ≡ kind_of self.old }
        ensures wave { wave_channels self.new ≡ wave_channels self.old }
        ensures empty { stream_of self.new ≡ [] }
        ensures room { (most frames : ℕ) → wanted_room self.old most frames ≤ room_in self.old
            → wanted_room self.new most frames ≤ room_in self.new }
    {
        match self {
            KindState::Delay(s) => s.clear(channels),
            KindState::Meter(s) => *s = MeterState::new(),
            _ => (),
        }
    }

    /// Whether its kind has an input.
    pub(crate) fn has_input(&self) -> bool
        ensures { IsTrue result ↔ (0 < input_count (kind_of self.now)) }
    {
        !matches!(self, KindState::Source(_) | KindState::Square(_))
    }

    /// The stream that a sink keeps, of any other kind nothing.
    pub(crate) fn stream(&self) -> &[i16]
        ensures { result.now ≡ stream_of self.now }
    {
        match self {
            KindState::Sink(s) => s.stream(),
            _ => &[],
        }
    }
}
