//! A node's state made, with all its memory, and its stream begun anew.
ghost use Rattle.std.specs.Prelude.{◌≡◌, ◌<◌, ◌≤◌, [], IfOk, option_copied};
ghost use Rattle.pw_graph.specs.KindFunction.{KindInputs};
ghost use Rattle.pw_graph.specs.KindPorts.{input_count};
ghost use Rattle.pw_graph.specs.KindRanges.{IsInRange};
ghost use Rattle.pw_lists.specs.Limits.{quantum_limit};
ghost use Rattle.pw_graph.specs.SoundShape.{IsBetween};
ghost use Rattle.node_state.specs.Slices.{AllowsChannels};
ghost use Rattle.node_state.specs.StandsFor.{StandsFor, IsPrepared, IsRestarted, node_kind, node_wave_channels, node_channels};
ghost use Rattle.node_state.specs.StandsFor.{most_channels, kept_stream};
ghost use Rattle.node_state.specs.Streams.{HasItsWave, no_inputs, restarted, channels_of};

use crate::kind_state::KindState;
use crate::node_state::NodeState;
use pw_graph::Kind;
use pw_lists::Memory;
use std::alloc::Global;
use wav_files::Wav;

impl NodeState {
    /// The state of a node that has received nothing, with all the memory that it needs for
    /// `frames` frames in all, in quanta of `quantum` frames.
    ///
    /// `channels` are those at the first input, the most that it may have in the run, 0 where it
    /// has none. `wav` is a source's file; the state has a copy of at most the frames prepared. A
    /// delay takes memory for its line, of at most `frames` frames, a sink for a stream of that
    /// length.
    pub fn prepare(
        alloc: Global,
        kind: &Kind,
        wav: Option<&Wav>,
        channels: u32,
        quantum: u32,
        frames: u64,
    ) -> Result<NodeState, Memory>
        requires kind { IsInRange kind.now }
        requires wave { HasItsWave kind.now (option_copied wav) }
        requires channels { AllowsChannels kind.now channels }
        requires quantum { IsBetween 1 quantum_limit quantum }
        ensures kind { IfOk result (λ s. node_kind s ≡ kind.now) }
        ensures wave { IfOk result
            (λ s. node_wave_channels s ≡ channels_of (option_copied wav.entry)) }
        ensures numbers { IfOk result (λ s. IsPrepared channels quantum frames s) }
        ensures stands { IfOk result
            (λ s. StandsFor s (no_inputs kind.now (option_copied wav.entry) channels)) }
    {
        match KindState::new(alloc, kind, wav, channels, frames) {
            Ok(state) => Ok(NodeState {
                state,
                quantum,
                channels,
                most: channels,
                frames: 0,
                prepared: frames,
            }),
            Err(memory) => Err(memory),
        }
    }

    /// Begins the node's stream anew, of `channels` at the first input, at most as many as it was
    /// prepared for. A source and a square go on where they were. A sink has no frames yet. Takes
    /// no memory; a delay writes its line over with zeros.
    pub fn restart(&mut self, channels: u32)
        requires allowed { AllowsChannels (node_kind self.old) channels }
        requires room { channels ≤ most_channels self.old }
        requires empty { kept_stream self.old ≡ [] }
        ensures stands { (h : KindInputs) → StandsFor self.old h
            → StandsFor self.new (restarted (node_kind self.old) channels h) }
        ensures channels { 0 < input_count (node_kind self.old)
            → node_channels self.new ≡ channels }
        ensures same { IsRestarted self.old self.new }
        ensures goes_on { input_count (node_kind self.old) ≡ 0 → self.new ≡ self.old }
    {
        if !self.state.has_input() {
            return;
        }
        self.state.restart(channels);
        self.channels = channels;
    }
}
