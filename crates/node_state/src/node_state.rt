//! What a node keeps between quanta.
ghost use Rattle.std.specs.Prelude.{ℕ, ◌*◌, ◌≤◌, length};
ghost use Rattle.pw_lists.specs.Limits.{quantum_limit};
ghost use Rattle.pw_graph.specs.SoundShape.{IsBetween};
ghost use Rattle.node_state.specs.States.{stream_of, room_in, wanted_room};

use crate::kind_state::KindState;

/// The state of a node: what its kind keeps, and how many frames it was active for. It borrows
/// nothing.
#[derive(Drop)]
pub struct NodeState {
    pub(crate) state: KindState,
    /// Frames in a quantum.
    pub(crate) quantum: u32,
    /// The channels at the first input, 0 where it has none.
    pub(crate) channels: u32,
    /// The most channels that it was prepared for.
    pub(crate) most: u32,
    /// Frames so far.
    pub(crate) frames: u64,
    /// Frames that it was prepared for.
    pub(crate) prepared: u64,
    ghost quantum_range: { IsBetween 1 quantum_limit quantum },
    ghost channels_range: { channels ≤ most },
    ghost most_range: { most ≤ 8 },
    ghost frames_range: { frames ≤ prepared },
    ghost stream: { length (stream_of state) ≤ frames * channels },
    ghost room: { wanted_room state most prepared ≤ room_in state },
}

impl NodeState {
    ghost use Rattle.std.specs.Prelude.{◌≡◌};
    ghost use Rattle.pw_graph.specs.KindFunction.{KindInputs};
    ghost use Rattle.node_state.specs.StandsFor.{StandsFor, node_kind, kept_stream};
    ghost use Rattle.node_state.specs.Streams.{stream_kept_by, peak_kept_by};

    /// A sink's stream so far: all that its input received. Of every other kind nothing. Takes no
    /// memory.
    pub fn kept(&self) -> &[i16]
        ensures value { result.now ≡ kept_stream self.now }
        ensures stream { (h : KindInputs) → StandsFor self.now h
            → result.now ≡ stream_kept_by (node_kind self.now) h }
    {
        self.state.stream()
    }

    /// The greatest absolute value that a meter's input received so far, 0 to 32768. Of every other
    /// kind 0. Takes no memory.
    pub fn greatest(&self) -> u32
        ensures { (h : KindInputs) → StandsFor self.now h
            → result ≡ peak_kept_by (node_kind self.now) h }
    {
        match &self.state {
            KindState::Meter(s) => s.peak,
            _ => 0,
        }
    }
}
