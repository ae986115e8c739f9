//! A channel map keeps nothing between quanta.
ghost use Rattle.std.specs.Prelude.{◌≡◌, ◌<◌, ◌*◌, ◌/◌, ◌%◌, length, take, All, IfOk};
ghost use Rattle.pw_lists.specs.Samples.{picked};
ghost use Rattle.node_state.specs.Slices.{IsNoneOr};

use pw_lists::{Items, Memory};
use std::alloc::Global;

/// The channels of the input, and which of them each channel of the output is.
#[derive(Drop)]
pub(crate) struct MapState {
    pub(crate) channels: u32,
    pub(crate) list: Items<u32>,
    ghost some: { 0 < channels },
    ghost within: { All (λ c. c < channels) list },
}

impl MapState {
    /// The map, with a list of its own.
    pub(crate) fn new(alloc: Global, channels: u32, list: &Items<u32>) -> Result<MapState, Memory>
        requires some { 0 < channels }
        requires within { All (λ c. c < channels) list.now }
        ensures channels { IfOk result (λ s. s.channels ≡ channels) }
        ensures list { IfOk result (λ s. s.list ≡ list.now) }
    {
        match list.copy(alloc) {
            Ok(list) => Ok(MapState { channels, list }),
            Err(memory) => Err(memory),
        }
    }

    /// The channels that the list names, where the output has a form.
    pub(crate) fn process(&self, a: &[i16], left: &mut [i16])
        requires whole { length a.now % self.now.channels ≡ 0 }
        requires output { IsNoneOr
            (length a.now / self.now.channels * length self.now.list) left.old }
        ensures { left.new ≡ take (length left.old)
            (picked self.now.channels self.now.list a.now) }
    {
        if !left.is_empty() {
            s16_mixer::map_channels(self.channels as usize, self.list.as_slice(), a, left);
        }
    }
}
