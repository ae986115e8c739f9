//! A gain keeps nothing between quanta.
ghost use Rattle.std.specs.Prelude.{◌≡◌, length, map, take};
ghost use Rattle.pw_lists.specs.Samples.{scaled};
ghost use Rattle.pw_lists.specs.Samples.{IsGain};
ghost use Rattle.node_state.specs.Slices.{IsNoneOr};

/// The factor of a gain, in 1/256.
#[derive(Drop)]
pub(crate) struct GainState {
    pub(crate) g: i32,
    ghost range: { IsGain g },
}

impl GainState {
    /// Each sample by the gain, where the output has a form.
    pub(crate) fn process(&self, a: &[i16], left: &mut [i16])
        requires { IsNoneOr (length a.now) left.old }
        ensures { left.new ≡ take (length left.old) (map (scaled self.now.g) a.now) }
    {
        if !left.is_empty() {
            s16_mixer::gain(self.g, a, left);
        }
    }
}
