//! A mixer of two inputs keeps nothing between quanta.
ghost use Rattle.std.specs.Prelude.{◌≡◌, length, map, zip, take};
ghost use Rattle.pw_lists.specs.Samples.{mixed};
ghost use Rattle.pw_lists.specs.Samples.{IsGain};
ghost use Rattle.node_state.specs.Slices.{IsNoneOr};

/// The factors of the two inputs, in 1/256.
#[derive(Drop)]
pub(crate) struct Mix2State {
    pub(crate) ga: i32,
    pub(crate) gb: i32,
    ghost range_a: { IsGain ga },
    ghost range_b: { IsGain gb },
}

impl Mix2State {
    /// Each pair of samples by its gains, where the output has a form.
    pub(crate) fn process(&self, a: &[i16], b: &[i16], left: &mut [i16])
        requires inputs { length b.now ≡ length a.now }
        requires output { IsNoneOr (length a.now) left.old }
        ensures { left.new
            ≡ take (length left.old)
            (map (λ p. mixed self.now.ga self.now.gb p.0 p.1) (zip a.now b.now)) }
    {
        if !left.is_empty() {
            s16_mixer::mix2(self.ga, self.gb, a, b, left);
        }
    }
}
