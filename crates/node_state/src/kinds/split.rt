//! A split of stereo into its two channels keeps nothing between quanta.
ghost use Rattle.std.specs.Prelude.{◌≡◌, ◌<◌, ◌%◌, ◌/◌, length, take, [], ◌∷◌};
ghost use Rattle.pw_lists.specs.Samples.{picked};
ghost use Rattle.node_state.specs.Slices.{IsNoneOr};

/// Nothing.
#[derive(Drop)]
pub(crate) struct SplitState;

// One channel of each stereo frame, where the output has a form.
fn pick(channel: u32, a: &[i16], to: &mut [i16])
    requires channel { channel < 2 }
    requires whole { length a.now % 2 ≡ 0 }
    requires output { IsNoneOr (length a.now / 2) to.old }
    ensures { to.new ≡ take (length to.old) (picked 2 (channel ∷ []) a.now) }
{
    if !to.is_empty() {
        s16_mixer::map_channels(2, [channel].as_slice(), a, to);
    }
}

impl SplitState {
    /// Channel 0 to `left` and channel 1 to `right`, each where that output has a form.
    pub(crate) fn process(&self, a: &[i16], left: &mut [i16], right: &mut [i16])
        requires whole { length a.now % 2 ≡ 0 }
        requires left { IsNoneOr (length a.now / 2) left.old }
        requires right { IsNoneOr (length a.now / 2) right.old }
        ensures left { left.new ≡ take (length left.old) (picked 2 (0 ∷ []) a.now) }
        ensures right { right.new ≡ take (length right.old) (picked 2 (1 ∷ []) a.now) }
    {
        if left.is_empty() || right.is_empty() {
            pick(0, a, left);
            pick(1, a, right);
        } else {
            s16_mixer::split(a, left, right);
        }
    }
}
