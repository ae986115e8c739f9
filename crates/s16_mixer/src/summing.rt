//! Samples added to sums, a lane at a time.
ghost use Rattle.std.specs.Prelude.{◌≡◌, ℕ, ◌+◌, length, All};
ghost use Rattle.pw_lists.specs.Samples.{summed};
ghost use Rattle.s16_mixer.specs.Ranges.{HasRoom, IsWithin};

use crate::plain;

const LANE: usize = 128;

/// Adds each sample to the sum in its place, with no clamp. Sums of up to 255 samples have room for
/// one more. Takes no memory; one pass.
pub fn mix_into(sum: &mut [i32], s: &[i16])
    requires lengths { length sum.old ≡ length s.now }
    requires room { All HasRoom sum.old }
    ensures sum { sum.new ≡ summed sum.old s.now }
    // Sums of n samples each are then sums of n + 1.
    ensures within { (n : ℕ) → All (IsWithin n) sum.old → All (IsWithin (n + 1)) sum.new }
{
    let (lanes, rest) = s.as_chunks::<LANE>();
    for k in 0..lanes.len() {
        plain::mix_into(&mut sum[k * LANE..(k + 1) * LANE], lanes[k].as_slice());
    }
    plain::mix_into(&mut sum[lanes.len() * LANE..], rest);
}
