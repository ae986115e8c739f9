//! Samples added to sums.
ghost use Rattle.std.specs.Prelude.{◌≡◌, length, All, ◌+ℤ◌};
ghost use Rattle.pw_lists.specs.Samples.{summed};
ghost use Rattle.s16_mixer.specs.Ranges.{HasRoom, IsWithin};

/// The sum with one sample more.
fn plus(sum: i32, x: i16) -> i32
    requires { HasRoom sum }
    ensures sum { result ≡ sum +ℤ x }
    ensures short { IsWithin 1 x }
{
    sum + i32::from(x)
}

/// Adds each sample to the sum in its place, with no clamp. Sums of up to 255 samples have room for
/// one more. Takes no memory; one pass.
#[inline(always)]
pub fn mix_into(sum: &mut [i32], s: &[i16])
    requires lengths { length sum.old ≡ length s.now }
    requires room { All HasRoom sum.old }
    ensures sum { sum.new ≡ summed sum.old s.now }
    ensures short { All (IsWithin 1) s.now }
{
    for i in 0..s.len() {
        sum[i] = plus(sum[i], s[i]);
    }
}
