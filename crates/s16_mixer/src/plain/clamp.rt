//! Sums limited to a sample's range.
ghost use Rattle.std.specs.Prelude.{◌≡◌, length, map};
ghost use Rattle.pw_lists.specs.Samples.{clamped};

/// The sum, limited to a sample's range.
fn limit(sum: i32) -> i16
    ensures { result ≡ clamped sum }
{
    sum.clamp(-32768, 32767) as i16
}

/// Writes each sum, limited to -32768 and 32767, to its place in `to`. Takes no memory; one pass.
#[inline(always)]
pub fn clamp_out(sum: &[i32], to: &mut [i16])
    requires { length sum.now ≡ length to.old }
    ensures { to.new ≡ map clamped sum.now }
{
    for i in 0..sum.len() {
        to[i] = limit(sum[i]);
    }
}
