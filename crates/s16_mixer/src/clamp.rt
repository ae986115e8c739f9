//! Sums limited to a sample's range, a lane at a time.
ghost use Rattle.std.specs.Prelude.{◌≡◌, length, map};
ghost use Rattle.pw_lists.specs.Samples.{clamped};

use crate::plain;

const LANE: usize = 128;

/// Writes each sum, limited to -32768 and 32767, to its place in `to`. Takes no memory; one pass.
pub fn clamp_out(sum: &[i32], to: &mut [i16])
    requires { length sum.now ≡ length to.old }
    ensures { to.new ≡ map clamped sum.now }
{
    let (lanes, rest) = sum.as_chunks::<LANE>();
    for k in 0..lanes.len() {
        plain::clamp_out(lanes[k].as_slice(), &mut to[k * LANE..(k + 1) * LANE]);
    }
    plain::clamp_out(rest, &mut to[lanes.len() * LANE..]);
}
