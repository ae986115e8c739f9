//! Samples by gains, a lane at a time.
ghost use Rattle.std.specs.Prelude.{◌≡◌, length, map, zip};
ghost use Rattle.pw_lists.specs.Samples.{scaled, mixed};
ghost use Rattle.s16_mixer.specs.Ranges.{IsGain};

use crate::plain;

const LANE: usize = 128;

/// Writes each sample by the gain `g` / 256, rounded towards minus infinity and clamped, to its
/// place in `to`. Takes no memory; one pass.
pub fn gain(g: i32, s: &[i16], to: &mut [i16])
    requires lengths { length s.now ≡ length to.old }
    requires gain { IsGain g }
    ensures { to.new ≡ map (scaled g) s.now }
{
    let (lanes, rest) = s.as_chunks::<LANE>();
    for k in 0..lanes.len() {
        plain::gain(g, lanes[k].as_slice(), &mut to[k * LANE..(k + 1) * LANE]);
    }
    plain::gain(g, rest, &mut to[lanes.len() * LANE..]);
}

/// Writes each pair of samples, `a` by `ga` / 256 and `b` by `gb` / 256, added, rounded towards
/// minus infinity and clamped once, to its place in `to`. Takes no memory; one pass.
pub fn mix2(ga: i32, gb: i32, a: &[i16], b: &[i16], to: &mut [i16])
    requires length_a { length a.now ≡ length to.old }
    requires length_b { length b.now ≡ length to.old }
    requires gain_a { IsGain ga }
    requires gain_b { IsGain gb }
    ensures { to.new ≡ map (λ p. mixed ga gb p.0 p.1) (zip a.now b.now) }
{
    let (lanes, rest) = a.as_chunks::<LANE>();
    let (others, other_rest) = b.as_chunks::<LANE>();
    for k in 0..lanes.len() {
        let (x, y) = (lanes[k].as_slice(), others[k].as_slice());
        plain::mix2(ga, gb, x, y, &mut to[k * LANE..(k + 1) * LANE]);
    }
    plain::mix2(ga, gb, rest, other_rest, &mut to[lanes.len() * LANE..]);
}
