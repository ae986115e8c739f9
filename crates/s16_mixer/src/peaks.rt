//! The greatest absolute value of samples, a lane at a time.
ghost use Rattle.std.specs.Prelude.{◌≡◌, ◌≤◌, max, length, map, zip, All, unsigned_abs};
ghost use Rattle.pw_lists.specs.Samples.{peak_of};

use crate::plain;

const LANE: usize = 128;

/// Raises each top to the absolute value of the sample in its place.
#[inline(always)]
fn raise(tops: &mut [u16], s: &[i16])
    requires lengths { length tops.old ≡ length s.now }
    requires limit { All (λ top. top ≤ 32768) tops.old }
    ensures value { tops.new ≡ map (λ p. max p.0 (unsigned_abs p.1)) (zip tops.old s.now) }
    ensures limit { All (λ top. top ≤ 32768) tops.new }
{
    for j in 0..s.len() {
        tops[j] = plain::higher(tops[j], s[j]);
    }
}

/// The greatest absolute value of the samples, 0 of no samples. Takes no memory; one pass.
pub fn peak(s: &[i16]) -> u32
    ensures value { result ≡ peak_of s.now }
    ensures limit { result ≤ 32768 }
{
    let (lanes, rest) = s.as_chunks::<LANE>();
    let mut tops = [0u16; LANE];
    for k in 0..lanes.len() {
        raise(tops.as_mut_slice(), lanes[k].as_slice());
    }
    let mut top = plain::peak(rest);
    for j in 0..LANE {
        top = top.max(u32::from(tops[j]));
    }
    top
}
