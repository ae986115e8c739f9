//! The greatest absolute value of samples.
ghost use Rattle.std.specs.Prelude.{◌≡◌, ◌≤◌, max, unsigned_abs};
ghost use Rattle.pw_lists.specs.Samples.{peak_of};

/// The greater of a peak and the absolute value of one more sample.
pub fn higher(top: u16, x: i16) -> u16
    requires { top ≤ 32768 }
    ensures value { result ≡ max top (unsigned_abs x) }
    ensures limit { result ≤ 32768 }
{
    top.max(x.unsigned_abs())
}

/// The greatest absolute value of the samples, 0 of no samples. Takes no memory; one pass.
#[inline(always)]
pub fn peak(s: &[i16]) -> u32
    ensures value { result ≡ peak_of s.now }
    ensures limit { result ≤ 32768 }
{
    let mut top = 0;
    for x in s {
        top = higher(top, *x);
    }
    u32::from(top)
}
