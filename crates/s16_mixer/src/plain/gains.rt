//! Samples by gains: factors in 1/256, rounded towards minus infinity and then clamped.
ghost use Rattle.std.specs.Prelude.{◌≡◌, ◌≤◌, length, map, zip, ◌*ℤ◌, unsigned_abs};
ghost use Rattle.std.specs.Int.{int_shr};
ghost use Rattle.pw_lists.specs.Samples.{clamped, scaled, mixed};
ghost use Rattle.s16_mixer.specs.Ranges.{IsGain};

/// A sample by a gain, before the rounding.
fn product(g: i32, x: i16) -> i32
    requires { IsGain g }
    ensures value { result ≡ x *ℤ g }
    ensures limit { unsigned_abs result ≤ 1073709056 }
{
    i32::from(x) * g
}

/// What products add up to, in samples: rounded towards minus infinity, then clamped.
fn rounded(wide: i32) -> i16
    ensures { result ≡ clamped (int_shr wide 8) }
{
    (wide >> 8).clamp(-32768, 32767) as i16
}

/// One sample by a gain.
fn scale(g: i32, x: i16) -> i16
    requires { IsGain g }
    ensures { result ≡ scaled g x }
{
    rounded(product(g, x))
}

/// A pair of samples, each by its gain, added and then rounded once.
fn mix(ga: i32, gb: i32, a: i16, b: i16) -> i16
    requires a { IsGain ga }
    requires b { IsGain gb }
    ensures { result ≡ mixed ga gb a b }
{
    rounded(product(ga, a) + product(gb, b))
}

/// Writes each sample by the gain `g` / 256, rounded towards minus infinity and clamped, to its
/// place in `to`. Takes no memory; one pass.
#[inline(always)]
pub fn gain(g: i32, s: &[i16], to: &mut [i16])
    requires lengths { length s.now ≡ length to.old }
    requires gain { IsGain g }
    ensures { to.new ≡ map (scaled g) s.now }
{
    for i in 0..s.len() {
        to[i] = scale(g, s[i]);
    }
}

/// Writes each pair of samples, `a` by `ga` / 256 and `b` by `gb` / 256, added, rounded towards
/// minus infinity and clamped once, to its place in `to`. Takes no memory; one pass.
#[inline(always)]
pub fn mix2(ga: i32, gb: i32, a: &[i16], b: &[i16], to: &mut [i16])
    requires length_a { length a.now ≡ length to.old }
    requires length_b { length b.now ≡ length to.old }
    requires gain_a { IsGain ga }
    requires gain_b { IsGain gb }
    ensures { to.new ≡ map (λ p. mixed ga gb p.0 p.1) (zip a.now b.now) }
{
    for i in 0..to.len() {
        to[i] = mix(ga, gb, a[i], b[i]);
    }
}
