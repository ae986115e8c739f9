//! Four samples in a word.
ghost use Rattle.std.specs.Prelude.{◌≡◌, ◌+◌, ◌*◌, ◌<◌, ◌≤◌, ◌^◌, pos, slice_index_or, slice_set, length, [], ◌∷◌};
ghost use Rattle.std.specs.Int.{w16, cast_unsigned, cast_signed};
ghost use Rattle.board_rule.specs.buffers.SampleWords.{bits_at, packed};
ghost use Rattle.io_areas.specs.working.Unpacking.{unpacked, spread};

// A sample as a number below 2 ^ 16.
fn bits(sample: i16) -> u64
    ensures is { result ≡ cast_unsigned w16 sample }
    ensures low { result < 65536 }
{
    u64::from(sample.cast_unsigned())
}

// The bits of the sample at an index, or 0 past the last.
fn bits_or_zero(samples: &[i16], at: usize) -> u64
    ensures is { result ≡ bits_at samples.now at }
    ensures low { result < 65536 }
{
    if at < samples.len() {
        bits(samples[at])
    } else {
        0
    }
}

// Four numbers below 2 ^ 16 as one word, the first in the lowest bits.
fn joined(first: u64, second: u64, third: u64, fourth: u64) -> u64
    requires { (first < 65536) × (second < 65536) × (third < 65536) × (fourth < 65536) }
    ensures { result ≡ first + 65536 * (second + 65536 * (third + 65536 * fourth)) }
{
    first + 65536 * (second + 65536 * (third + 65536 * fourth))
}

// The word of the samples from `at` on, where fewer than four may be left: the rest is 0.
fn pack_rest(samples: &[i16], at: usize) -> u64
    requires { at < 2 ^ 35 }
    ensures { result ≡ bits_at samples.now at + 65536 *
        (bits_at samples.now (at + 1) + 65536 *
        (bits_at samples.now (at + 2) + 65536 * bits_at samples.now (at + 3))) }
{
    joined(
        bits_or_zero(samples, at),
        bits_or_zero(samples, at + 1),
        bits_or_zero(samples, at + 2),
        bits_or_zero(samples, at + 3),
    )
}

/// A word of a list: its four samples, or those that are left.
#[inline]
pub(crate) fn pack(samples: &[i16], place: u32) -> u64
    ensures { result ≡ packed samples.now place }
{
    let at = 4 * place as usize;
    if at + 3 < samples.len() {
        joined(
            bits(samples[at]),
            bits(samples[at + 1]),
            bits(samples[at + 2]),
            bits(samples[at + 3]),
        )
    } else {
        pack_rest(samples, at)
    }
}

// The sample of a number below 2 ^ 16.
fn sample(bits: u64) -> i16
    requires { bits < 65536 }
    ensures { result ≡ cast_signed w16 bits }
{
    (bits as u16).cast_signed()
}

/// The four samples of a word.
#[inline]
pub(crate) fn unpack(word: u64) -> [i16; 4]
    ensures { result ≡ unpacked word }
{
    [
        sample(word % 65536),
        sample(word / 65536 % 65536),
        sample(word / 4294967296 % 65536),
        sample(word / 281474976710656),
    ]
}

// Writes a sample to an index, if there is one.
fn put(to: &mut [i16], at: usize, sample: i16)
    ensures { to.new ≡ slice_set to.old at sample }
{
    if at < to.len() {
        to[at] = sample;
    }
}

/// Writes the samples of the last word of a list to their indexes, as far as these are there.
pub(crate) fn spread_rest(word: u64, place: u32, to: &mut [i16])
    ensures { to.new ≡ spread to.old (4 * place) word }
{
    let at = 4 * place as usize;
    let [first, second, third, fourth] = unpack(word);
    put(to, at, first);
    put(to, at + 1, second);
    put(to, at + 2, third);
    put(to, at + 3, fourth);
}

/// Writes the four samples of a word of a list to their indexes.
#[inline]
pub(crate) fn spread(word: u64, place: u32, to: &mut [i16])
    requires whole { 4 * place + 3 < length to.old }
    ensures { to.new ≡ spread to.old (4 * place) word }
{
    let at = 4 * place as usize;
    let [first, second, third, fourth] = unpack(word);
    to[at] = first;
    to[at + 1] = second;
    to[at + 2] = third;
    to[at + 3] = fourth;
}
