//! Gains in decibels.
ghost use Rattle.std.specs.Prelude.{◌≡◌, ◌<◌, IfSome, option_map, pos, slice_index, unsigned_abs};
ghost use Rattle.pw_lists.specs.Samples.{IsGain};
ghost use Rattle.pod_text.specs.Decibels.{decibel_gains, decibel_index, decibels_of, IsNearest};

use graph_script::number_within;

/// From -60 dB to 42 dB, the gain in 1/256 that is nearest: 256 * 10^(dB / 20), rounded.
const GAINS: [u16; 103] = [
    0, 0, 0, 0, 0, 0, 1, 1, 1, 1, 1, 1, 1, 1, 1, 1, 2, 2, 2, 2, 3, 3, 3, 4, 4, 5, 5, 6, 6, 7, 8, 9,
    10, 11, 13, 14, 16, 18, 20, 23, 26, 29, 32, 36, 41, 46, 51, 57, 64, 72, 81, 91, 102, 114, 128,
    144, 162, 181, 203, 228, 256, 287, 322, 362, 406, 455, 511, 573, 643, 722, 810, 908, 1019,
    1144, 1283, 1440, 1615, 1812, 2033, 2282, 2560, 2872, 3223, 3616, 4057, 4552, 5108, 5731, 6430,
    7215, 8095, 9083, 10192, 11435, 12830, 14396, 16153, 18123, 20335, 22816, 25600, 28724, 32228,
];

// The place of a number of decibels in the table, if it has one.
fn decibel_index(number: &[u8]) -> Option<u32>
    ensures place { result ≡ decibel_index number.now }
    ensures within { IfSome result (λ i. i < 103) }
{
    match number {
        [] => None,
        [first, digits @ ..] => {
            if *first == b'-' {
                match number_within(digits, 1, 60) {
                    None => None,
                    Some(n) => Some(60 - n),
                }
            } else {
                match number_within(number, 0, 42) {
                    None => None,
                    Some(n) => Some(60 + n),
                }
            }
        }
    }
}

// The gain at a place of the table.
fn table_at(index: u32) -> u16
    requires { index < 103 }
    ensures { result ≡ slice_index decibel_gains index }
{
    GAINS[index as usize]
}

// The gain of a number of decibels.
fn gain_of(number: &[u8]) -> Option<i32>
    ensures is { result ≡ option_map (λ i. pos (slice_index decibel_gains i))
        (decibel_index number.now) }
    ensures within { IfSome result IsGain }
    ensures nearest { IfSome result (λ g. IfSome (decibel_index number.now)
        (λ i. IsNearest i (unsigned_abs g))) }
{
    match decibel_index(number) {
        None => None,
        Some(index) => Some(table_at(index) as i32),
    }
}

/// The gain in 1/256 of a word such as `-6dB`: a whole number of decibels from -60 to 42, and the
/// unit after it. Takes no memory.
pub(crate) fn decibels_in(word: &[u8]) -> Option<i32>
    ensures is { result ≡ decibels_of word.now }
    ensures within { IfSome result IsGain }
{
    let (number, unit) = word.split_at(word.len().saturating_sub(2));
    if unit == b"dB".as_slice() {
        gain_of(number)
    } else {
        None
    }
}
