//! Numbers in decimal digits.
ghost use Rattle.std.specs.Prelude.{◌≡◌, ℕ, ◌<◌, ◌≤◌, MatchOption, IfSome};
ghost use Rattle.std.specs.List.{list_all};
ghost use Rattle.graph_script.specs.Arguments.{is_digit, is_numeral, digits_number, number_of, integer_of};
ghost use Rattle.graph_script.specs.Checked.{number_arg, integer_arg};

use crate::fault::ScriptWhy;

/// Whether the byte is one of 0 to 9.
pub(crate) fn is_digit(b: u8) -> bool
    ensures { result ≡ is_digit b }
{
    matches!(b, b'0'..=b'9')
}

fn all_digits(word: &[u8]) -> bool
    ensures { result ≡ list_all is_digit word.now }
{
    word.iter().all(|b| is_digit(*b))
}

// Digits without a leading zero, but for zero itself.
fn is_numeral(word: &[u8]) -> bool
    ensures { result ≡ is_numeral word.now }
{
    match word {
        [] => false,
        [first, rest @ ..] => all_digits(word) && (*first != b'0' || rest.is_empty()),
    }
}

// The number that the digits name, unless it is above a limit.
fn digits_within(digits: &[u8], high: u32) -> Option<u32>
    ensures { MatchOption result
        (high < digits_number digits.now)
        (λ n. (n ≡ digits_number digits.now) × (n ≤ high)) }
{
    let mut n = 0;
    for b in digits {
        n = n * 10 + u64::from(b.saturating_sub(b'0'));
        if u64::from(high) < n {
            return None;
        }
    }
    Some(n as u32)
}

/// A number in plain decimal, without a sign or a leading zero, from `low` to `high`, whatever the
/// length of the word. Takes no memory; cost: at most two looks at each byte.
pub fn number_within(word: &[u8], low: u32, high: u32) -> Option<u32>
    ensures is { result ≡ number_of low high word.now }
    ensures within { IfSome result (λ n. n ≤ high) }
{
    if !is_numeral(word) {
        return None;
    }
    match digits_within(word, high) {
        None => None,
        Some(n) => { if low <= n { Some(n) } else { None } }
    }
}

// A number up to `high`, or a minus sign and such a number that is not 0.
fn integer(word: &[u8], high: u32) -> Option<i32>
    requires { high ≤ 1000000 }
    ensures { result ≡ integer_of high word.now }
{
    match word {
        [] => None,
        [first, digits @ ..] => {
            if *first == b'-' {
                match number_within(digits, 1, high) {
                    None => None,
                    Some(n) => Some(-(n as i32)),
                }
            } else {
                match number_within(word, 0, high) {
                    None => None,
                    Some(n) => Some(n as i32),
                }
            }
        }
    }
}

/// The number from `low` to `high` that is meant.
pub(crate) fn number_in(word: &[u8], low: u32, high: u32) -> Result<u32, ScriptWhy>
    requires { high ≤ 1000000 }
    ensures { result ≡ number_arg low high word.now }
{
    match number_within(word, low, high) {
        None => Err(ScriptWhy::Number),
        Some(n) => Ok(n),
    }
}

/// The number that is meant, of at most `high` without its sign.
pub(crate) fn integer_in(word: &[u8], high: u32) -> Result<i32, ScriptWhy>
    requires { high ≤ 1000000 }
    ensures { result ≡ integer_arg high word.now }
{
    match integer(word, high) {
        None => Err(ScriptWhy::Number),
        Some(n) => Ok(n),
    }
}
