//! Numbers in decimal digits.
ghost use Rattle.std.specs.Prelude.{◌≡◌, ◌+◌, ◌<◌, ◌≤◌, ◌≤ℤ◌, neg_ℤ, pos, MatchOption, IfSome};
ghost use Rattle.std.specs.List.{list_all};
ghost use Rattle.dump_reading.specs.working.Numerals.{is_digit, is_numeral, digits_number, number_of};
ghost use Rattle.dump_reading.specs.working.Numbers.{number_said, pair_said, triple_said, integer_said};

use crate::cutting::cut;

/// The greatest number of an Int, and of a Long or an Fd.
const INT_MAX: u64 = 2_147_483_647;

const LONG_MAX: u64 = 9_223_372_036_854_775_807;

fn is_digit(b: u8) -> bool
    ensures { result ≡ is_digit b }
{
    matches!(b, b'0'..=b'9')
}

fn all_digits(word: &[u8]) -> bool
    ensures { result ≡ list_all is_digit word.now }
{
    word.iter().all(|b| is_digit(*b))
}

// Digits without a leading zero, but for zero itself.
fn is_numeral(word: &[u8]) -> bool
    ensures { result ≡ is_numeral word.now }
{
    match word {
        [] => false,
        [first, rest @ ..] => all_digits(word) && (*first != b'0' || rest.is_empty()),
    }
}

// The number that the digits name, unless it is above a limit.
fn digits_within(digits: &[u8], high: u64) -> Option<u64>
    ensures { MatchOption result
        (high < digits_number digits.now)
        (λ n. (n ≡ digits_number digits.now) × (n ≤ high)) }
{
    let mut n: u128 = 0;
    for b in digits {
        n = n * 10 + u128::from(b.saturating_sub(b'0'));
        if u128::from(high) < n {
            return None;
        }
    }
    Some(n as u64)
}

// A number in plain decimal, from `low` to `high`.
fn number_between(word: &[u8], low: u64, high: u64) -> Option<u64>
    ensures is { result ≡ number_of low high word.now }
    ensures within { IfSome result (λ n. (low ≤ n) × (n ≤ high)) }
{
    if !is_numeral(word) {
        return None;
    }
    match digits_within(word, high) {
        None => None,
        Some(n) => { if low <= n { Some(n) } else { None } }
    }
}

/// A number of 32 bits in plain decimal.
#[tactic(auto, unfolding(crate::specs::working::Numbers::number_said))]
pub(crate) fn number_said(word: &[u8]) -> Option<u32>
    ensures { result ≡ number_said word.now }
{
    match number_between(word, 0, u64::from(u32::MAX)) {
        None => None,
        Some(n) => Some(n as u32),
    }
}

/// Two numbers with a mark between them.
#[tactic(auto, unfolding(crate::specs::working::Numbers::pair_said))]
pub(crate) fn pair_said(word: &[u8], mark: u8) -> Option<(u32, u32)>
    ensures { result ≡ pair_said mark word.now }
{
    match cut(word, mark) {
        None => None,
        Some((first, second)) => match number_said(first) {
            None => None,
            Some(a) => match number_said(second) {
                None => None,
                Some(b) => Some((a, b)),
            },
        },
    }
}

/// Three numbers with a space between them.
#[tactic(auto, unfolding(crate::specs::working::Numbers::triple_said))]
pub(crate) fn triple_said(word: &[u8]) -> Option<(u32, u32, u32)>
    ensures { result ≡ triple_said word.now }
{
    match cut(word, b' ') {
        None => None,
        Some((first, rest)) => match number_said(first) {
            None => None,
            Some(a) => match pair_said(rest, b' ') {
                None => None,
                Some((b, c)) => Some((a, b, c)),
            },
        },
    }
}

// A number with a minus sign.
fn negated(n: u64) -> i64
    requires { (1 ≤ n) × (n ≤ LONG_MAX + 1) }
    ensures { result ≡ neg_ℤ (pos n) }
{
    -((n - 1) as i64) - 1
}

// A number up to `high`, or a minus sign and one from 1 to `high` and 1.
#[tactic(auto, unfolding(crate::specs::working::Numbers::integer_said))]
fn integer_said(word: &[u8], high: u64) -> Option<i64>
    requires { high ≤ LONG_MAX }
    ensures is { result ≡ integer_said high word.now }
    ensures within { IfSome result
        (λ n. (neg_ℤ (pos (high + 1)) ≤ℤ n) × (n ≤ℤ pos high)) }
{
    match word {
        [] => None,
        [first, digits @ ..] => {
            if *first == b'-' {
                match number_between(digits, 1, high + 1) {
                    None => None,
                    Some(n) => Some(negated(n)),
                }
            } else {
                match number_between(word, 0, high) {
                    None => None,
                    Some(n) => Some(n as i64),
                }
            }
        }
    }
}

/// A signed number of 32 bits in plain decimal.
pub(crate) fn int_said(word: &[u8]) -> Option<i32>
    ensures { result ≡ integer_said INT_MAX word.now }
{
    match integer_said(word, INT_MAX) {
        None => None,
        Some(n) => Some(n as i32),
    }
}

/// A signed number of 64 bits in plain decimal.
pub(crate) fn long_said(word: &[u8]) -> Option<i64>
    ensures { result ≡ integer_said LONG_MAX word.now }
{
    integer_said(word, LONG_MAX)
}
