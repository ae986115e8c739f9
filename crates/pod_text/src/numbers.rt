//! Signed numbers in decimal digits.
ghost use Rattle.std.specs.Prelude.{◌≡◌, ◌≤◌, ◌≤ℤ◌, neg_ℤ, pos, IfSome};
ghost use Rattle.graph_script.specs.Arguments.{integer_of};

use graph_script::number_within;

/// A number up to `high` in plain decimal, or a minus sign and such a number that is not 0. Takes
/// no memory.
pub(crate) fn integer_within(word: &[u8], high: u32) -> Option<i32>
    requires { high ≤ 1000000 }
    ensures is { result ≡ integer_of high word.now }
    ensures within { IfSome result (λ n. (neg_ℤ (pos high) ≤ℤ n) × (n ≤ℤ pos high)) }
{
    match word {
        [] => None,
        [first, digits @ ..] => {
            if *first == b'-' {
                match number_within(digits, 1, high) {
                    None => None,
                    Some(n) => Some(-(n as i32)),
                }
            } else {
                match number_within(word, 0, high) {
                    None => None,
                    Some(n) => Some(n as i32),
                }
            }
        }
    }
}
