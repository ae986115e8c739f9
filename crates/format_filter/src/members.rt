//! Members of choices.
ghost use Rattle.std.specs.Prelude.{◌≡◌, ◌↔◌, ℤ, pos, ◌<ℤ◌, IsTrue, IfSome, IsNone};
ghost use Rattle.std.specs.List.{Contains};
ghost use Rattle.format_filter.specs.Members.{number_of, IsReached, IsMember};
ghost use Rattle.format_filter.specs.Soundness.{FitsWide, HasSoundParts};

use crate::choice::{Choice, Wide};
use crate::comparing::is_equal;
use pod_codec::Pod;

/// Whether a value is among others.
pub fn is_among(values: &[Pod], value: &Pod) -> bool
    ensures { IsTrue result ↔ Contains values.now value.now }
{
    for each in values {
        if is_equal(each, value) {
            return true;
        }
    }
    false
}

/// The number of a value of this type.
pub fn number_in(wide: Wide, value: &Pod) -> Option<i64>
    ensures some { IfSome result (λ n. value.now ≡ number_of wide n) }
    ensures fits { IfSome result (FitsWide wide) }
    ensures none { IsNone result → (n : ℤ) → value.now ≡ number_of wide n → ⊥ }
{
    match wide {
        Wide::Int => match value {
            Pod::Int(n) => Some(i64::from(*n)),
            _ => None,
        },
        Wide::Long => match value {
            Pod::Long(n) => Some(*n),
            _ => None,
        },
    }
}

/// Whether a number is at `min`, `min + step`, and so on.
pub fn is_reached(min: i64, step: i64, n: i64) -> bool
    requires { pos 0 <ℤ step }
    ensures { IsTrue result ↔ IsReached min step n }
{
    n >= min && n.abs_diff(min) % step.cast_unsigned() == 0
}

/// Whether a choice admits a value.
pub fn is_member(choice: &Choice, value: &Pod) -> bool
    requires { HasSoundParts choice.now }
    ensures { IsTrue result ↔ IsMember choice.now value.now }
{
    match choice {
        Choice::Only(only) => is_equal(value, only),
        Choice::Enum { alts, .. } => is_among(alts.as_slice(), value),
        Choice::Range { wide, min, max, .. } => match number_in(*wide, value) {
            Some(n) => *min <= n && n <= *max,
            None => false,
        },
        Choice::Step {
            wide,
            min,
            max,
            step,
            ..
        } => match number_in(*wide, value) {
            Some(n) => n <= *max && is_reached(*min, *step, n),
            None => false,
        },
    }
}
