//! Values of formats and choices at a key.
ghost use Rattle.std.specs.Prelude.{◌≡◌, ℕ, MatchOption};
ghost use Rattle.std.specs.Option.{option_copied};
ghost use Rattle.format_filter.specs.CommonFormat.{field_of};
ghost use Rattle.port_model.specs.Offers.{int_of};
ghost use Rattle.port_model.specs.Forms.{only_of, value_at};

use format_filter::{Choice, Field};
use pod_codec::Pod;

/// The field of a key.
pub fn field_at(fields: &[Field], key: u32) -> Option<&Field>
    ensures { option_copied result ≡ field_of fields.now key }
{
    fields.iter().find(|field| field.key == key)
}

/// The one value that a choice is.
fn only_value(choice: &Choice) -> Option<&Pod>
    ensures { option_copied result ≡ only_of choice.now }
{
    match choice {
        Choice::Only(value) => Some(value),
        _ => None,
    }
}

/// The value of a format's fields at a key.
pub fn value_at(fields: &[Field], key: u32) -> Option<&Pod>
    ensures { option_copied result ≡ value_at fields.now key }
{
    match field_at(fields, key) {
        Some(field) => only_value(&field.choice),
        None => None,
    }
}

/// The number of an Int that is not negative.
pub fn number_in(value: &Pod) -> Option<u32>
    ensures { MatchOption result ((n : ℕ) → value.now ≡ int_of n → ⊥)
        (λ n. value.now ≡ int_of n) }
{
    match value {
        Pod::Int(n) => u32::try_from(*n).ok(),
        _ => None,
    }
}
