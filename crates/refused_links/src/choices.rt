//! What an offer admits at a key.
ghost use Rattle.std.specs.Prelude.{◌≡◌, IfOk};
ghost use Rattle.std.specs.Option.{option_copied};
ghost use Rattle.format_filter.specs.CommonFormat.{field_of};
ghost use Rattle.refused_links.specs.Sides.{choice_at};

use format_filter::{Choice, Field, Format};
use pw_lists::Memory;
use std::alloc::Global;

// The field of a key.
fn field_at(fields: &[Field], key: u32) -> Option<&Field>
    ensures { option_copied result ≡ field_of fields.now key }
{
    fields.iter().find(|field| field.key == key)
}

/// What an offer admits at a key, if it has the key.
pub(crate) fn choice_at(alloc: Global, offer: &Format, key: u32) -> Result<Option<Choice>, Memory>
    ensures { IfOk result (λ choice. choice ≡ choice_at offer.now key) }
{
    match field_at(offer.fields.as_slice(), key) {
        Some(field) => Ok(Some(field.choice.copy(alloc)?)),
        None => Ok(None),
    }
}
