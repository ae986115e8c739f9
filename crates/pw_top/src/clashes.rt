//! How two objects of one type clash at a key.
ghost use Rattle.std.specs.Prelude.{◌≡◌};
ghost use Rattle.pw_top.specs.Clashes.{has_key, clash_of};

use format_filter::{Field, Format};
use run_results::Clash;

/// The object type of a format.
const FORMAT: u32 = 0x40003;

// Whether one of the fields is of a key.
fn has_key(fields: &[Field], key: u32) -> bool
    ensures { result ≡ has_key fields.now key }
{
    fields.iter().any(|field| field.key == key)
}

/// How two objects of one type clash at a key, which one of them has.
pub fn clash_of(first: &Format, second: &Format, key: u32) -> Clash
    ensures { result ≡ clash_of first.now second.now key }
{
    let formats = first.object == FORMAT;
    if !has_key(first.fields.as_slice(), key) {
        Clash::FirstLacks { key, formats }
    } else if !has_key(second.fields.as_slice(), key) {
        Clash::SecondLacks { key, formats }
    } else {
        Clash::Values { key, formats }
    }
}
