//! Names of the keys of formats.
ghost use Rattle.std.specs.Prelude.{◌≡◌, ◌++◌, decimal, option_copied, OnOk};
ghost use Rattle.fault_messages.specs.KeyNames.{key_name, key_part, common_name, clash_said, named_key};

use crate::putting::{put_between, put_number};
use pw_lists::{Memory, Text, append_decimal};

// The name of a key, if it has one here.
#[tactic(auto, unfolding(crate::specs::KeyNames::key_name))]
fn key_name(key: u32) -> Option<&'static [u8]>
    ensures { option_copied result ≡ key_name key }
{
    if key == 1 {
        Some(b"media type".as_slice())
    } else if key == 2 {
        Some(b"media subtype".as_slice())
    } else if key == 65537 {
        Some(b"sample format".as_slice())
    } else if key == 65538 {
        Some(b"flags".as_slice())
    } else if key == 65539 {
        Some(b"rate".as_slice())
    } else if key == 65540 {
        Some(b"channels".as_slice())
    } else if key == 65541 {
        Some(b"position".as_slice())
    } else {
        None
    }
}

/// The name of a key in a format after its number, in brackets; nothing where it has none.
pub fn put_key(text: &mut Text, key: u32) -> Result<(), Memory>
    ensures { OnOk result (text.new ≡ text.old ++ key_part key) }
{
    match key_name(key) {
        None => Ok(()),
        Some(name) => put_between(text, b" (a format's ", name, b")"),
    }
}

// What the values under a key are called.
fn common_name(key: u32) -> &'static [u8]
    ensures { result.now ≡ common_name (key_name key) }
{
    match key_name(key) {
        None => b"value",
        Some(name) => name,
    }
}

/// Words, and the number of a key.
pub fn put_key_number(text: &mut Text, before: &[u8], key: u32) -> Result<(), Memory>
    ensures { OnOk result (text.new ≡ text.old ++ (before.now ++ decimal key)) }
{
    text.extend(before)?;
    append_decimal(text, u64::from(key))
}

/// A key that a format does not have, by its name where it has one.
pub fn put_format_key(text: &mut Text, key: u32) -> Result<(), Memory>
    ensures { OnOk result (text.new ≡ text.old ++ named_key (key_name key) key) }
{
    match key_name(key) {
        None => put_key_number(text, b"key ", key),
        Some(name) => {
            text.extend(name)?;
            put_number(text, b" (key ", key, b")")
        }
    }
}

/// That two formats have nothing in common under a key.
#[tactic(auto, unfolding(crate::specs::KeyNames::clash_said))]
pub fn put_clash(text: &mut Text, key: u32) -> Result<(), Memory>
    ensures { OnOk result (text.new ≡ text.old ++ clash_said key) }
{
    text.extend(b"no common ")?;
    text.extend(common_name(key))?;
    put_number(text, b" (key ", key, b")")
}
