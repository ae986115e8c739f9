//! How the two objects of a filter clash, in words.
ghost use Rattle.std.specs.Prelude.{◌≡◌, ◌++◌, OnOk};
ghost use Rattle.fault_messages.specs.Clashes.{values_said, lacked_key, clash_text};

use crate::key_names::{put_clash, put_format_key, put_key_number};
use pw_lists::{Memory, Text};
use run_results::Clash;

// That no value under a key is a member of both.
fn put_values(text: &mut Text, formats: bool, key: u32) -> Result<(), Memory>
    ensures { OnOk result (text.new ≡ text.old ++ values_said formats key) }
{
    if formats {
        put_clash(text, key)
    } else {
        put_key_number(text, b"no common value under key ", key)
    }
}

// A key that one of them lacks.
fn put_lacked_key(text: &mut Text, formats: bool, key: u32) -> Result<(), Memory>
    ensures { OnOk result (text.new ≡ text.old ++ lacked_key formats key) }
{
    if formats {
        put_format_key(text, key)
    } else {
        put_key_number(text, b"key ", key)
    }
}

// A key that one of them lacks, between words.
fn put_lack(
    text: &mut Text,
    before: &[u8],
    formats: bool,
    key: u32,
    behind: &[u8],
) -> Result<(), Memory>
    ensures { OnOk result (text.new ≡ text.old
        ++ (before.now ++ (lacked_key formats key ++ behind.now))) }
{
    text.extend(before)?;
    put_lacked_key(text, formats, key)?;
    text.extend(behind)
}

/// How the two objects of a filter clash.
pub fn put_clash_text(text: &mut Text, clash: Clash) -> Result<(), Memory>
    ensures { OnOk result (text.new ≡ text.old ++ clash_text clash) }
{
    match clash {
        Clash::Types => text.extend(b"objects of different types"),
        Clash::Values { key, formats } => put_values(text, formats, key),
        Clash::FirstLacks { key, formats } => put_lack(
            text,
            b"the first has no ",
            formats,
            key,
            b", which the second makes mandatory",
        ),
        Clash::SecondLacks { key, formats } => put_lack(
            text,
            b"the second has no ",
            formats,
            key,
            b", which the first makes mandatory",
        ),
    }
}
