//! Bytes by name, as both kinds of files in memory keep them.
ghost use Rattle.std.specs.Prelude.{◌≡◌, ℕ, ◌≤◌, min, Some, OnOk, OnErr};
ghost use Rattle.pw_outside.specs.Files.{stored, OthersSame, SameNames, IsLoaded, IsWithin};
ghost use Rattle.pw_outside.specs.Causes.{HasCause};
ghost use Rattle.pw_outside.specs.InMemory.{names_of};
ghost use Rattle.pw_outside.specs.FailingCalls.{kept_by};

use crate::files::{FileFail, Loaded};
use pw_lists::{Items, Memory, Text};
use std::alloc::Global;
use std::collections::BTreeMap;

/// Names and the bytes under them.
pub(crate) type NameMap = BTreeMap<Vec<u8>, Items<u8>>;

// The value under the name is replaced by the bytes: seen at the name and at all others.
fn insert(map: &mut NameMap, alloc: Global, name: &[u8], bytes: &[u8]) -> Result<(), Memory>
    ensures here { OnOk result (names_of map.new name.now ≡ Some bytes.now) }
    ensures others { OnOk result (OthersSame (names_of map.old) (names_of map.new) name.now) }
    ensures err { OnErr result (SameNames (names_of map.old) (names_of map.new)) }
{
    let Ok(key) = Vec::from_slice(alloc, name) else {
        return Err(Memory);
    };
    let Ok(copy) = Items::from_slice(alloc, bytes) else {
        return Err(Memory);
    };
    match map.insert(key, copy) {
        Ok(_old) => Ok(()),
        Err(_refused) => Err(Memory),
    }
}

/// The bytes are stored under the name, and all other names are as before; after `Memory` all is as
/// before.
pub(crate) fn put(map: &mut NameMap, alloc: Global, name: &[u8], bytes: &[u8]) -> Result<(), Memory>
    ensures ok { OnOk result (names_of map.new ≡ stored name.now bytes.now (names_of map.old)) }
    ensures err { OnErr result (names_of map.new ≡ names_of map.old) }
{
    insert(map, alloc, name, bytes)
}

/// What a load that does not fail finds.
pub(crate) fn get(map: &NameMap, alloc: Global, name: &Text, limit: u64) -> Result<Loaded, FileFail>
    ensures told { IsLoaded (names_of map.now name.now) limit result }
    ensures within { IsWithin limit result }
    ensures cause { HasCause 0 0 result }
{
    let Some(bytes) = map.get(name.as_slice()) else {
        return Ok(Loaded::Absent);
    };
    if bytes.len() as u64 > limit {
        return Ok(Loaded::TooLong);
    }
    match bytes.copy(alloc) {
        Ok(copy) => Ok(Loaded::Whole(copy)),
        Err(_refused) => Err(FileFail::Memory),
    }
}

/// How many of `len` bytes a failing call keeps.
pub(crate) fn kept_of(kept: u64, len: usize) -> usize
    ensures { result ≡ min kept len }
{
    if kept < len as u64 {
        kept as usize
    } else {
        len
    }
}

/// How many bytes the call of this number keeps, where it is to fail.
pub(crate) fn kept_at(failing: &[(u64, u64)], number: u64) -> Option<u64>
    ensures { result ≡ kept_by failing.now number }
{
    failing.iter().find(|f| f.0 == number).map(|f| f.1)
}
