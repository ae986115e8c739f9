//! The common fields of two rows of fields that ascend by their keys.
ghost use Rattle.std.specs.Prelude.{◌≡◌, ◌⊎◌, ◌↔◌, ℕ, ◌+◌, ◌<◌, ◌≤◌, length, drop, slice_get, IfOk, IsTrue};
ghost use Rattle.std.specs.List.{All};
ghost use Rattle.format_filter.specs.Soundness.{IsSound};
ghost use Rattle.format_filter.specs.CommonFormat.{AreSoundFields, IsMandatory};
ghost use Rattle.format_filter.specs.working.Merging.{IsKeyAt, IsBehind, Joins, Merges};

use crate::format::Field;
use crate::intersection::meet;
use pw_lists::{Items, Memory};
use std::alloc::Global;

/// The flag of a property that the other side must have too.
const MANDATORY: u32 = 8;

/// The common fields, or the least key at which two rows clash.
#[derive(Drop)]
pub enum Merged {
    Fields(Items<Field>),
    Clash { key: u32 },
}

/// The least key that is left in two rows of which one is not at its end.
fn least_key(a: &[Field], i: usize, b: &[Field], j: usize) -> u32
    requires a { AreSoundFields a.now }
    requires b { AreSoundFields b.now }
    requires within { (i ≤ length a.now) × (j ≤ length b.now) }
    requires left { (i < length a.now) ⊎ (j < length b.now) }
    ensures own { All (λ f. result ≤ f.key) (drop i a.now) }
    ensures other { All (λ f. result ≤ f.key) (drop j b.now) }
    ensures found { IsKeyAt a.now i result ⊎ IsKeyAt b.now j result }
{
    if i == a.len() {
        return b[j].key;
    }
    if j == b.len() {
        return a[i].key;
    }
    a[i].key.min(b[j].key)
}

/// The place after what is at a place under a key.
fn behind(fields: &[Field], at: usize, key: u32) -> usize
    requires sound { AreSoundFields fields.now }
    requires within { at ≤ length fields.now }
    requires least { All (λ f. key ≤ f.key) (drop at fields.now) }
    ensures behind { IsBehind fields.now at key result }
    ensures moves { IsKeyAt fields.now at key → result ≡ at + 1 }
{
    if at < fields.len() && fields[at].key == key {
        at + 1
    } else {
        at
    }
}

/// Whether a field's flags have MANDATORY.
fn is_mandatory(field: &Field) -> bool
    ensures { IsTrue result ↔ IsMandatory field.now.flags }
{
    field.flags & MANDATORY == MANDATORY
}

/// What two fields of one key have in common, if they do not clash.
fn join_both(alloc: Global, own: &Field, other: &Field) -> Result<Option<Field>, Memory>
    requires own { IsSound own.now.choice }
    requires other { IsSound other.now.choice }
    ensures { IfOk result (Joins (Some own.now) (Some other.now)) }
{
    match meet(alloc, &own.choice, &other.choice)? {
        Some(choice) => Ok(Some(Field {
            key: own.key,
            flags: own.flags & other.flags,
            choice,
        })),
        None => Ok(None),
    }
}

/// A field that only one side has, if it is not mandatory.
fn join_one(alloc: Global, field: &Field) -> Result<Option<Field>, Memory>
    requires { IsSound field.now.choice }
    ensures own { IfOk result (Joins (Some field.now) None) }
    ensures other { IfOk result (Joins None (Some field.now)) }
{
    if is_mandatory(field) {
        return Ok(None);
    }
    Ok(Some(field.copy(alloc)?))
}

/// What two fields have in common, of which each is there or not.
fn join(alloc: Global, own: &[Field], other: &[Field]) -> Result<Option<Field>, Memory>
    requires own { All (λ f. IsSound f.choice) own.now }
    requires other { All (λ f. IsSound f.choice) other.now }
    requires one { (0 < length own.now) ⊎ (0 < length other.now) }
    ensures { IfOk result (Joins (slice_get own.now 0) (slice_get other.now 0)) }
{
    if own.is_empty() {
        return join_one(alloc, &other[0]);
    }
    if other.is_empty() {
        return join_one(alloc, &own[0]);
    }
    join_both(alloc, &own[0], &other[0])
}

/// The common fields of two rows, or the least key at which they clash. Takes time linear in the
/// fields, and that of the intersections.
pub fn merge(alloc: Global, a: &[Field], b: &[Field]) -> Result<Merged, Memory>
    requires a { AreSoundFields a.now }
    requires b { AreSoundFields b.now }
    ensures { IfOk result (Merges a.now b.now) }
{
    let mut fields = Items::new(alloc);
    let (mut i, mut j) = (0, 0);
    while i < a.len() || j < b.len() {
        let key = least_key(a, i, b, j);
        let (after_i, after_j) = (behind(a, i, key), behind(b, j, key));
        match join(alloc, &a[i..after_i], &b[j..after_j])? {
            Some(field) => fields.push(field)?,
            None => return Ok(Merged::Clash { key }),
        }
        i = after_i;
        j = after_j;
    }
    Ok(Merged::Fields(fields))
}
