//! Entries dealt to the seats that have them.
ghost use Rattle.std.specs.Prelude.{◌≡◌, ℕ, ◌+◌, ◌<◌, ◌≤◌, ◌++◌, ◌∷◌, [], All, IfOk, OnOk, count_by};
ghost use Rattle.std.specs.Prelude.{eqb, length, map, replicate, slice_index, slice_index_or, slice_set};
ghost use Rattle.board_rule.specs.working.Dealing.{AreDealt};

use std::alloc::{AllocError, Global};
use std::mem;

// How many entries each owner has, whose number is at most `most`.
fn counts_of(alloc: Global, owners: &[u32], most: u32) -> Result<Vec<usize>, AllocError>
    requires { All (λ o. o ≤ most) owners.now }
    ensures long { IfOk result (λ counts. length counts.items ≡ most + 1) }
    ensures each { IfOk result (λ counts. (k : ℕ) → k ≤ most
        → slice_index counts.items k ≡ count_by (λ o. eqb o k) owners.now) }
{
    let mut counts = Vec::from_elem(alloc, 0usize, most as usize + 1)?;
    for owner in owners {
        counts[*owner as usize] += 1;
    }
    Ok(counts)
}

// Empty lists, with room for so many entries.
fn empty_lists<T: Copy>(alloc: Global, counts: &[usize]) -> Result<Vec<Vec<T>>, AllocError>
    ensures { IfOk result (λ lists. map (λ v. v.items) lists.items
        ≡ replicate (length counts.now) []) }
{
    let mut lists = Vec::with_capacity(alloc, counts.len())?;
    for count in counts {
        lists.push(Vec::with_capacity(alloc, *count)?)?;
    }
    Ok(lists)
}

// One entry more in the list of its owner.
fn add<T: Copy>(lists: &mut Vec<Vec<T>>, owner: usize, entry: T) -> Result<(), AllocError>
    requires { owner < length lists.old.items }
    ensures { OnOk result (map (λ v. v.items) lists.new.items
        ≡ slice_set (map (λ v. v.items) lists.old.items) owner
        (slice_index_or (map (λ v. v.items) lists.old.items) owner [] ++ entry ∷ [])) }
{
    lists[owner].push(entry)?;
    Ok(())
}

/// The entries of each owner, whose number is at most `most`, in their order. Cost: two looks at
/// each entry, and a list for each owner.
pub(crate) fn deal<T: Copy>(
    alloc: Global,
    owners: &[u32],
    most: u32,
    all: &[T],
) -> Result<Vec<Vec<T>>, AllocError>
    requires most { All (λ o. o ≤ most) owners.now }
    requires same { length owners.now ≡ length all.now }
    ensures { IfOk result (λ dealt. AreDealt owners.now all.now 0 (most + 1)
        (map (λ v. v.items) dealt.items)) }
{
    let counts = counts_of(alloc, owners, most)?;
    let mut dealt = empty_lists(alloc, counts.as_slice())?;
    for at in 0..owners.len() {
        add(&mut dealt, owners[at] as usize, all[at])?;
    }
    Ok(dealt)
}

/// The list of a seat, which is left empty. Takes no memory.
pub(crate) fn take<T>(alloc: Global, lists: &mut Vec<Vec<T>>, seat: u32) -> Vec<T>
    requires { seat < length lists.old.items }
    ensures mine { result.items
        ≡ slice_index_or (map (λ v. v.items) lists.old.items) seat [] }
    ensures rest { map (λ v. v.items) lists.new.items
        ≡ slice_set (map (λ v. v.items) lists.old.items) seat [] }
{
    mem::replace(&mut lists[seat as usize], Vec::new(alloc))
}
