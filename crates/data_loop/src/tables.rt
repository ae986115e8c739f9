//! The tries of a loop's last turn, as a list that is lent.
//!
//! A vector that is filled anew in each turn is no `Items`, and an `Items` that grows may ask for
//! memory: so of each length there is one list, made before.
ghost use Rattle.std.specs.Prelude.{◌≡◌, ◌+◌, ◌<◌, ◌≤◌, [], IfOk, length, slice_index_or, vec_capacity};
ghost use Rattle.pw_lists.specs.Limits.{nodes_limit};
ghost use Rattle.data_loop.specs.Tables.{AreTables};

use pw_lists::{Items, Memory};
use std::alloc::Global;

/// Lists of the lengths 0 to `most`.
pub(crate) fn tables_of(alloc: Global, most: usize) -> Result<Items<Items<(u32, u64)>>, Memory>
    requires few { most ≤ nodes_limit }
    ensures tables { IfOk result AreTables }
    ensures count { IfOk result (λ tables. length tables ≡ most + 1) }
{
    let mut tables = Items::new(alloc);
    for n in 0..most + 1 {
        tables.push(Items::filled(alloc, n, (0, 0))?)?;
    }
    Ok(tables)
}

/// Writes the tries into the list that is as long as they are many. Takes no memory.
pub(crate) fn tell(tables: &mut Items<Items<(u32, u64)>>, found: &[(u32, u64)])
    requires tables { AreTables tables.old }
    requires inside { length found.now < length tables.old }
    ensures tables { AreTables tables.new }
    ensures count { length tables.new ≡ length tables.old }
    ensures told { slice_index_or tables.new (length found.now) [] ≡ found.now }
{
    let table = &mut tables.as_mut_slice()[found.len()];
    table.as_mut_slice().copy_from_slice(found);
}

/// Room for `most` tries.
pub(crate) fn room_for(alloc: Global, most: usize) -> Result<Vec<(u32, u64)>, Memory>
    ensures empty { IfOk result (λ found. found.items ≡ []) }
    ensures room { IfOk result (λ found. most ≤ vec_capacity found) }
{
    match Vec::with_capacity(alloc, most) {
        Ok(found) => Ok(found),
        Err(_refused) => Err(Memory),
    }
}
