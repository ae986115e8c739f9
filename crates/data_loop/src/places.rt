//! Where each pool of an epoch is among those that the nodes of a loop fill.
ghost use Rattle.std.specs.Prelude.{◌≡◌, ◌<◌, ◌≤◌, IfOk, length, slice_index};
ghost use Rattle.std.specs.List.{position_or_len};
ghost use Rattle.pw_lists.specs.Limits.{links_limit};
ghost use Rattle.data_loop.specs.OwnPools.{is_among, is_own, own_pools, own_places};
ghost use Rattle.data_loop.specs.working.Places.{kept_places};

use pw_graph::PoolShape;
use pw_lists::{Items, Memory};
use std::alloc::Global;
use std::marker::Model;

/// Of each pool of an epoch its place among the loop's own; past their end where it is none of the
/// loop's. Takes no memory where one at most is the loop's own.
#[derive(Drop)]
pub(crate) struct Places {
    kept: Kept,
}

#[derive(Drop)]
enum Kept {
    /// The place of each pool.
    Row(Items<u16>),
    /// Of `pools` pools the one at `first` is at 0, and each other is past the end, at `count`.
    One { first: u16, count: u16, pools: u16 },
}

impl Model for Places {
    ghost use Rattle.std.specs.Prelude.{List, ℕ};

    ghost Value = { List ℕ };

    ghost use Rattle.data_loop.specs.working.Places.{kept_places};

    ghost view = { λ p. kept_places p.kept };
}

/// Whether a node is one of these.
pub(crate) fn is_among(nodes: &[u32], node: u32) -> bool
    ensures { result ≡ is_among nodes.now node }
{
    nodes.iter().any(|own| *own == node)
}

// The place of each pool: how many of the nodes' own are before it, or how many there are, which is
// `count`.
fn row_of(
    alloc: Global,
    nodes: &[u32],
    pools: &[PoolShape],
    count: u16,
) -> Result<Items<u16>, Memory>
    requires few { length pools.now ≤ links_limit }
    requires count { count ≡ length (own_pools nodes.now pools.now) }
    ensures { IfOk result (λ row. row ≡ own_places nodes.now pools.now) }
{
    let mut places = Items::filled(alloc, pools.len(), count)?.into_vec();
    let mut before = 0;
    for q in 0..pools.len() {
        if is_among(nodes, pools[q].port.node) {
            places[q] = before;
            before += 1;
        }
    }
    Ok(Items::from_vec(places))
}

// The first of the pools that one of the nodes fills, or how many pools there are.
fn first_own(nodes: &[u32], pools: &[PoolShape]) -> usize
    ensures { result ≡ position_or_len (is_own nodes.now) pools.now }
{
    pools
        .iter()
        .position(|pool| is_among(nodes, pool.port.node))
        .unwrap_or(pools.len())
}

// The same places where one pool at most is an own one.
fn one_of(nodes: &[u32], pools: &[PoolShape], count: u16) -> Kept
    requires few { length pools.now ≤ links_limit }
    requires count { count ≡ length (own_pools nodes.now pools.now) }
    requires one { count ≤ 1 }
    ensures { kept_places result ≡ own_places nodes.now pools.now }
{
    Kept::One {
        first: first_own(nodes, pools) as u16,
        count,
        pools: pools.len() as u16,
    }
}

impl Places {
    /// The places of the pools among those that the nodes fill, which are `count`.
    pub fn of(
        alloc: Global,
        nodes: &[u32],
        pools: &[PoolShape],
        count: u16,
    ) -> Result<Places, Memory>
        requires few { length pools.now ≤ links_limit }
        requires count { count ≡ length (own_pools nodes.now pools.now) }
        ensures { IfOk result (λ places. places ≡ own_places nodes.now pools.now) }
    {
        if count <= 1 {
            return Ok(Places {
                kept: one_of(nodes, pools, count),
            });
        }
        Ok(Places {
            kept: Kept::Row(row_of(alloc, nodes, pools, count)?),
        })
    }

    /// The place of a pool. Takes no memory.
    pub fn at(&self, pool: usize) -> usize
        requires { pool < length self.now }
        ensures { result ≡ slice_index self.now pool }
    {
        match &self.kept {
            Kept::Row(row) => usize::from(row.as_slice()[pool]),
            Kept::One { first, count, .. } => {
                if pool == usize::from(*first) {
                    0
                } else {
                    usize::from(*count)
                }
            }
        }
    }
}
