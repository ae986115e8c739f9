//! Which loop each node belongs to.
ghost use Rattle.std.specs.Prelude.{◌≡◌, ◌≤◌, IfOk, length};
ghost use Rattle.pw_lists.specs.Limits.{nodes_limit};
ghost use Rattle.graph_run.specs.Assignment.{drives_somewhere, loop_of, owner_row};

use pw_graph::Plan;
use pw_lists::{Items, Memory};
use std::alloc::Global;

// Whether a node drives in some epoch.
pub(crate) fn drives_somewhere(plan: &Plan, node: u32) -> bool
    ensures { result ≡ drives_somewhere plan.now node }
{
    plan.epochs
        .as_slice()
        .iter()
        .any(|epoch| epoch.shape.driver == node)
}

/// The loop of a node, of `loops` loops that are numbered from 0. The number `loops` is the driver
/// thread's own loop. It has every node that ever drives, and all nodes if there is no other loop.
/// Each other node belongs to the loop of its number `k`, modulo `loops`.
///
/// Takes no memory; one pass over the epochs.
pub fn loop_of(plan: &Plan, loops: u32, node: u32) -> u32
    ensures is { result ≡ loop_of plan.now loops node }
    ensures most { result ≤ loops }
{
    if loops == 0 || drives_somewhere(plan, node) {
        return loops;
    }
    match plan.nodes.as_slice().get(node as usize) {
        Some(node) => node.k % loops,
        None => 0,
    }
}

// The loop of each node of the plan.
pub(crate) fn owner_row(alloc: Global, plan: &Plan, loops: u32) -> Result<Items<u32>, Memory>
    requires few { length plan.now.nodes ≤ nodes_limit }
    ensures { IfOk result (λ row. row ≡ owner_row plan.now loops) }
{
    let mut row = Items::new(alloc);
    for node in 0..plan.nodes.len() {
        row.push(loop_of(plan, loops, node as u32))?;
    }
    Ok(row)
}
