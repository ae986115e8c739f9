//! The queues of a plan's loops, and the way of each thread to them.
ghost use Rattle.std.specs.Prelude.{◌≡◌, ◌≤◌, ℕ, IfOk, Some, length, slice_get};
ghost use Rattle.pw_lists.specs.Limits.{nodes_limit};
ghost use Rattle.ready_queues.specs.declared.way.Way.{Way};
ghost use Rattle.ready_queues.specs.Lanes.{loops_limit};
ghost use Rattle.ready_queues.specs.Opening.{IsNewWay};
ghost use Rattle.graph_run.specs.Assignment.{owner_row};

use crate::assignment::owner_row;
use data_loop::{Way, Ways};
use pw_graph::Plan;
use pw_lists::{Items, Memory};
use std::alloc::Global;

/// The queues of a plan's loops, the way of the driver's thread, and those of the loops in their
/// order: a node's number is sent to the queue of the loop that the node belongs to. At most 63
/// nodes and 16 loops.
pub fn ways_of(alloc: Global, plan: &Plan, loops: u32) -> Result<(Ways, Way, Items<Way>), Memory>
    requires nodes { length plan.now.nodes ≤ nodes_limit }
    requires few { loops ≤ loops_limit }
    ensures owner { IfOk result (λ t. t.0.owner ≡ owner_row plan.now loops) }
    ensures loops { IfOk result (λ t. t.0.loops ≡ loops) }
    ensures driver { IfOk result (λ t. IsNewWay t.0 loops t.1) }
    ensures count { IfOk result (λ t. length t.2 ≡ loops) }
    ensures ways { IfOk result (λ t. (k : ℕ) (w : Way) → slice_get t.2 k ≡ Some w
        → IsNewWay t.0 k w) }
{
    let owner = owner_row(alloc, plan, loops)?;
    Ways::new(alloc, &owner, loops)
}
