//! The pools of each epoch of a plan.
ghost use Rattle.std.specs.Prelude.{◌≡◌, IfOk};
ghost use Rattle.pw_graph.specs.SoundPlan.{IsSoundPlan};
ghost use Rattle.data_loop.specs.PlanPools.{pools_in};

use pw_graph::{Plan, PoolShape, pools_of};
use pw_lists::{Items, Memory};
use std::alloc::Global;

/// The pools of each epoch of a plan, in the order of the epochs, for `LoopState::with_pools`: all
/// loops of a run have the same.
///
/// Memory: for each epoch its pools.
pub fn pools_in(alloc: Global, plan: &Plan) -> Result<Items<Items<PoolShape>>, Memory>
    requires { IsSoundPlan plan.now }
    ensures { IfOk result (λ pools. pools ≡ pools_in plan.now) }
{
    let mut pools = Items::new(alloc);
    pools.reserve(plan.epochs.len())?;
    for epoch in plan.epochs.as_slice() {
        pools.push(pools_of(alloc, &epoch.shape)?)?;
    }
    Ok(pools)
}
