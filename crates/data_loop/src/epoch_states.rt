//! What a loop has in an epoch, made before the first one begins.
ghost use Rattle.std.specs.Prelude.{◌≡◌, ◌<◌, ◌≤◌, ◌^◌, IfOk, length, map};
ghost use Rattle.pw_lists.specs.Limits.{nodes_limit};
ghost use Rattle.pw_graph.specs.SoundPlan.{IsSoundPlan};
ghost use Rattle.node_progress.specs.Restarts.{restart_of};
ghost use Rattle.data_loop.specs.Dealt.{AreLinksIn};
ghost use Rattle.data_loop.specs.PlanPools.{pools_in};
ghost use Rattle.data_loop.specs.EpochStateParts.{IsFirstEpochState};

use crate::dealing::DealtLinks;
use crate::epoch_state::EpochState;
use crate::guesses::guesses_of;
use crate::members::members_by;
use crate::own_pools::pools_among;
use crate::progress::Progress;
use board_rule::LoopSeat;
use node_progress::restart_in;
use pw_graph::{Plan, PoolShape};
use pw_lists::{Items, Memory};
use std::alloc::Global;

// With how many channels the epoch begins each of the nodes anew, none where it does not.
fn restarts_of(
    alloc: Global,
    plan: &Plan,
    epoch: usize,
    nodes: &[u32],
) -> Result<Items<Option<u32>>, Memory>
    requires few { epoch < 2 ^ 32 }
    ensures { IfOk result
        (λ restarts. restarts ≡ map (restart_of plan.now epoch) nodes.now) }
{
    let mut restarts = Items::new(alloc);
    restarts.reserve(nodes.len())?;
    for node in nodes {
        restarts.push(restart_in(plan, epoch as u32, *node))?;
    }
    Ok(restarts)
}

/// What the loop of these nodes has in an epoch, with its seat there. `pools` are those of each
/// epoch, `links` those of this one.
pub(crate) fn epoch_state_of(
    alloc: Global,
    plan: &Plan,
    nodes: &[u32],
    epoch: usize,
    pools: &[Items<PoolShape>],
    links: &DealtLinks,
    seat: LoopSeat,
) -> Result<EpochState, Memory>
    requires sound { IsSoundPlan plan.now }
    requires inside { epoch < length plan.now.epochs }
    requires few { length nodes.now ≤ nodes_limit }
    requires pools { pools.now ≡ pools_in plan.now }
    requires links { AreLinksIn plan.now epoch links.now }
    ensures { IfOk result (IsFirstEpochState plan.now nodes.now epoch seat) }
{
    let restarts = restarts_of(alloc, plan, epoch, nodes)?;
    let pools = pools[epoch].as_slice();
    let epoch = &plan.epochs.as_slice()[epoch];
    let dealt = links.inputs.as_slice();
    let members = members_by(alloc, plan, epoch, pools, dealt, nodes, false)?;
    let guesses = guesses_of(alloc, members.as_slice())?;
    let driver = members_by(alloc, plan, epoch, pools, dealt, nodes, true)?;
    let own = pools_among(alloc, &epoch.shape, nodes, pools)?;
    Ok(EpochState {
        seat,
        members,
        guesses,
        driver,
        restarts,
        own,
        progress: Progress { least: 0, from: 0 },
    })
}
