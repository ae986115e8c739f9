//! A node's state from one epoch to the next.
ghost use Rattle.std.specs.Prelude.{◌≡◌, ◌==◌, suc, option_map, find};
ghost use Rattle.node_progress.specs.NodeStates.{IsNodeState};
ghost use Rattle.node_progress.specs.Restarts.{restart_of, next_first, IsEndOf};

use crate::run_model::RunModel;
use node_state::NodeState;
use pw_graph::{Epoch, Plan};

// The channels with which the epoch names the node as fresh.
pub(crate) fn fresh_in(epoch: &Epoch, node: u32) -> Option<u32>
    ensures { result
        ≡ option_map (λ f. f.channels) (find (λ f. f.node == node) epoch.now.fresh) }
{
    let fresh = epoch.fresh.as_slice();
    fresh.iter().find(|f| f.node == node).map(|f| f.channels)
}

/// The channels with which an epoch begins the node's streams anew; None where it does not, or
/// where the plan has no such epoch. Takes no memory; a look at what the epoch names as fresh.
pub fn restart_in(plan: &Plan, epoch: u32, node: u32) -> Option<u32>
    ensures { result ≡ restart_of plan.now epoch node }
{
    match plan.epochs.as_slice().get(epoch as usize) {
        Some(epoch) => fresh_in(epoch, node),
        None => None,
    }
}

/// The state of a node that has done all cycles of the epoch `epoch` goes into the next one: where
/// that epoch names the node as fresh, its stream begins anew with `restart` channels. Takes no
/// memory; a delay writes its line over with zeros.
pub fn enter_next(
    run_model: &RunModel,
    epoch: u32,
    node: u32,
    state: &mut NodeState,
    restart: Option<u32>,
)
    requires ended { IsEndOf run_model.now epoch (next_first run_model.now.plan.value epoch) node }
    requires state { IsNodeState run_model.now epoch
        (next_first run_model.now.plan.value epoch) node state.old }
    requires restart { restart ≡ restart_of run_model.now.plan.value (suc epoch) node }
    ensures state { IsNodeState run_model.now (suc epoch)
        (next_first run_model.now.plan.value epoch) node state.new }
{
    let _ = run_model;
    let _ = (epoch, node);
    match restart {
        Some(channels) => state.restart(channels),
        None => (),
    }
}
