//! One cycle of a node's state.
ghost use Rattle.std.specs.Prelude.{◌≡◌, suc, ◌+◌};
ghost use Rattle.node_state.specs.StandsFor.{IsSameNode, frames_so_far, node_quantum};
ghost use Rattle.node_progress.specs.Standing.{HasReceivedUntil, Gives};
ghost use Rattle.node_progress.specs.NodeCycles.{MayProcess};
ghost use Rattle.node_progress.specs.NodeStates.{IsNodeState, MayWork};

use crate::node_cycle::NodeCycle;
use crate::run_model::RunModel;
use node_state::NodeState;

// The state takes what its inputs get, and writes what its outputs give.
fn process(
    run_model: &RunModel,
    at: &NodeCycle<'_>,
    state: &mut NodeState,
    left: &mut [i16],
    right: &mut [i16],
)
    requires may { MayProcess run_model.now at.now.cycle at.now.node state.old at.now.a.now
        at.now.b.now left.old right.old }
    ensures left { Gives run_model.now at.now.cycle at.now.node 0 left.old left.new }
    ensures right { Gives run_model.now at.now.cycle at.now.node 1 right.old right.new }
    ensures received { HasReceivedUntil run_model.now (suc at.now.cycle) at.now.node state.new }
    ensures frames { frames_so_far state.new ≡ frames_so_far state.old + node_quantum state.old }
    ensures same { IsSameNode state.old state.new }
{
    let _ = run_model;
    state.process(at.a, at.b, left, right);
}

/// One cycle of the node in an epoch: its state takes what its inputs get, and writes what its
/// outputs give. An output whose row is empty is not computed. Takes no memory; one pass over the
/// rows.
pub fn work(
    run_model: &RunModel,
    at: &NodeCycle<'_>,
    state: &mut NodeState,
    left: &mut [i16],
    right: &mut [i16],
)
    requires may { MayWork run_model.now at.now.epoch at.now.cycle at.now.node state.old
        at.now.a.now at.now.b.now left.old right.old }
    ensures left { Gives run_model.now at.now.cycle at.now.node 0 left.old left.new }
    ensures right { Gives run_model.now at.now.cycle at.now.node 1 right.old right.new }
    ensures state { IsNodeState run_model.now at.now.epoch (suc at.now.cycle) at.now.node
        state.new }
{
    process(run_model, at, state, left, right);
}
