//! From epoch to epoch.
ghost use Rattle.std.specs.Prelude.{◌≡◌, ◌<◌, ◌+◌, ℕ, suc, length, IsTrue, ◌↔◌, slice_index, slice_index_or};
ghost use Rattle.atomic_table.specs.Seated.{TableId};
ghost use Rattle.board_rule.specs.Layout.{BoardLayout};
ghost use Rattle.node_state.specs.declared.node_state.NodeState.{NodeState};
ghost use Rattle.node_progress.specs.NodeStates.{IsNodeState};
ghost use Rattle.node_progress.specs.Restarts.{restart_of, next_first, IsEndOf};
ghost use Rattle.data_loop.specs.EpochStateParts.{restarts_in, restart_at};
ghost use Rattle.data_loop.specs.Loops.{IsBetweenEpochs, IsLoop, plan_of};
ghost use Rattle.data_loop.specs.LoopsOnBoards.{IsAtEnd, IsNextOf};

use crate::epoch_state::EpochState;
use crate::loop_state::LoopState;
use node_progress::{RunModel, enter_next};
use node_state::NodeState;

// With how many channels each node begins anew in an epoch; none after the last one.
fn restarts_in(epoch_states: &[EpochState], epoch: u32) -> &[Option<u32>]
    ensures { result.now ≡ restarts_in epoch_states.now epoch }
{
    match epoch_states.get(epoch as usize) {
        Some(epoch_state) => epoch_state.restarts.as_slice(),
        None => &[],
    }
}

// The states of all nodes go into the next epoch, with its restarts.
fn enter_all(
    run_model: &RunModel,
    epoch: u32,
    nodes: &[u32],
    states: &mut [NodeState],
    restarts: &[Option<u32>],
)
    requires count { length states.old ≡ length nodes.now }
    requires restarts { (j : ℕ) → j < length nodes.now → restart_at restarts.now j
        ≡ restart_of run_model.now.plan.value (suc epoch) (slice_index nodes.now j) }
    requires ended { (j : ℕ) → j < length nodes.now
        → IsEndOf run_model.now epoch (next_first run_model.now.plan.value epoch)
        (slice_index nodes.now j) }
    requires states { (j : ℕ) (d : NodeState) → j < length nodes.now
        → IsNodeState run_model.now epoch (next_first run_model.now.plan.value epoch)
        (slice_index nodes.now j) (slice_index_or states.old j d) }
    ensures states { (j : ℕ) (d : NodeState) → j < length nodes.now
        → IsNodeState run_model.now (suc epoch) (next_first run_model.now.plan.value epoch)
        (slice_index nodes.now j) (slice_index_or states.new j d) }
{
    for j in 0..nodes.len() {
        let restart = match restarts.get(j) {
            Some(restart) => *restart,
            None => None,
        };
        enter_next(run_model, epoch, nodes[j], &mut states[j], restart);
    }
}

impl LoopState {
    /// Into the next epoch, whose fresh nodes begin their streams anew. Condition: no follower has
    /// cycles left, and a driver that is one of the loop's nodes was run by `run_driver` in each
    /// cycle of the epoch. After the last epoch all are done. Takes no memory.
    pub fn next_epoch(&mut self)
        requires ended { (p : BoardLayout) × (t : TableId) × IsAtEnd p t self.old }
        ensures between { IsBetweenEpochs self.new }
        ensures next { self.new.epoch ≡ self.old.epoch + 1 }
        ensures same { IsNextOf self.old self.new }
        ensures woke { self.new.woke ≡ 0 }
    {
        let next = self.epoch + 1;
        enter_all(
            &self.run_model,
            self.epoch,
            self.nodes.as_slice(),
            self.states.as_mut_slice(),
            restarts_in(self.epoch_states.as_slice(), next),
        );
        self.epoch = next;
        self.led = 0;
        self.woke = 0;
    }

    /// Whether all epochs are done.
    pub fn at_end(&self) -> bool
        requires { IsLoop self.now }
        ensures { IsTrue result ↔ (self.now.epoch ≡ length (plan_of self.now).epochs) }
    {
        self.epoch as usize == self.epoch_states.len()
    }

    /// How many epochs are done: the number of the one that the loop is in.
    pub fn epoch(&self) -> u32
        ensures { result ≡ self.now.epoch }
    {
        self.epoch
    }
}
