//! One loop of a run.
ghost use Rattle.std.specs.Prelude.{◌≡◌, ◌<◌, AllPairs, All, IfOk, length, map};
ghost use Rattle.pw_graph.specs.SoundPlan.{IsSoundPlan};
ghost use Rattle.cycle_model.specs.WavesFit.{WavesFit};
ghost use Rattle.data_loop.specs.EpochStateParts.{AreFirstEpochStates};
ghost use Rattle.data_loop.specs.Loops.{IsBetweenEpochs};
ghost use Rattle.data_loop.specs.LoopStart.{AreFirstStates, IsLoopOf};
ghost use Rattle.data_loop.specs.PlanPools.{pools_in};

use crate::dealing::links_in;
use crate::draft::LoopDraft;
use crate::epoch_state::EpochState;
use crate::plan_pools::pools_in;
use crate::rooms::{rows_of, widest_of};
use crate::rows::Rows;
use crate::tables::{room_for, tables_of};
use board_rule::LoopSeat;
use node_progress::{RunModel, prepare_node};
use node_state::NodeState;
use pw_graph::{Plan, PoolShape};
use pw_lists::{Items, Memory};
use std::alloc::Global;
use wav_files::WavIn;

/// The nodes of one loop with their states, and what it has in each epoch of the plan: its seat on
/// the epoch's board, its followers there, and the free blocks of the pools.
///
/// It goes through the epochs in their order. On the board of one, each `turn` runs one follower;
/// `next_epoch` leads to the next.
pub struct LoopState {
    pub(crate) run_model: RunModel,
    pub(crate) nodes: Items<u32>,
    pub(crate) states: Vec<NodeState>,
    pub(crate) epoch_states: Vec<EpochState>,
    pub(crate) rows: Rows,
    pub(crate) found: Vec<(u32, u64)>,
    pub(crate) tables: Items<Items<(u32, u64)>>,
    pub(crate) epoch: u32,
    // In how many cycles of this epoch `run_driver` ran its driver.
    pub(crate) led: u32,
    // The bits of the nodes that the last turn woke.
    pub(crate) woke: u64,
}

// One step at each early exit above, where the fields would be as many.
impl Drop for LoopState {
    fn drop(self) {
        let LoopState {
            run_model: _,
            nodes: _,
            states: _,
            epoch_states: _,
            rows: _,
            found: _,
            tables: _,
            epoch: _,
            led: _,
            woke: _,
        } = self;
    }
}

// The states of the nodes before the first cycle of the run.
fn states_of(
    alloc: Global,
    run_model: &RunModel,
    plan: &Plan,
    waves: &Items<WavIn>,
    nodes: &[u32],
) -> Result<Items<NodeState>, Memory>
    requires plan_is { run_model.now.plan.value ≡ plan.now }
    requires waves_are { run_model.now.waves.value ≡ waves.now }
    requires sound { IsSoundPlan plan.now }
    requires fit { WavesFit plan.now waves.now }
    requires places { All (λ n. n < length plan.now.nodes) nodes.now }
    ensures { IfOk result (AreFirstStates run_model.now nodes.now) }
{
    let mut states = Items::new(alloc);
    for node in nodes {
        states.push(prepare_node(alloc, run_model, plan, waves, *node)?)?;
    }
    Ok(states)
}

impl LoopState {
    /// The loop of these nodes, before the first epoch. `nodes` are places of the plan's nodes,
    /// ascending, no node twice. `seats` has one seat an epoch, in order; after `Memory` they are
    /// dropped. From then on no call takes memory.
    pub fn new(
        alloc: Global,
        plan: &Plan,
        waves: &Items<WavIn>,
        nodes: &Items<u32>,
        seats: Items<LoopSeat>,
    ) -> Result<LoopState, Memory>
        requires sound { IsSoundPlan plan.now }
        requires waves { WavesFit plan.now waves.now }
        requires nodes { AllPairs (λ m n. m < n) nodes.now }
        requires places { All (λ n. n < length plan.now.nodes) nodes.now }
        requires seats { length seats ≡ length plan.now.epochs }
        ensures between { IfOk result IsBetweenEpochs }
        ensures of { IfOk result (IsLoopOf plan.now waves.now nodes.now seats) }
        ensures woke { IfOk result (λ s. s.woke ≡ 0) }
    {
        let pools = pools_in(alloc, plan)?;
        LoopState::with_pools(alloc, plan, waves, nodes, pools.as_slice(), seats)
    }

    /// As `new`, with the pools of each epoch, which all loops of a run have: so they are made once.
    pub fn with_pools(
        alloc: Global,
        plan: &Plan,
        waves: &Items<WavIn>,
        nodes: &Items<u32>,
        pools: &[Items<PoolShape>],
        seats: Items<LoopSeat>,
    ) -> Result<LoopState, Memory>
        requires sound { IsSoundPlan plan.now }
        requires waves { WavesFit plan.now waves.now }
        requires nodes { AllPairs (λ m n. m < n) nodes.now }
        requires places { All (λ n. n < length plan.now.nodes) nodes.now }
        requires pools { pools.now ≡ pools_in plan.now }
        requires seats { length seats ≡ length plan.now.epochs }
        ensures between { IfOk result IsBetweenEpochs }
        ensures of { IfOk result (IsLoopOf plan.now waves.now nodes.now seats) }
        ensures woke { IfOk result (λ s. s.woke ≡ 0) }
    {
        let mut draft = LoopDraft::new(alloc, nodes.copy(alloc)?, seats)?;
        for epoch in 0..plan.epochs.len() {
            let links = links_in(alloc, plan, epoch)?;
            draft.add_epoch(alloc, plan, pools, &links)?;
        }
        draft.finish(alloc, plan, waves)
    }

    // The loop of these nodes, with what it has in each epoch.
    pub(crate) fn of_epochs(
        alloc: Global,
        plan: &Plan,
        waves: &Items<WavIn>,
        nodes: Items<u32>,
        epoch_states: Items<EpochState>,
    ) -> Result<LoopState, Memory>
        requires sound { IsSoundPlan plan.now }
        requires waves { WavesFit plan.now waves.now }
        requires nodes { AllPairs (λ m n. m < n) nodes }
        requires places { All (λ n. n < length plan.now.nodes) nodes }
        requires made { AreFirstEpochStates plan.now nodes
            (map (λ g. g.seat) epoch_states) epoch_states }
        requires count { length epoch_states ≡ length plan.now.epochs }
        ensures between { IfOk result IsBetweenEpochs }
        ensures of { IfOk result (IsLoopOf plan.now waves.now nodes
            (map (λ g. g.seat) epoch_states)) }
        ensures woke { IfOk result (λ s. s.woke ≡ 0) }
    {
        let run_model = RunModel::of(plan, waves);
        let states = states_of(alloc, &run_model, plan, waves, nodes.as_slice())?;
        let rows = rows_of(alloc, widest_of(epoch_states.as_slice()))?;
        let found = room_for(alloc, nodes.len())?;
        let tables = tables_of(alloc, nodes.len())?;
        Ok(LoopState {
            run_model,
            nodes,
            states: states.into_vec(),
            epoch_states: epoch_states.into_vec(),
            rows,
            found,
            tables,
            epoch: 0,
            led: 0,
            woke: 0,
        })
    }
}
