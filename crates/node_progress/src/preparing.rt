//! A node's state before the run.
ghost use Rattle.std.specs.Prelude.{◌≡◌, ◌<◌, length, IfOk, option_copied};
ghost use Rattle.pw_lists.specs.Limits.{quantum_limit};
ghost use Rattle.pw_graph.specs.SoundPlan.{IsSoundPlan};
ghost use Rattle.pw_graph.specs.SoundShape.{IsBetween};
ghost use Rattle.cycle_model.specs.WavesFit.{WavesFit};
ghost use Rattle.node_progress.specs.NodeStates.{IsNodeState};
ghost use Rattle.node_progress.specs.working.Preparing.{IsMostNamed, wav_of, IsPreparedNode};

use crate::frames::worked_cycles;
use crate::restarting::{fresh_in, restart_in};
use crate::run_model::RunModel;
use node_state::NodeState;
use pw_graph::Plan;
use pw_lists::{Items, Memory, QUANTUM_LIMIT};
use std::alloc::Global;
use wav_files::{Wav, WavIn};

// The greatest channels with which an epoch names the node as fresh, 0 where none does.
fn most_channels(plan: &Plan, node: u32) -> u32
    requires { IsSoundPlan plan.now }
    ensures { IsMostNamed plan.now node result }
{
    let mut most = 0;
    for epoch in plan.epochs.as_slice() {
        most = most.max(fresh_in(epoch, node).unwrap_or(0));
    }
    most
}

// The wave of the node, if it has one.
fn wave_of(waves: &Items<WavIn>, node: u32) -> Option<&Wav>
    ensures { option_copied result ≡ wav_of waves.now node }
{
    let waves = waves.as_slice();
    waves.iter().find(|w| w.node == node).map(|w| &w.wav)
}

// The frames in a quantum. A plan without an epoch may have any; a state has 1 to `QUANTUM_LIMIT`.
fn quantum_of(plan: &Plan) -> u32
    requires { IsSoundPlan plan.now }
    ensures range { IsBetween 1 quantum_limit result }
    ensures is { 0 < length plan.now.epochs → result ≡ plan.now.quantum }
{
    plan.quantum.clamp(1, QUANTUM_LIMIT)
}

// A state with all its memory, which has received nothing.
fn prepare_for_run(
    alloc: Global,
    run_model: &RunModel,
    plan: &Plan,
    waves: &Items<WavIn>,
    node: u32,
) -> Result<NodeState, Memory>
    requires plan_is { run_model.now.plan.value ≡ plan.now }
    requires waves_are { run_model.now.waves.value ≡ waves.now }
    requires sound { IsSoundPlan plan.now }
    requires fit { WavesFit plan.now waves.now }
    requires place { node < length plan.now.nodes }
    ensures { IfOk result (λ s. IsPreparedNode run_model.now node s) }
{
    let _ = run_model;
    let kind = &plan.nodes.as_slice()[node as usize].kind;
    let wave = wave_of(waves, node);
    let most = most_channels(plan, node);
    let quantum = quantum_of(plan);
    let frames = u64::from(quantum) * worked_cycles(plan, node);
    NodeState::prepare(alloc, kind, wave, most, quantum, frames)
}

// Its streams begun as the first epoch says.
fn begin_run(run_model: &RunModel, plan: &Plan, node: u32, state: &mut NodeState)
    requires plan_is { run_model.now.plan.value ≡ plan.now }
    requires sound { IsSoundPlan plan.now }
    requires state { IsPreparedNode run_model.now node state.old }
    ensures { IsNodeState run_model.now 0 0 node state.new }
{
    let _ = run_model;
    if let Some(channels) = restart_in(plan, 0, node) {
        state.restart(channels);
    }
}

/// The state of a node before the first cycle of the run, with all the memory that it needs in it:
/// for the cycles that it works, each a quantum of the greatest channels with which an epoch names
/// it as fresh. Its stream begins as the first epoch says.
///
/// Memory is answered only where an allocation was refused.
pub fn prepare_node(
    alloc: Global,
    run_model: &RunModel,
    plan: &Plan,
    waves: &Items<WavIn>,
    node: u32,
) -> Result<NodeState, Memory>
    requires plan_is { run_model.now.plan.value ≡ plan.now }
    requires waves_are { run_model.now.waves.value ≡ waves.now }
    requires sound { IsSoundPlan plan.now }
    requires fit { WavesFit plan.now waves.now }
    requires place { node < length plan.now.nodes }
    ensures { IfOk result (λ s. IsNodeState run_model.now 0 0 node s) }
{
    let mut state = prepare_for_run(alloc, run_model, plan, waves, node)?;
    begin_run(run_model, plan, node, &mut state);
    Ok(state)
}
