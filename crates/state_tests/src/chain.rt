//! Three nodes in a row, a source, a node between and a sink that drives, through a plan whose
//! epochs have a cycle each: each node works only by the contracts of node_progress.
ghost use Rattle.std.specs.Prelude.{◌≡◌, ◌<◌, ◌*◌, List, ℤ, suc, true, length, map, find, count_by, false, option_copied, IfSome, IsTrue};
ghost use Rattle.pw_graph.specs.KindPorts.{input_count, output_count};
ghost use Rattle.pw_graph.specs.PlanForms.{kind_at};
ghost use Rattle.pw_graph.specs.PlanFresh.{IsEpoch};
ghost use Rattle.pw_graph.specs.Pools.{is_same_port};
ghost use Rattle.pw_lists.specs.Samples.{clamped, silence, summed};
ghost use Rattle.cycle_model.specs.Epochs.{channels_of};
ghost use Rattle.node_progress.specs.NodeStates.{IsNodeState, IsOutputRow};
ghost use Rattle.node_progress.specs.Standing.{receives, goes_out, Gives, works_in};
ghost use Rattle.state_tests.specs.Chain.{IsChain, IsCycleOf};

use cycle_model::waves_fit;
use graph_checks::is_sound_plan;
use node_progress::{NodeCycle, RunModel, enter_next, prepare_node, restart_in, work, works_in};
use node_state::NodeState;
use pw_graph::{Epoch, Plan, PortId, ShapeLink, is_same_port};
use pw_lists::Items;
use s16_mixer::{clamp_out, mix_into};
use std::alloc::Global;
use wav_files::WavIn;

/// The samples of a quantum at each port: two frames of one channel.
const WIDTH: usize = 2;

// The epoch, if it has one cycle, of its own number.
fn one_cycle(plan: &Plan, epoch: u32) -> Option<&Epoch>
    ensures { IfSome result (λ e. IsEpoch plan.now epoch e.now × (e.now.shape.first ≡ epoch)
        × (e.now.shape.cycles ≡ 1)) }
{
    let at = plan.epochs.as_slice().get(epoch as usize)?;
    if at.shape.first == epoch && at.shape.cycles == 1 {
        Some(at)
    } else {
        None
    }
}

// The channels of a port, 0 without a form.
fn channels_at(epoch: &Epoch, port: PortId) -> u32
    ensures { result ≡ channels_of epoch.now.forms port }
{
    let forms = epoch.forms.as_slice();
    let form = forms.iter().find(|form| is_same_port(form.port, port));
    form.map(|form| form.channels).unwrap_or(0)
}

// How many samples a port has in a quantum.
fn is_wide(plan: &Plan, epoch: &Epoch, port: PortId, n: usize) -> bool
    ensures { IsTrue result → n ≡ plan.now.quantum * channels_of epoch.now.forms port }
{
    let channels = channels_at(epoch, port) as usize;
    match (plan.quantum as usize).checked_mul(channels) {
        Some(wide) => wide == n,
        None => false,
    }
}

// The inputs of a node, and its outputs.
fn inputs_of(plan: &Plan, node: u32) -> u32
    ensures { result ≡ input_count (kind_at plan.now node) }
{
    match plan.nodes.as_slice().get(node as usize) {
        Some(known) => known.kind.inputs(),
        None => 0,
    }
}

fn outputs_of(plan: &Plan, node: u32) -> u32
    ensures { result ≡ output_count (kind_at plan.now node) }
{
    match plan.nodes.as_slice().get(node as usize) {
        Some(known) => known.kind.outputs(),
        None => 0,
    }
}

// Whether a row of `n` samples is one of the first output of a node, or is empty.
fn is_row(plan: &Plan, epoch: &Epoch, node: u32, n: usize) -> bool
    ensures { IsTrue result → (row : List ℤ) → length row ≡ n
        → IsOutputRow plan.now epoch.now node 0 row }
{
    if n == 0 {
        return true;
    }
    let output = PortId {
        node,
        port: inputs_of(plan, node),
    };
    outputs_of(plan, node) > 0 && is_wide(plan, epoch, output, n)
}

// How many links go into a port, and the first of them.
fn count_into(links: &[ShapeLink], port: PortId) -> usize
    ensures { result ≡ count_by (λ x. is_same_port x.to port) links.now }
{
    links.iter().filter(|x| is_same_port(x.to, port)).count()
}

fn first_into(links: &[ShapeLink], port: PortId) -> Option<&ShapeLink>
    ensures { option_copied result ≡ find (λ x. is_same_port x.to port) links.now }
{
    links.iter().find(|x| is_same_port(x.to, port))
}

// Whether a link goes from a port, and is not delayed.
fn is_from(link: &ShapeLink, port: PortId) -> bool
    ensures { IsTrue result → (link.now.from ≡ port) × (link.now.delayed ≡ false) }
{
    is_same_port(link.from, port) && !link.delayed
}

// Silence, as an input without a link gets it.
fn silent(to: &mut [i16]) -> bool
    ensures { IsTrue result → to.new ≡ map clamped (silence (length to.old)) }
{
    if to.len() != WIDTH {
        return false;
    }
    let sum = [0i32; WIDTH];
    clamp_out(sum.as_slice(), to);
    true
}

// One row, as an input with one link gets it.
fn alone(row: &[i16], to: &mut [i16]) -> bool
    ensures { IsTrue result → to.new ≡ map clamped (summed (silence (length to.old)) row.now) }
{
    if to.len() != WIDTH || row.len() != WIDTH {
        return false;
    }
    let mut sum = [0i32; WIDTH];
    mix_into(sum.as_mut_slice(), row);
    clamp_out(sum.as_slice(), to);
    true
}

// What the first input of a node receives, over no link or over one of the node `from`, which gave
// this row if it worked.
fn comes(
    run_model: &RunModel,
    plan: &Plan,
    at: &Epoch,
    epoch: u32,
    node: u32,
    from: u32,
    row: Option<&[i16]>,
    to: &mut [i16],
) -> bool
    requires cycle { IsCycleOf run_model.now plan.now epoch at.now }
    requires row { IfSome row (λ r. r.now ≡ goes_out run_model.now epoch from 0) }
    ensures { IsTrue result → to.new ≡ receives run_model.now epoch node 0 }
{
    let _ = run_model;
    let _ = epoch;
    let port = PortId { node, port: 0 };
    let output = PortId {
        node: from,
        port: inputs_of(plan, from),
    };
    let links = at.shape.links.as_slice();
    if inputs_of(plan, node) == 0
        || !is_wide(plan, at, port, to.len())
        || count_into(links, port) > 1
    {
        return false;
    }
    let Some(link) = first_into(links, port) else {
        return silent(to);
    };
    let Some(row) = row else {
        return false;
    };
    if !is_from(link, output) {
        return false;
    }
    alone(row, to)
}

// A node in its epoch: whether it works there; None where its rows are not such as the plan asks.
fn pass(
    run_model: &RunModel,
    plan: &Plan,
    at: &Epoch,
    epoch: u32,
    node: u32,
    state: &mut NodeState,
    a: &[i16],
    left: &mut [i16],
) -> Option<bool>
    requires cycle { IsCycleOf run_model.now plan.now epoch at.now }
    requires place { node < length run_model.now.plan.value.nodes }
    requires state { IsNodeState run_model.now epoch epoch node state.old }
    requires a { works_in at.now node ≡ true → a.now ≡ receives run_model.now epoch node 0 }
    ensures state { IfSome result
        (λ w. IsNodeState run_model.now epoch (suc epoch) node state.new) }
    ensures left { IfSome result
        (λ w. w ≡ true → Gives run_model.now epoch node 0 left.old left.new) }
{
    if !works_in(at, node) {
        return Some(false);
    }
    if inputs_of(plan, node) > 1 || !is_row(plan, at, node, left.len()) {
        return None;
    }
    let cycle = NodeCycle {
        epoch,
        cycle: epoch,
        node,
        a,
        b: &[],
    };
    work(run_model, &cycle, state, left, &mut []);
    Some(true)
}

// The same, and on into the next epoch.
fn step(
    run_model: &RunModel,
    plan: &Plan,
    at: &Epoch,
    epoch: u32,
    node: u32,
    state: &mut NodeState,
    a: &[i16],
    left: &mut [i16],
) -> Option<bool>
    requires cycle { IsCycleOf run_model.now plan.now epoch at.now }
    requires place { node < length run_model.now.plan.value.nodes }
    requires state { IsNodeState run_model.now epoch epoch node state.old }
    requires a { works_in at.now node ≡ true → a.now ≡ receives run_model.now epoch node 0 }
    ensures state { IfSome result
        (λ w. IsNodeState run_model.now (suc epoch) (suc epoch) node state.new) }
    ensures left { IfSome result
        (λ w. w ≡ true → Gives run_model.now epoch node 0 left.old left.new) }
{
    let next = epoch.checked_add(1)?;
    let worked = pass(run_model, plan, at, epoch, node, state, a, left)?;
    enter_next(run_model, epoch, node, state, restart_in(plan, next, node));
    Some(worked)
}

// A row that a node gave, if it did.
fn given(gave: bool, row: &[i16]) -> Option<&[i16]>
    ensures { IfSome result (λ r. (r.now ≡ row.now) × (gave ≡ true)) }
{
    if gave { Some(row) } else { None }
}

// A node without an input in its epoch.
fn begin(
    run_model: &RunModel,
    plan: &Plan,
    at: &Epoch,
    epoch: u32,
    node: u32,
    state: &mut NodeState,
    left: &mut [i16],
) -> Option<bool>
    requires cycle { IsCycleOf run_model.now plan.now epoch at.now }
    requires place { node < length run_model.now.plan.value.nodes }
    requires state { IsNodeState run_model.now epoch epoch node state.old }
    ensures state { IfSome result
        (λ w. IsNodeState run_model.now (suc epoch) (suc epoch) node state.new) }
    ensures left { IfSome result
        (λ w. w ≡ true → Gives run_model.now epoch node 0 left.old left.new) }
{
    if inputs_of(plan, node) > 0 {
        return None;
    }
    step(run_model, plan, at, epoch, node, state, &[], left)
}

// A node after the node `from`, which gave this row if it worked.
fn follow(
    run_model: &RunModel,
    plan: &Plan,
    at: &Epoch,
    epoch: u32,
    node: u32,
    from: u32,
    row: Option<&[i16]>,
    state: &mut NodeState,
    left: &mut [i16],
) -> Option<bool>
    requires cycle { IsCycleOf run_model.now plan.now epoch at.now }
    requires place { node < length run_model.now.plan.value.nodes }
    requires row { IfSome row (λ r. r.now ≡ goes_out run_model.now epoch from 0) }
    requires state { IsNodeState run_model.now epoch epoch node state.old }
    ensures state { IfSome result
        (λ w. IsNodeState run_model.now (suc epoch) (suc epoch) node state.new) }
    ensures left { IfSome result
        (λ w. w ≡ true → Gives run_model.now epoch node 0 left.old left.new) }
{
    let mut input = [0i16; WIDTH];
    let a = input.as_mut_slice();
    if works_in(at, node) && !comes(run_model, plan, at, epoch, node, from, row, a) {
        return None;
    }
    step(run_model, plan, at, epoch, node, state, a, left)
}

// The whole epoch.
fn through(
    run_model: &RunModel,
    plan: &Plan,
    epoch: u32,
    source: &mut NodeState,
    between: &mut NodeState,
    sink: &mut NodeState,
) -> bool
    requires chain { IsChain run_model.now plan.now }
    requires source { IsNodeState run_model.now epoch epoch 0 source.old }
    requires between { IsNodeState run_model.now epoch epoch 1 between.old }
    requires sink { IsNodeState run_model.now epoch epoch 2 sink.old }
    ensures source { IsTrue result
        → IsNodeState run_model.now (suc epoch) (suc epoch) 0 source.new }
    ensures between { IsTrue result
        → IsNodeState run_model.now (suc epoch) (suc epoch) 1 between.new }
    ensures sink { IsTrue result → IsNodeState run_model.now (suc epoch) (suc epoch) 2 sink.new }
{
    let Some(at) = one_cycle(plan, epoch) else {
        return false;
    };
    let mut first = [0i16; WIDTH];
    let mut second = [0i16; WIDTH];
    let Some(gave) = begin(run_model, plan, at, epoch, 0, source, first.as_mut_slice()) else {
        return false;
    };
    let row = given(gave, first.as_slice());
    let Some(gave) = follow(
        run_model,
        plan,
        at,
        epoch,
        1,
        0,
        row,
        between,
        second.as_mut_slice(),
    ) else {
        return false;
    };
    let row = given(gave, second.as_slice());
    follow(run_model, plan, at, epoch, 2, 1, row, sink, &mut []).is_some()
}

// `epochs` epochs, from the first one on.
fn through_all(
    run_model: &RunModel,
    plan: &Plan,
    epochs: u32,
    source: &mut NodeState,
    between: &mut NodeState,
    sink: &mut NodeState,
) -> bool
    requires chain { IsChain run_model.now plan.now }
    requires source { IsNodeState run_model.now 0 0 0 source.old }
    requires between { IsNodeState run_model.now 0 0 1 between.old }
    requires sink { IsNodeState run_model.now 0 0 2 sink.old }
{
    for epoch in 0..epochs {
        if !through(run_model, plan, epoch, source, between, sink) {
            return false;
        }
    }
    true
}

// The same from the plan's nodes on: whether the sink has kept these samples.
fn chain_keeps(
    alloc: Global,
    run_model: &RunModel,
    plan: &Plan,
    waves: &Items<WavIn>,
    epochs: u32,
    wanted: &[i16],
) -> bool
    requires chain { IsChain run_model.now plan.now }
    requires waves_are { run_model.now.waves.value ≡ waves.now }
{
    let Ok(mut source) = prepare_node(alloc, run_model, plan, waves, 0) else {
        return false;
    };
    let Ok(mut between) = prepare_node(alloc, run_model, plan, waves, 1) else {
        return false;
    };
    let Ok(mut sink) = prepare_node(alloc, run_model, plan, waves, 2) else {
        return false;
    };
    through_all(
        run_model,
        plan,
        epochs,
        &mut source,
        &mut between,
        &mut sink,
    ) && sink.kept() == wanted
}

/// Whether the sink keeps these samples after `epochs` epochs. False also where the plan is not
/// sound, its waves do not fit, or it has not three such nodes.
pub fn keeps(
    alloc: Global,
    plan: &Plan,
    waves: &Items<WavIn>,
    epochs: u32,
    wanted: &[i16],
) -> bool {
    if !is_sound_plan(plan) || plan.nodes.len() != 3 || !waves_fit(plan, waves) {
        return false;
    }
    let run_model = RunModel::of(plan, waves);
    chain_keeps(alloc, &run_model, plan, waves, epochs, wanted)
}
