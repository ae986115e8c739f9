//! What the sinks and meters of a plan have kept.
ghost use Rattle.std.specs.Prelude.{◌≡◌, ◌<◌, ◌≤◌, ◌+◌, ◌++◌, ℕ, suc, [], List, Some, length, option_to_list, slice_get};
ghost use Rattle.pw_lists.specs.Limits.{dummy_node};
ghost use Rattle.wav_files.specs.declared.wav.WavIn.{WavIn};
ghost use Rattle.cycle_model.specs.Rendering.{kept_of, peak_at, rendered_sinks, rendered_peaks};
ghost use Rattle.graph_run.specs.Outcomes.{HasNodeAt, HaveAll, AreDone, AreLeftFrom};

use data_loop::LoopState;
use pw_graph::{Kind, Plan, PlanNode, is_sink};
use pw_lists::{Items, Room};
use std::alloc::Global;
use wav_files::{Kept, Peak, Wav};

/// What the loops of a run have kept after its last epoch.
#[derive(Drop)]
pub(crate) struct KeptOf {
    pub sinks: Items<Kept>,
    pub peaks: Items<Peak>,
}

// The loop that has a node.
fn loop_with_node(loops: &[LoopState], node: u32) -> usize
    requires there { (i : ℕ) × HasNodeAt loops.now node i }
    ensures has { HasNodeAt loops.now node result }
{
    for index in 0..loops.len() {
        if loops[index].has_node(node) {
            return index;
        }
    }
    0
}

// What a sink with a format has kept, moved out of its loop; any other node has nothing.
fn take_sink(
    alloc: Global,
    place: u32,
    node: &PlanNode,
    plan: &Plan,
    loops: &mut [LoopState],
) -> Option<Kept>
    requires all { HaveAll plan.now loops.old }
    requires node { slice_get plan.now.nodes place ≡ Some node.now }
    ensures all { HaveAll plan.now loops.new }
    ensures kept { (waves : List WavIn) → AreLeftFrom place waves loops.old
        → result ≡ kept_of plan.now waves (place, node.now) }
    ensures left { (waves : List WavIn) → AreLeftFrom place waves loops.old
        → AreLeftFrom (suc place) waves loops.new }
{
    let _ = plan;
    if !is_sink(&node.kind) || node.rate == 0 {
        return None;
    }
    let samples = loops[loop_with_node(loops, place)].take_kept(alloc, place);
    Some(Kept {
        node: place,
        wav: Wav {
            rate: node.rate,
            channels: node.channels,
            samples,
        },
    })
}

// The peak of a meter with a format; any other node has none.
fn peak_by(place: u32, node: &PlanNode, plan: &Plan, loops: &[LoopState]) -> Option<Peak>
    requires all { HaveAll plan.now loops.now }
    requires node { slice_get plan.now.nodes place ≡ Some node.now }
    ensures { (waves : List WavIn) → AreDone plan.now waves loops.now
        → result ≡ peak_at plan.now waves (place, node.now) }
{
    let _ = plan;
    if !matches!(node.kind, Kind::Meter) || node.rate == 0 {
        return None;
    }
    Some(Peak {
        node: place,
        value: loops[loop_with_node(loops, place)].greatest(place),
    })
}

// Appends what there is, if there is anything.
fn push_some<T: Drop>(list: &mut Room<T>, item: Option<T>)
    requires { 0 < list.old.spare }
    ensures list { list.new.list ≡ list.old.list ++ option_to_list item }
    ensures spare { list.old.spare ≤ list.new.spare + 1 }
{
    if let Some(item) = item {
        list.push_spare(item);
    }
}

// The peaks of the meters that have a format, ascending by node. The list is empty, and has room
// for all nodes.
fn peaks_of(plan: &Plan, loops: &[LoopState], peaks: Room<Peak>) -> Items<Peak>
    requires done { (waves : List WavIn) × AreDone plan.now waves loops.now }
    requires few { length plan.now.nodes ≤ dummy_node }
    requires empty { peaks.list ≡ [] }
    requires room { length plan.now.nodes ≤ peaks.spare }
    ensures { (waves : List WavIn) → AreDone plan.now waves loops.now
        → result ≡ rendered_peaks plan.now waves }
{
    let nodes = plan.nodes.as_slice();
    let mut peaks = peaks;
    for place in 0..nodes.len() {
        push_some(
            &mut peaks,
            peak_by(place as u32, &nodes[place], plan, loops),
        );
    }
    peaks.into_items()
}

// The streams of the sinks that have a format, ascending by node, moved out of the loops. The list
// is empty, and has room for all nodes.
fn take_sinks(alloc: Global, plan: &Plan, loops: &mut [LoopState], sinks: Room<Kept>) -> Items<Kept>
    requires done { (waves : List WavIn) × AreDone plan.now waves loops.old }
    requires few { length plan.now.nodes ≤ dummy_node }
    requires empty { sinks.list ≡ [] }
    requires room { length plan.now.nodes ≤ sinks.spare }
    ensures { (waves : List WavIn) → AreDone plan.now waves loops.old
        → result ≡ rendered_sinks plan.now waves }
{
    let nodes = plan.nodes.as_slice();
    let mut sinks = sinks;
    for place in 0..nodes.len() {
        let kept = take_sink(alloc, place as u32, &nodes[place], plan, loops);
        push_some(&mut sinks, kept);
    }
    sinks.into_items()
}

/// The streams of the sinks, moved out of the loops, and the peaks of the meters, each ascending by
/// node. Both lists are empty, and have room for all nodes. Takes no memory.
pub(crate) fn take_kept(
    alloc: Global,
    plan: &Plan,
    loops: &mut [LoopState],
    sinks: Room<Kept>,
    peaks: Room<Peak>,
) -> KeptOf
    requires done { (waves : List WavIn) × AreDone plan.now waves loops.old }
    requires few { length plan.now.nodes ≤ dummy_node }
    requires empty { (sinks.list ≡ []) × (peaks.list ≡ []) }
    requires sinks { length plan.now.nodes ≤ sinks.spare }
    requires peaks { length plan.now.nodes ≤ peaks.spare }
    ensures sinks { (waves : List WavIn) → AreDone plan.now waves loops.old
        → result.sinks ≡ rendered_sinks plan.now waves }
    ensures peaks { (waves : List WavIn) → AreDone plan.now waves loops.old
        → result.peaks ≡ rendered_peaks plan.now waves }
{
    let peaks = peaks_of(plan, loops, peaks);
    let sinks = take_sinks(alloc, plan, loops, sinks);
    KeptOf { sinks, peaks }
}
