//! Several parts as one: each node as its own part ends it, and what all sinks and meters have.
ghost use Rattle.std.specs.Prelude.{◌≡◌, ◌≢◌, ◌==◌, ◌++◌, ℕ, [], find, filter_map, option_copied, IfOk, OnOk};
ghost use Rattle.std.specs.List.{position, range_with_len};
ghost use Rattle.graph_plan.specs.Parts.{is_among};
ghost use Rattle.pw_top.specs.Joined.{node_in, joined_plan, all_of, kept_at, peak_at, in_order};

use graph_plan::copy_node;
use pw_graph::{Part, Parts, Plan, PlanNode};
use pw_lists::{Items, Memory};
use std::alloc::Global;
use wav_files::{Kept, Outcome, Peak};

// Whether a part has a node.
fn has_node(part: &Part, node: u32) -> bool
    ensures { result ≡ is_among part.now.nodes node }
{
    part.nodes.as_slice().iter().any(|n| *n == node)
}

// The part that has a node.
fn part_with(parts: &[Part], node: u32) -> Option<&Part>
    ensures { option_copied result ≡ find (λ part. is_among part.nodes node) parts.now }
{
    parts.iter().find(|part| has_node(part, node))
}

// A node as the part that has it ends it.
fn node_in(parts: &[Part], node: u32) -> Option<&PlanNode>
    ensures { option_copied result ≡ node_in parts.now node }
{
    match part_with(parts, node) {
        Some(part) => part.plan.nodes.as_slice().get(node as usize),
        None => None,
    }
}

// The nodes of all parts, each as its own part ends it.
fn nodes_in(alloc: Global, parts: &[Part], count: u32) -> Result<Items<PlanNode>, Memory>
    ensures { IfOk result
        (λ nodes. nodes ≡ filter_map (node_in parts.now) (range_with_len 0 count)) }
{
    let mut nodes = Items::new(alloc);
    for node in 0..count {
        if let Some(found) = node_in(parts, node) {
            nodes.push(copy_node(alloc, found)?)?;
        }
    }
    Ok(nodes)
}

/// What the text of all parts is read off: the `count` nodes of a script, each as its own part
/// ends it, and what its lines did.
pub fn joined_plan(alloc: Global, parts: &Parts, count: u32) -> Result<Plan, Memory>
    ensures { IfOk result (λ plan. plan ≡ joined_plan count parts.now) }
{
    let nodes = nodes_in(alloc, parts.parts.as_slice(), count)?;
    let lines = parts.lines.copy(alloc)?;
    Ok(Plan {
        quantum: 0,
        nodes,
        epochs: Items::new(alloc),
        lines,
    })
}

// Appends what sinks have kept.
fn add_kept(all: &mut Items<Kept>, more: Items<Kept>) -> Result<(), Memory>
    ensures { OnOk result (all.new ≡ all.old ++ more) }
{
    for kept in more.into_vec() {
        all.push(kept)?;
    }
    Ok(())
}

// Appends what a run has left.
fn add_outcome(all: &mut Outcome, more: Outcome) -> Result<(), Memory>
    ensures history { OnOk result (all.new.history ≡ all.old.history ++ more.history) }
    ensures sinks { OnOk result (all.new.sinks ≡ all.old.sinks ++ more.sinks) }
    ensures peaks { OnOk result (all.new.peaks ≡ all.old.peaks ++ more.peaks) }
{
    let Outcome {
        history,
        sinks,
        peaks,
    } = more;
    all.history.extend(history.as_slice())?;
    all.peaks.extend(peaks.as_slice())?;
    add_kept(&mut all.sinks, sinks)
}

/// What several runs have left, one after the other.
pub fn all_of(alloc: Global, outcomes: Items<Outcome>) -> Result<Outcome, Memory>
    ensures { IfOk result (λ all. all ≡ all_of outcomes) }
{
    let mut all = Outcome {
        history: Items::new(alloc),
        sinks: Items::new(alloc),
        peaks: Items::new(alloc),
    };
    for outcome in outcomes.into_vec() {
        add_outcome(&mut all, outcome)?;
    }
    Ok(all)
}

// The place of what a sink has kept.
fn kept_place(sinks: &[Kept], node: u32) -> Option<usize>
    ensures { result ≡ position (λ k. k.node == node) sinks.now }
{
    sinks.iter().position(|kept| kept.node == node)
}

// Takes out what a sink has kept.
fn take_kept(all: &mut Vec<Kept>, node: u32) -> Option<Kept>
    ensures is { result ≡ kept_at all.old.items node }
    ensures others { (n : ℕ) → n ≢ node
        → kept_at all.new.items n ≡ kept_at all.old.items n }
{
    match kept_place(all.as_slice(), node) {
        Some(place) => Some(all.remove(place)),
        None => None,
    }
}

// What sinks have kept, ascending by node.
fn kept_in_order(alloc: Global, sinks: Items<Kept>, count: u32) -> Result<Items<Kept>, Memory>
    ensures { IfOk result
        (λ kept. kept ≡ filter_map (kept_at sinks) (range_with_len 0 count)) }
{
    let mut left = sinks.into_vec();
    let mut ordered = Items::new(alloc);
    for node in 0..count {
        if let Some(kept) = take_kept(&mut left, node) {
            ordered.push(kept)?;
        }
    }
    Ok(ordered)
}

// The peak of a meter.
fn peak_at(peaks: &[Peak], node: u32) -> Option<&Peak>
    ensures { option_copied result ≡ peak_at peaks.now node }
{
    peaks.iter().find(|peak| peak.node == node)
}

// The peaks of meters, ascending by node.
fn peaks_in_order(alloc: Global, peaks: &[Peak], count: u32) -> Result<Items<Peak>, Memory>
    ensures { IfOk result
        (λ ordered. ordered ≡ filter_map (peak_at peaks.now) (range_with_len 0 count)) }
{
    let mut ordered = Items::new(alloc);
    for node in 0..count {
        if let Some(peak) = peak_at(peaks, node) {
            ordered.push(*peak)?;
        }
    }
    Ok(ordered)
}

/// What the sinks and meters of a script with `count` nodes have, ascending by node, and no
/// history.
pub fn in_order(
    alloc: Global,
    sinks: Items<Kept>,
    peaks: &[Peak],
    count: u32,
) -> Result<Outcome, Memory>
    ensures { IfOk result (λ ordered. ordered
        ≡ in_order count (record { history = []; sinks = sinks; peaks = peaks.now })) }
{
    let sinks = kept_in_order(alloc, sinks, count)?;
    let peaks = peaks_in_order(alloc, peaks, count)?;
    Ok(Outcome {
        history: Items::new(alloc),
        sinks,
        peaks,
    })
}
