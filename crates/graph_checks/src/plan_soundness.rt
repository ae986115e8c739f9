//! Whether a plan is sound.
ghost use Rattle.std.specs.Prelude.{◌≡◌, ℕ, ◌<◌, ◌≤◌, IsTrue, ◌↔◌, All, length};
ghost use Rattle.pw_graph.specs.SoundPlan.{FollowFrom, IsSoundNode, HasSoundPlaces, EndsWith, IsSoundEpoch, IsSoundPlan};
ghost use Rattle.graph_checks.specs.working.FormChecks.{IsPlace, HasSoundDummy, HasSoundDriver, IsEnded};

use crate::dependencies::has_node;
use crate::kind_ranges::{is_channels, is_in_range, is_rate, is_sink_or_meter};
use crate::plan_forms::{has_sound_forms, is_sink_or_meter_at};
use crate::plan_fresh::has_sound_fresh;
use crate::plan_sums::{has_few_bytes, has_few_events, has_few_samples};
use crate::pooled_shapes::is_pooled_shape;
use pw_graph::{DUMMY, Epoch, Plan, PlanNode, PortForm, ShapeNode, is_sink};

// Whether the epochs follow one another, from cycle 0 on.
fn follow(epochs: &[Epoch]) -> bool
    ensures { IsTrue result ↔ FollowFrom 0 epochs.now }
{
    let mut next: u64 = 0;
    for epoch in epochs {
        if u64::from(epoch.shape.first) != next {
            return false;
        }
        next = u64::from(epoch.shape.first) + u64::from(epoch.shape.cycles);
    }
    true
}

// Whether a node's numbers are in range, and its rate and channels are 0 or those that a sink or
// meter may end with.
fn is_sound_node(node: &PlanNode) -> bool
    ensures { IsTrue result ↔ IsSoundNode node.now }
{
    is_in_range(&node.kind)
        && (node.rate == 0 && node.channels == 0
            || is_sink_or_meter(&node.kind) && is_rate(node.rate) && is_channels(node.channels))
}

// Whether each of these nodes is sound.
fn are_sound_nodes(nodes: &[PlanNode]) -> bool
    ensures { IsTrue result ↔ All IsSoundNode nodes.now }
{
    for node in nodes {
        if !is_sound_node(node) {
            return false;
        }
    }
    true
}

// Whether a node is one of the plan's, or the dummy.
fn is_place(plan: &Plan, n: &ShapeNode) -> bool
    ensures { IsTrue result ↔ IsPlace plan.now n.now }
{
    n.node == DUMMY || (n.node as usize) < plan.nodes.len()
}

// Whether each of these nodes is one of the plan's, or the dummy.
fn are_places(plan: &Plan, nodes: &[ShapeNode]) -> bool
    ensures { IsTrue result ↔ All (IsPlace plan.now) nodes.now }
{
    for n in nodes {
        if !is_place(plan, n) {
            return false;
        }
    }
    true
}

// Whether the dummy drives where it is there.
fn has_sound_dummy(epoch: &Epoch) -> bool
    ensures { IsTrue result ↔ HasSoundDummy epoch.now }
{
    !has_node(&epoch.shape, DUMMY) || epoch.shape.driver == DUMMY
}

// Whether the dummy drives, or a sink or meter.
fn has_sound_driver(plan: &Plan, epoch: &Epoch) -> bool
    ensures { IsTrue result ↔ HasSoundDriver plan.now epoch.now }
{
    epoch.shape.driver == DUMMY || is_sink_or_meter_at(plan, epoch.shape.driver)
}

// Whether an epoch's nodes are those of the plan, but for the dummy, which drives; else a sink or
// meter drives.
fn has_sound_places(plan: &Plan, epoch: &Epoch) -> bool
    ensures { IsTrue result ↔ HasSoundPlaces plan.now epoch.now }
{
    if !are_places(plan, epoch.shape.nodes.as_slice()) {
        return false;
    }
    has_sound_dummy(epoch) && has_sound_driver(plan, epoch)
}

// Whether a form, if of a sink, is the rate and channels that the node ends with.
fn is_ended(plan: &Plan, form: &PortForm) -> bool
    ensures { IsTrue result ↔ IsEnded plan.now form.now }
{
    match plan.nodes.as_slice().get(form.port.node as usize) {
        Some(node) => !is_sink(&node.kind)
            || form.rate == node.rate && form.channels == node.channels,
        None => true,
    }
}

// Whether each of these forms, if of a sink, is that which the node ends with.
fn are_ended(plan: &Plan, forms: &[PortForm]) -> bool
    ensures { IsTrue result ↔ All (IsEnded plan.now) forms.now }
{
    for form in forms {
        if !is_ended(plan, form) {
            return false;
        }
    }
    true
}

// Whether the forms of sinks are those that their nodes end with.
fn ends_with(plan: &Plan, epoch: &Epoch) -> bool
    ensures { IsTrue result ↔ EndsWith plan.now epoch.now }
{
    are_ended(plan, epoch.forms.as_slice())
}

// Whether an epoch's shape, nodes and forms agree.
fn is_sound_epoch(plan: &Plan, epoch: &Epoch) -> bool
    ensures { IsTrue result ↔ IsSoundEpoch plan.now epoch.now }
{
    if !is_pooled_shape(&epoch.shape) || epoch.shape.quantum != plan.quantum {
        return false;
    }
    if !has_sound_places(plan, epoch) {
        return false;
    }
    if !has_sound_forms(plan, epoch) {
        return false;
    }
    ends_with(plan, epoch)
}

// Whether each of these epochs is sound.
fn are_sound_epochs(plan: &Plan, epochs: &[Epoch]) -> bool
    ensures { IsTrue result ↔ All (IsSoundEpoch plan.now) epochs.now }
{
    for epoch in epochs {
        if !is_sound_epoch(plan, epoch) {
            return false;
        }
    }
    true
}

/// Whether a plan is sound: its epochs follow one another, its shapes are pooled, its nodes, links
/// and forms agree, nodes that begin anew are named, and the sums of the limits are kept. Takes no
/// memory; cost: for each form and each later epoch up to the one that names its node, one look at
/// each form and entry there; for each epoch that of `is_pooled_shape`.
pub fn is_sound_plan(plan: &Plan) -> bool
    ensures { IsTrue result ↔ IsSoundPlan plan.now }
{
    if !follow(plan.epochs.as_slice()) || plan.nodes.len() > DUMMY as usize {
        return false;
    }
    if !are_sound_nodes(plan.nodes.as_slice()) {
        return false;
    }
    if !are_sound_epochs(plan, plan.epochs.as_slice()) {
        return false;
    }
    if !has_sound_fresh(plan) {
        return false;
    }
    has_few_events(plan) && has_few_samples(plan) && has_few_bytes(plan)
}
