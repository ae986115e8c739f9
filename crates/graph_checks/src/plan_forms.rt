//! Whether the forms of an epoch agree with its nodes and links.
ghost use Rattle.std.specs.Prelude.{◌≡◌, ℕ, ◌<◌, ◌≤◌, IsTrue, ◌↔◌, All, AllPairs, MatchOption};
ghost use Rattle.pw_graph.specs.KindPorts.{input_count, port_count};
ghost use Rattle.pw_graph.specs.KindRanges.{SharesChannels, IsSinkOrMeter};
ghost use Rattle.pw_graph.specs.PlanSums.{is_sink};
ghost use Rattle.pw_graph.specs.Pools.{is_before};
ghost use Rattle.graph_checks.specs.working.FormChecks.{HasSomeForm, HasBothForms, HasAllForms, IsWhole};
ghost use Rattle.pw_graph.specs.PlanForms.{kind_at, HasForm, IsSoundForm, AreShared, IsFormed, HasSoundForms};

use crate::dependencies::has_node;
use crate::kind_ranges::{is_sink_or_meter, may_have_channels, may_have_rate, shares_channels};
use pw_graph::{Epoch, Kind, Plan, PortForm, PortId, ShapeLink, ShapeNode, is_before, is_sink};

/// The kind of node `n`; `Dummy` if there is no such node.
pub(crate) fn kind_at(plan: &Plan, node: u32) -> Option<&Kind>
    ensures { MatchOption result (kind_at plan.now node ≡ Kind.Dummy)
        (λ kind. kind.now ≡ kind_at plan.now node) }
{
    match plan.nodes.as_slice().get(node as usize) {
        Some(n) => Some(&n.kind),
        None => None,
    }
}

// How many ports a node has.
fn port_count_at(plan: &Plan, node: u32) -> u32
    ensures { result ≡ port_count (kind_at plan.now node) }
{
    match kind_at(plan, node) {
        Some(kind) => kind.inputs() + kind.outputs(),
        None => 0,
    }
}

/// How many inputs a node has.
pub(crate) fn input_count_at(plan: &Plan, node: u32) -> u32
    ensures { result ≡ input_count (kind_at plan.now node) }
{
    match kind_at(plan, node) {
        Some(kind) => kind.inputs(),
        None => 0,
    }
}

// Whether all ports of a node have the same channels.
fn shares_channels_at(plan: &Plan, node: u32) -> bool
    ensures { IsTrue result ↔ SharesChannels (kind_at plan.now node) }
{
    match kind_at(plan, node) {
        Some(kind) => shares_channels(kind),
        None => false,
    }
}

/// Whether a node is a sink or a meter.
pub(crate) fn is_sink_or_meter_at(plan: &Plan, node: u32) -> bool
    ensures { IsTrue result ↔ IsSinkOrMeter (kind_at plan.now node) }
{
    match kind_at(plan, node) {
        Some(kind) => is_sink_or_meter(kind),
        None => false,
    }
}

/// Whether a node is a sink.
pub(crate) fn is_sink_at(plan: &Plan, node: u32) -> bool
    ensures { result ≡ is_sink (kind_at plan.now node) }
{
    match kind_at(plan, node) {
        Some(kind) => is_sink(kind),
        None => false,
    }
}

// Whether it is this form of the port.
fn is_form(form: &PortForm, port: PortId, rate: u32, channels: u32) -> bool
    ensures { IsTrue result ↔ (form.now
        ≡ record { port = port; rate = rate; channels = channels }) }
{
    form.port == port && form.rate == rate && form.channels == channels
}

/// Whether an epoch has this form of the port.
pub(crate) fn has_form(epoch: &Epoch, port: PortId, rate: u32, channels: u32) -> bool
    ensures { IsTrue result ↔ HasForm epoch.now port rate channels }
{
    epoch
        .forms
        .as_slice()
        .iter()
        .any(|form| is_form(form, port, rate, channels))
}

// Whether an epoch has a form of the port.
fn has_some_form(epoch: &Epoch, port: PortId) -> bool
    ensures { IsTrue result ↔ HasSomeForm epoch.now port }
{
    epoch.forms.as_slice().iter().any(|form| form.port == port)
}

// Whether a form belongs to a port of an active node, with a rate and channels that the kind may
// have there.
fn is_sound_form(plan: &Plan, epoch: &Epoch, form: &PortForm) -> bool
    ensures { IsTrue result ↔ IsSoundForm plan.now epoch.now form.now }
{
    match kind_at(plan, form.port.node) {
        Some(kind) => has_node(&epoch.shape, form.port.node)
            && form.port.port < kind.inputs() + kind.outputs()
            && may_have_rate(kind, form.rate)
            && may_have_channels(kind, form.port.port, form.channels),
        None => false,
    }
}

// Whether each of these forms belongs to a port.
fn are_sound_forms(plan: &Plan, epoch: &Epoch, forms: &[PortForm]) -> bool
    ensures { IsTrue result ↔ All (IsSoundForm plan.now epoch.now) forms.now }
{
    for form in forms {
        if !is_sound_form(plan, epoch, form) {
            return false;
        }
    }
    true
}

// Whether two forms share their rate and channels, where they have to.
fn are_shared(plan: &Plan, f: &PortForm, g: &PortForm) -> bool
    ensures { IsTrue result ↔ AreShared plan.now f.now g.now }
{
    f.port.node != g.port.node
        || f.rate == g.rate && (!shares_channels_at(plan, f.port.node) || f.channels == g.channels)
}

// Whether each of these shares with a form.
fn is_shared(plan: &Plan, earlier: &[PortForm], form: &PortForm) -> bool
    ensures { IsTrue result ↔ All (λ f. AreShared plan.now f form.now) earlier.now }
{
    earlier.iter().all(|f| are_shared(plan, f, form))
}

// Whether all forms share with one another.
fn all_shared(plan: &Plan, forms: &[PortForm]) -> bool
    ensures { IsTrue result ↔ AllPairs (AreShared plan.now) forms.now }
{
    for i in 0..forms.len() {
        if !is_shared(plan, &forms[..i], &forms[i]) {
            return false;
        }
    }
    true
}

// Whether each of these is before a form.
fn is_after(earlier: &[PortForm], form: &PortForm) -> bool
    ensures { IsTrue result ↔ All (λ f. IsTrue (is_before f.port form.now.port)) earlier.now }
{
    earlier.iter().all(|f| is_before(f.port, form.port))
}

// Whether the forms are of ports once each, ascending.
fn forms_ascend(forms: &[PortForm]) -> bool
    ensures { IsTrue result ↔ AllPairs (λ f g. IsTrue (is_before f.port g.port)) forms.now }
{
    for i in 0..forms.len() {
        if !is_after(&forms[..i], &forms[i]) {
            return false;
        }
    }
    true
}

// Whether two ports have forms of one rate, with these channels.
fn has_both_forms(epoch: &Epoch, from: PortId, to: PortId, channels: u32) -> bool
    ensures { IsTrue result ↔ HasBothForms epoch.now from to channels }
{
    epoch.forms.as_slice().iter().any(|form| {
        form.port == from && form.channels == channels && has_form(epoch, to, form.rate, channels)
    })
}

// Whether a link goes from an output to an input, and both have forms of one rate and of the link's
// channels.
fn is_formed(plan: &Plan, epoch: &Epoch, link: &ShapeLink) -> bool
    ensures { IsTrue result ↔ IsFormed plan.now epoch.now link.now }
{
    input_count_at(plan, link.from.node) <= link.from.port
        && link.from.port < port_count_at(plan, link.from.node)
        && link.to.port < input_count_at(plan, link.to.node)
        && has_both_forms(epoch, link.from, link.to, link.channels)
}

// Whether each of these links joins ports with forms.
fn are_formed(plan: &Plan, epoch: &Epoch, links: &[ShapeLink]) -> bool
    ensures { IsTrue result ↔ All (IsFormed plan.now epoch.now) links.now }
{
    for link in links {
        if !is_formed(plan, epoch, link) {
            return false;
        }
    }
    true
}

// Whether a node has forms for all its ports.
fn has_all_forms(plan: &Plan, epoch: &Epoch, node: u32) -> bool
    ensures { IsTrue result ↔ HasAllForms plan.now epoch.now node }
{
    for port in 0..port_count_at(plan, node) {
        if !has_some_form(epoch, PortId { node, port }) {
            return false;
        }
    }
    true
}

// Whether a node is the driver, or has forms for all its ports.
fn is_whole(plan: &Plan, epoch: &Epoch, n: &ShapeNode) -> bool
    ensures { IsTrue result ↔ IsWhole plan.now epoch.now n.now }
{
    n.node == epoch.shape.driver || has_all_forms(plan, epoch, n.node)
}

// Whether each of these nodes is the driver, or has forms for all its ports.
fn are_whole(plan: &Plan, epoch: &Epoch, nodes: &[ShapeNode]) -> bool
    ensures { IsTrue result ↔ All (IsWhole plan.now epoch.now) nodes.now }
{
    for n in nodes {
        if !is_whole(plan, epoch, n) {
            return false;
        }
    }
    true
}

/// Whether the forms of an epoch are of ports once each, ascending, agree with one another and with
/// their nodes' kinds, and are there for all ports of followers and both ends of links. Takes no
/// memory.
pub(crate) fn has_sound_forms(plan: &Plan, epoch: &Epoch) -> bool
    ensures { IsTrue result ↔ HasSoundForms plan.now epoch.now }
{
    let forms = epoch.forms.as_slice();
    if !forms_ascend(forms) {
        return false;
    }
    if !are_sound_forms(plan, epoch, forms) {
        return false;
    }
    if !all_shared(plan, forms) {
        return false;
    }
    if !are_whole(plan, epoch, epoch.shape.nodes.as_slice()) {
        return false;
    }
    are_formed(plan, epoch, epoch.shape.links.as_slice())
}
