//! Whether forms are kept from epoch to epoch until their node begins anew.
ghost use Rattle.std.specs.Prelude.{◌≡◌, ℕ, ◌<◌, ◌≤◌, IsTrue, ◌↔◌, All, length};
ghost use Rattle.graph_checks.specs.working.FreshChecks.{IsSameForm, AgreesIn, KeepsForm, IsKeptFrom, KeepsSink, IsLastNamed, IsToldIn, IsKeptForm};
ghost use Rattle.graph_checks.specs.working.FreshChecks.{KeepsEpoch};

use crate::fresh_entries::{epoch_at, is_named, names};
use crate::plan_forms::{input_count_at, is_sink_at};
use pw_graph::{Epoch, Plan, PortForm};

// Whether two forms, if of one port, are the same.
fn is_same_form(a: &PortForm, f: &PortForm) -> bool
    ensures { IsTrue result ↔ IsSameForm a.now f.now }
{
    f.port != a.port || a.rate == f.rate && a.channels == f.channels
}

// Whether a form agrees with each form of its port in an epoch.
fn agrees_with(epoch: &Epoch, a: &PortForm) -> bool
    ensures { IsTrue result ↔ All (IsSameForm a.now) epoch.now.forms }
{
    epoch.forms.as_slice().iter().all(|f| is_same_form(a, f))
}

// Whether a form agrees with each form of its port in epoch j.
fn agrees_in(plan: &Plan, j: usize, a: &PortForm) -> bool
    requires { j < length plan.now.epochs }
    ensures { IsTrue result ↔ AgreesIn plan.now j a.now }
{
    agrees_with(epoch_at(plan, j), a)
}

// Whether a form of epoch i is that of its port in each later epoch up to which its node stays.
fn keeps_form(plan: &Plan, i: usize, a: &PortForm) -> bool
    requires { i < length plan.now.epochs }
    ensures { IsTrue result ↔ KeepsForm plan.now i a.now }
{
    let count = plan.epochs.len();
    for j in i + 1..count {
        if is_named(plan, j, a.port.node) {
            return true;
        }
        if !agrees_in(plan, j, a) {
            return false;
        }
    }
    true
}

// Whether no epoch after i names the node.
fn is_kept_from(plan: &Plan, i: usize, node: u32) -> bool
    requires { i < length plan.now.epochs }
    ensures { IsTrue result ↔ IsKeptFrom plan.now i node }
{
    let count = plan.epochs.len();
    for j in i + 1..count {
        if is_named(plan, j, node) {
            return false;
        }
    }
    true
}

// Whether a node with a form in epoch i is not named later, where it is a sink.
fn keeps_sink(plan: &Plan, i: usize, a: &PortForm) -> bool
    requires { i < length plan.now.epochs }
    ensures { IsTrue result ↔ KeepsSink plan.now i a.now }
{
    !is_sink_at(plan, a.port.node) || is_kept_from(plan, i, a.port.node)
}

// Whether the last epoch up to j that names the node has these channels.
fn is_last_named(plan: &Plan, j: usize, node: u32, channels: u32) -> bool
    requires { j < length plan.now.epochs }
    ensures { IsTrue result ↔ IsLastNamed plan.now j node channels }
{
    if is_named(plan, j, node) {
        return names(plan, j, node, channels);
    }
    j > 0 && is_last_named(plan, j - 1, node, channels)
}

// Whether the last epoch up to j that names the node of a first input has the form's channels.
fn is_told_in(plan: &Plan, j: usize, a: &PortForm) -> bool
    requires { j < length plan.now.epochs }
    ensures { IsTrue result ↔ IsToldIn plan.now j a.now }
{
    a.port.port != 0
        || input_count_at(plan, a.port.node) == 0
        || is_last_named(plan, j, a.port.node, a.channels)
}

// Whether a form of epoch i is kept and reported.
fn is_kept_form(plan: &Plan, i: usize, a: &PortForm) -> bool
    requires { i < length plan.now.epochs }
    ensures { IsTrue result ↔ IsKeptForm plan.now i a.now }
{
    keeps_form(plan, i, a) && keeps_sink(plan, i, a) && is_told_in(plan, i, a)
}

// Whether each of these forms of epoch i is kept and reported.
fn are_kept_forms(plan: &Plan, i: usize, forms: &[PortForm]) -> bool
    requires { i < length plan.now.epochs }
    ensures { IsTrue result ↔ All (IsKeptForm plan.now i) forms.now }
{
    for a in forms {
        if !is_kept_form(plan, i, a) {
            return false;
        }
    }
    true
}

// Whether each form of epoch i is kept and reported.
fn keeps_epoch(plan: &Plan, i: usize) -> bool
    requires { i < length plan.now.epochs }
    ensures { IsTrue result ↔ KeepsEpoch plan.now i }
{
    are_kept_forms(plan, i, epoch_at(plan, i).forms.as_slice())
}

/// Whether each form of each epoch is kept and reported.
pub(crate) fn keeps_all(plan: &Plan) -> bool
    ensures { IsTrue result ↔ ((i : ℕ) → i < length plan.now.epochs
        → KeepsEpoch plan.now i) }
{
    for i in 0..plan.epochs.len() {
        if !keeps_epoch(plan, i) {
            return false;
        }
    }
    true
}
