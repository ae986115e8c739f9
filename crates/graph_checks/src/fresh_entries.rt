//! Which epochs of a plan name a node as fresh.
ghost use Rattle.std.specs.Prelude.{◌≡◌, ◌<◌, IsTrue, ◌↔◌, length};
ghost use Rattle.pw_graph.specs.PlanFresh.{IsEpoch, Names};
ghost use Rattle.graph_checks.specs.working.FreshChecks.{HasEntry, HasSomeEntry, IsNamed};

use pw_graph::{Epoch, Fresh, Plan};

/// The epoch at a place.
#[tactic(auto, using(std::proofs::lemmas::Option::slice_get_read))]
pub(crate) fn epoch_at(plan: &Plan, k: usize) -> &Epoch
    requires { k < length plan.now.epochs }
    ensures { IsEpoch plan.now k result.now }
{
    &plan.epochs.as_slice()[k]
}

// Whether it is this entry.
fn is_entry(fresh: &Fresh, node: u32, channels: u32) -> bool
    ensures { IsTrue result ↔ (fresh.now ≡ record { node = node; channels = channels }) }
{
    fresh.node == node && fresh.channels == channels
}

// Whether an epoch's entries name the node with these channels.
fn has_entry(epoch: &Epoch, node: u32, channels: u32) -> bool
    ensures { IsTrue result ↔ HasEntry epoch.now node channels }
{
    epoch
        .fresh
        .as_slice()
        .iter()
        .any(|fresh| is_entry(fresh, node, channels))
}

// Whether an epoch's entries name the node.
fn has_some_entry(epoch: &Epoch, node: u32) -> bool
    ensures { IsTrue result ↔ HasSomeEntry epoch.now node }
{
    epoch
        .fresh
        .as_slice()
        .iter()
        .any(|fresh| fresh.node == node)
}

/// Whether an epoch names the node with these channels.
pub(crate) fn names(plan: &Plan, k: usize, node: u32, channels: u32) -> bool
    requires { k < length plan.now.epochs }
    ensures { IsTrue result ↔ Names plan.now k node channels }
{
    has_entry(epoch_at(plan, k), node, channels)
}

/// Whether an epoch names the node.
pub(crate) fn is_named(plan: &Plan, k: usize, node: u32) -> bool
    requires { k < length plan.now.epochs }
    ensures { IsTrue result ↔ IsNamed plan.now k node }
{
    has_some_entry(epoch_at(plan, k), node)
}
