//! Whether the epochs of a plan say of each node when it begins anew.
ghost use Rattle.std.specs.Prelude.{◌≡◌, ℕ, ◌<◌, IsTrue, ◌↔◌, All, AllPairs, length};
ghost use Rattle.pw_graph.specs.PlanFresh.{IsSoundFresh, HasSoundFresh};
ghost use Rattle.graph_checks.specs.working.FreshChecks.{HasFirstInput, NamesWell};

use crate::kind_ranges::may_have_channels;
use crate::plan_forms::kind_at;
use crate::plan_kept::keeps_all;
use pw_graph::{Epoch, Fresh, Plan};

// Whether a node has an input, and the first one may have `channels` channels.
fn has_first_input(plan: &Plan, node: u32, channels: u32) -> bool
    ensures { IsTrue result ↔ HasFirstInput plan.now node channels }
{
    match kind_at(plan, node) {
        Some(kind) => kind.inputs() > 0 && may_have_channels(kind, 0, channels),
        None => false,
    }
}

// Whether an entry names the place of a node, with 0 or channels that its first input may have.
fn is_sound_fresh(plan: &Plan, fresh: &Fresh) -> bool
    ensures { IsTrue result ↔ IsSoundFresh plan.now fresh.now }
{
    (fresh.node as usize) < plan.nodes.len()
        && (fresh.channels == 0 || has_first_input(plan, fresh.node, fresh.channels))
}

// Whether each of these entries names the place of a node.
fn are_sound_fresh(plan: &Plan, list: &[Fresh]) -> bool
    ensures { IsTrue result ↔ All (IsSoundFresh plan.now) list.now }
{
    for fresh in list {
        if !is_sound_fresh(plan, fresh) {
            return false;
        }
    }
    true
}

// Whether each of these entries names a lower node.
fn is_above(earlier: &[Fresh], fresh: &Fresh) -> bool
    ensures { IsTrue result ↔ All (λ x. x.node < fresh.now.node) earlier.now }
{
    earlier.iter().all(|x| x.node < fresh.node)
}

// Whether entries name nodes once each, ascending.
fn fresh_ascend(list: &[Fresh]) -> bool
    ensures { IsTrue result ↔ AllPairs (λ x y. x.node < y.node) list.now }
{
    for i in 0..list.len() {
        if !is_above(&list[..i], &list[i]) {
            return false;
        }
    }
    true
}

// Whether the entries of an epoch ascend and name places of nodes.
fn names_well(plan: &Plan, epoch: &Epoch) -> bool
    ensures { IsTrue result ↔ NamesWell plan.now epoch.now }
{
    let list = epoch.fresh.as_slice();
    fresh_ascend(list) && are_sound_fresh(plan, list)
}

// Whether the entries of each of these epochs ascend and name places of nodes.
fn all_name_well(plan: &Plan, epochs: &[Epoch]) -> bool
    ensures { IsTrue result ↔ All (NamesWell plan.now) epochs.now }
{
    for epoch in epochs {
        if !names_well(plan, epoch) {
            return false;
        }
    }
    true
}

/// Whether the epochs name nodes as fresh in order, and forms are kept in between. Takes no memory;
/// cost: for each form and each later epoch up to the one that names its node, one look at each
/// form and entry there.
pub(crate) fn has_sound_fresh(plan: &Plan) -> bool
    ensures { IsTrue result ↔ HasSoundFresh plan.now }
{
    if !all_name_well(plan, plan.epochs.as_slice()) {
        return false;
    }
    keeps_all(plan)
}
