//! Whether the sums of a plan are within their limits.
ghost use Rattle.std.specs.Prelude.{◌≡◌, ◌≤◌, ◌*◌, ◌+◌, filter, sum_by, IsTrue, ◌↔◌};
ghost use Rattle.pw_lists.specs.Limits.{events_limit, sink_samples_limit, block_bytes_limit};
ghost use Rattle.pw_graph.specs.PlanForms.{kind_at};
ghost use Rattle.pw_graph.specs.PlanSums.{is_sink, epoch_events, form_samples, epoch_samples, link_bytes, epoch_bytes, events_of};
ghost use Rattle.pw_graph.specs.PlanSums.{sink_samples_of, block_bytes_of, capped};

use crate::plan_forms::is_sink_at;
use pw_graph::{Epoch, Plan, PortForm, ShapeLink, asked};
use pw_lists::{BLOCK_BYTES_LIMIT, EVENTS_LIMIT, SINK_SAMPLES_LIMIT};

// The sum of two numbers, or the greatest number.
#[tactic(auto, unfolding(pw_graph::specs::PlanSums::capped))]
fn capped_sum(a: u64, b: u64) -> u64
    ensures { result ≡ capped (a + b) }
{
    a.saturating_add(b)
}

// The product of two numbers, or the greatest number.
#[tactic(auto, unfolding(pw_graph::specs::PlanSums::capped))]
fn capped_product(a: u64, b: u64) -> u64
    ensures { result ≡ capped (a * b) }
{
    a.saturating_mul(b)
}

// The events of an epoch.
fn epoch_events(epoch: &Epoch) -> u64
    ensures { result ≡ capped (epoch_events epoch.now) }
{
    let nodes = epoch.shape.nodes.len() as u64;
    capped_product(
        u64::from(epoch.shape.cycles),
        capped_sum(capped_product(2, nodes), 3),
    )
}

// The events of these epochs.
fn total_events(epochs: &[Epoch]) -> u64
    ensures { result ≡ capped (sum_by epoch_events epochs.now) }
{
    let mut total = 0;
    for epoch in epochs {
        total = capped_sum(total, epoch_events(epoch));
    }
    total
}

/// Whether the events of a run are within their limit.
pub(crate) fn has_few_events(plan: &Plan) -> bool
    ensures { IsTrue result ↔ (events_of plan.now ≤ events_limit) }
{
    total_events(plan.epochs.as_slice()) <= EVENTS_LIMIT
}

// The samples that a form's port takes in an epoch.
fn form_samples(plan: &Plan, epoch: &Epoch, form: &PortForm) -> u64
    ensures { result ≡ capped (form_samples plan.now epoch.now form.now) }
{
    capped_product(
        u64::from(epoch.shape.cycles),
        u64::from(plan.quantum) * u64::from(form.channels),
    )
}

// The samples of those of these forms that are of sinks.
fn sink_samples(plan: &Plan, epoch: &Epoch, forms: &[PortForm]) -> u64
    ensures { result ≡ capped (sum_by (form_samples plan.now epoch.now)
        (filter (λ f. is_sink (kind_at plan.now f.port.node)) forms.now)) }
{
    let mut total = 0;
    for form in forms {
        if is_sink_at(plan, form.port.node) {
            total = capped_sum(total, form_samples(plan, epoch, form));
        }
    }
    total
}

// The samples of all sinks in an epoch.
fn epoch_samples(plan: &Plan, epoch: &Epoch) -> u64
    ensures { result ≡ capped (epoch_samples plan.now epoch.now) }
{
    sink_samples(plan, epoch, epoch.forms.as_slice())
}

// The samples of all sinks in these epochs.
fn total_samples(plan: &Plan, epochs: &[Epoch]) -> u64
    ensures { result ≡ capped (sum_by (epoch_samples plan.now) epochs.now) }
{
    let mut total = 0;
    for epoch in epochs {
        total = capped_sum(total, epoch_samples(plan, epoch));
    }
    total
}

/// Whether the samples of all sinks of a run are within their limit.
pub(crate) fn has_few_samples(plan: &Plan) -> bool
    ensures { IsTrue result ↔ (sink_samples_of plan.now ≤ sink_samples_limit) }
{
    total_samples(plan, plan.epochs.as_slice()) <= SINK_SAMPLES_LIMIT
}

// The bytes of the blocks that a link asks for.
fn link_bytes(plan: &Plan, link: &ShapeLink) -> u64
    ensures { result ≡ capped (link_bytes plan.now link.now) }
{
    capped_product(
        u64::from(asked(link)),
        capped_product(u64::from(plan.quantum), u64::from(link.channels) * 2),
    )
}

// The bytes of the blocks that these links ask for.
fn all_link_bytes(plan: &Plan, links: &[ShapeLink]) -> u64
    ensures { result ≡ capped (sum_by (link_bytes plan.now) links.now) }
{
    let mut total = 0;
    for link in links {
        total = capped_sum(total, link_bytes(plan, link));
    }
    total
}

// The bytes of the blocks of an epoch.
fn epoch_bytes(plan: &Plan, epoch: &Epoch) -> u64
    ensures { result ≡ capped (epoch_bytes plan.now epoch.now) }
{
    all_link_bytes(plan, epoch.shape.links.as_slice())
}

// The bytes of the blocks of these epochs.
fn total_bytes(plan: &Plan, epochs: &[Epoch]) -> u64
    ensures { result ≡ capped (sum_by (epoch_bytes plan.now) epochs.now) }
{
    let mut total = 0;
    for epoch in epochs {
        total = capped_sum(total, epoch_bytes(plan, epoch));
    }
    total
}

/// Whether the bytes of the blocks of all epochs are within their limit.
pub(crate) fn has_few_bytes(plan: &Plan) -> bool
    ensures { IsTrue result ↔ (block_bytes_of plan.now ≤ block_bytes_limit) }
{
    total_bytes(plan, plan.epochs.as_slice()) <= BLOCK_BYTES_LIMIT
}
