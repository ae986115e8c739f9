//! The sums that have a limit, epoch by epoch.
ghost use Rattle.std.specs.Prelude.{◌≡◌, ◌+◌, ◌*◌, filter, sum_by, slice_index_or};
ghost use Rattle.pw_graph.specs.declared.kind.Kind.TheVariants.{Dummy};
ghost use Rattle.pw_graph.specs.Pools.{asked};
ghost use Rattle.pw_graph.specs.PlanSums.{capped, epoch_events};
ghost use Rattle.graph_lines.specs.Sums.{form_samples, is_sink_form, sink_samples, link_bytes, block_bytes};
ghost use Rattle.graph_lines.specs.Sums.{sums_with, capped_sums, passed, IsJudged};

use pw_graph::{Epoch, Kind, PortForm, ShapeLink, is_sink};
use pw_lists::{BLOCK_BYTES_LIMIT, EVENTS_LIMIT, SINK_SAMPLES_LIMIT, Which};

/// What the epochs so far add up to.
#[derive(Clone, Copy, Drop)]
pub struct Sums {
    /// Events: in each cycle two of each active node and three more.
    pub events: u64,
    /// Samples in all sinks.
    pub samples: u64,
    /// Bytes of the blocks of all links.
    pub bytes: u64,
}

// The sum of two numbers, or the greatest number.
#[tactic(auto, using(crate::proofs::SumLemmas::to_capped))]
fn sum_of(a: u64, b: u64) -> u64
    ensures { result ≡ capped (a + b) }
{
    a.saturating_add(b)
}

// The product of two numbers, or the greatest number.
#[tactic(auto, using(crate::proofs::SumLemmas::to_capped))]
fn product_of(a: u64, b: u64) -> u64
    ensures { result ≡ capped (a * b) }
{
    a.saturating_mul(b)
}

// The events of an epoch.
fn epoch_events(epoch: &Epoch) -> u64
    ensures { result ≡ capped (epoch_events epoch.now) }
{
    let nodes = epoch.shape.nodes.len() as u64;
    product_of(
        u64::from(epoch.shape.cycles),
        sum_of(product_of(2, nodes), 3),
    )
}

// The samples that a form's port takes in an epoch.
fn form_samples(epoch: &Epoch, form: &PortForm) -> u64
    ensures { result ≡ capped (form_samples epoch.now form.now) }
{
    product_of(
        u64::from(epoch.shape.cycles),
        u64::from(epoch.shape.quantum) * u64::from(form.channels),
    )
}

// Whether a form is that of a sink.
fn is_sink_form(kinds: &[Kind], form: &PortForm) -> bool
    ensures { result ≡ is_sink_form kinds.now form.now }
{
    match kinds.get(form.port.node as usize) {
        Some(kind) => is_sink(kind),
        None => false,
    }
}

// The samples of all sinks in an epoch.
fn sink_samples(kinds: &[Kind], epoch: &Epoch) -> u64
    ensures { result ≡ capped (sink_samples kinds.now epoch.now) }
{
    let mut total = 0;
    for form in epoch.forms.as_slice() {
        if is_sink_form(kinds, form) {
            total = sum_of(total, form_samples(epoch, form));
        }
    }
    total
}

// How many blocks a link asks for.
fn asked(link: &ShapeLink) -> u32
    ensures { result ≡ asked link.now }
{
    if link.delayed {
        link.buffers.max(2)
    } else {
        link.buffers
    }
}

// The bytes of the blocks that a link asks for.
fn link_bytes(epoch: &Epoch, link: &ShapeLink) -> u64
    ensures { result ≡ capped (link_bytes epoch.now link.now) }
{
    product_of(
        u64::from(asked(link)),
        product_of(u64::from(epoch.shape.quantum), u64::from(link.channels) * 2),
    )
}

// The bytes of the blocks of an epoch.
fn block_bytes(epoch: &Epoch) -> u64
    ensures { result ≡ capped (block_bytes epoch.now) }
{
    let mut total = 0;
    for link in epoch.shape.links.as_slice() {
        total = sum_of(total, link_bytes(epoch, link));
    }
    total
}

impl Sums {
    /// The sums with an epoch more. Each stays at the greatest number of 64 bits, which is above
    /// its limit. Takes no memory; cost: one look at each form and each link of the epoch.
    pub fn with(self, kinds: &[Kind], epoch: &Epoch) -> Sums
        ensures { result ≡ capped_sums (sums_with kinds.now self epoch.now) }
    {
        let events = sum_of(self.events, epoch_events(epoch));
        let samples = sum_of(self.samples, sink_samples(kinds, epoch));
        let bytes = sum_of(self.bytes, block_bytes(epoch));
        Sums {
            events,
            samples,
            bytes,
        }
    }

    /// The first limit that the sums pass: events, then samples of sinks, then bytes of blocks.
    /// Takes no memory.
    pub fn passed(self) -> Option<Which>
        ensures { result ≡ passed self }
    {
        if EVENTS_LIMIT < self.events {
            return Some(Which::Events);
        }
        if SINK_SAMPLES_LIMIT < self.samples {
            return Some(Which::SinkSamples);
        }
        if BLOCK_BYTES_LIMIT < self.bytes {
            return Some(Which::BlockBytes);
        }
        None
    }
}

/// The sums with an epoch more, or the first limit that they pass: events, then samples of sinks,
/// then bytes of blocks. Takes no memory; cost: one look at each form and each link of the epoch.
pub fn judge(kinds: &[Kind], sums: Sums, epoch: &Epoch) -> Result<Sums, Which>
    ensures { IsJudged kinds.now sums epoch.now result }
{
    let more = sums.with(kinds, epoch);
    match more.passed() {
        Some(which) => Err(which),
        None => Ok(more),
    }
}
