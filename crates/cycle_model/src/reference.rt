//! The reference program: a plan and its waves rendered in one thread, by index into whole streams.
ghost use Rattle.std.specs.Prelude.{◌≡◌, [], ◌++◌, All, length, option_to_list, OnOk, IfOk};
ghost use Rattle.pw_lists.specs.Samples.{peak_of};
ghost use Rattle.pw_graph.specs.SoundPlan.{IsSoundPlan};
ghost use Rattle.wav_files.specs.WavWriting.{IsWave};
ghost use Rattle.cycle_model.specs.working.Known.{kept_by, peak_by};
ghost use Rattle.cycle_model.specs.Progress.{received_until, AreReceived};
ghost use Rattle.cycle_model.specs.Cycle.{outputs};
ghost use Rattle.cycle_model.specs.Epochs.{all_cycles};
ghost use Rattle.cycle_model.specs.Renderable.{IsRenderable};
ghost use Rattle.cycle_model.specs.Rendering.{is_meter, rendered_sinks, rendered_peaks};

use crate::cycles::all_received;
use crate::received::Received;
use pw_graph::{Kind, Plan, PlanNode, is_sink};
use pw_lists::{Items, Memory};
use std::alloc::Global;
use wav_files::{Kept, Outcome, Peak, Wav, WavIn};

/// Whether it is a meter.
fn is_meter(kind: &Kind) -> bool
    ensures { result ≡ is_meter kind.now }
{
    match kind {
        Kind::Meter => true,
        _ => false,
    }
}

/// The greatest absolute value, 0 of no samples.
fn peak_of(row: &[i16]) -> u32
    ensures { result ≡ peak_of row.now }
{
    let mut top: u32 = 0;
    for sample in row {
        top = top.max(u32::from(sample.unsigned_abs()));
    }
    top
}

/// What a node keeps: a sink with a format the stream that it received, any other node nothing.
fn kept_by(
    alloc: Global,
    place: u32,
    node: &PlanNode,
    received: &Received,
) -> Result<Option<Kept>, Memory>
    ensures { IfOk result (λ kept. kept ≡ kept_by place node.now received.now) }
{
    if !is_sink(&node.kind) || node.rate == 0 {
        return Ok(None);
    }
    Ok(Some(Kept {
        node: place,
        wav: Wav {
            rate: node.rate,
            channels: node.channels,
            samples: received.a.copy(alloc)?,
        },
    }))
}

/// The peak of a node: that of the stream that a meter with a format received; any other node has
/// none.
fn peak_by(place: u32, node: &PlanNode, received: &Received) -> Option<Peak>
    ensures { result ≡ peak_by place node.now received.now }
{
    if !is_meter(&node.kind) || node.rate == 0 {
        return None;
    }
    Some(Peak {
        node: place,
        value: peak_of(received.a.as_slice()),
    })
}

/// Appends what there is, if there is anything.
fn append<T: Drop>(list: &mut Items<T>, item: Option<T>) -> Result<(), Memory>
    ensures { OnOk result (list.new ≡ list.old ++ option_to_list item) }
{
    match item {
        Some(item) => list.push(item),
        None => Ok(()),
    }
}

/// What the sinks with a format keep, ascending by node.
fn all_kept(
    alloc: Global,
    plan: &Plan,
    waves: &[WavIn],
    received: &[Received],
) -> Result<Items<Kept>, Memory>
    requires renderable { IsRenderable plan.now waves.now }
    requires received { AreReceived (length plan.now.nodes)
        (received_until plan.now (outputs plan.now waves.now) (all_cycles plan.now)) received.now }
    ensures { IfOk result (λ sinks. sinks ≡ rendered_sinks plan.now waves.now) }
{
    let nodes = plan.nodes.as_slice();
    let mut sinks = Items::new(alloc);
    for i in 0..nodes.len() {
        let kept = kept_by(alloc, i as u32, &nodes[i], &received[i])?;
        append(&mut sinks, kept)?;
    }
    Ok(sinks)
}

/// The peaks of the meters with a format, ascending by node.
fn all_peaks(
    alloc: Global,
    plan: &Plan,
    waves: &[WavIn],
    received: &[Received],
) -> Result<Items<Peak>, Memory>
    requires renderable { IsRenderable plan.now waves.now }
    requires received { AreReceived (length plan.now.nodes)
        (received_until plan.now (outputs plan.now waves.now) (all_cycles plan.now)) received.now }
    ensures { IfOk result (λ peaks. peaks ≡ rendered_peaks plan.now waves.now) }
{
    let nodes = plan.nodes.as_slice();
    let mut peaks = Items::new(alloc);
    for i in 0..nodes.len() {
        append(&mut peaks, peak_by(i as u32, &nodes[i], &received[i]))?;
    }
    Ok(peaks)
}

/// Renders a plan from its waves: what each sink keeps, and the peak of each meter, with no history
/// of a run.
///
/// It goes cycle by cycle, and in a cycle from node to node in an order of the links that are not
/// delayed; what each input received is kept whole, and each sample of an output is worked out by
/// index into it. `Memory` where there is not enough, or where a number of samples or a sum of them
/// is more than memory can hold. It takes memory for all that the inputs receive, and time for each
/// sample of each output and of each link.
pub fn render(alloc: Global, plan: &Plan, waves: &Items<WavIn>) -> Result<Outcome, Memory>
    requires renderable { IsRenderable plan.now waves.now }
    ensures sinks { IfOk result (λ outcome. outcome.sinks ≡ rendered_sinks plan.now waves.now) }
    ensures peaks { IfOk result (λ outcome. outcome.peaks ≡ rendered_peaks plan.now waves.now) }
    ensures history { IfOk result (λ outcome. outcome.history ≡ []) }

    // What the sinks of a sound plan keep can be written as WAV files.
    ensures waves { IsSoundPlan plan.now
        → IfOk result (λ outcome. All (λ kept. IsWave kept.wav) outcome.sinks) }
{
    let waves = waves.as_slice();
    let received = all_received(alloc, plan, waves)?;
    let sinks = all_kept(alloc, plan, waves, received.as_slice())?;
    let peaks = all_peaks(alloc, plan, waves, received.as_slice())?;
    Ok(Outcome {
        history: Items::new(alloc),
        sinks,
        peaks,
    })
}
