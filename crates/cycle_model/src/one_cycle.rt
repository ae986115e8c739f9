//! One cycle of one node: it receives its inputs, and then gives its outputs.
ghost use Rattle.std.specs.Prelude.{◌≡◌, ℕ, ◌<◌, ◌≤◌, ◌++◌, length, slice_index_or, slice_set, OnOk, IfOk, if◌then◌else◌};
ghost use Rattle.pw_lists.specs.Limits.{nodes_limit};
ghost use Rattle.pw_graph.specs.KindPorts.{input_count, output_count};
ghost use Rattle.pw_graph.specs.KindRanges.{IsInRange};
ghost use Rattle.cycle_model.specs.Cycle.{wave_of};
ghost use Rattle.cycle_model.specs.Epochs.{is_fresh};
ghost use Rattle.cycle_model.specs.working.Known.{received_more, all_given_by, is_released, released};
ghost use Rattle.cycle_model.specs.Progress.{nothing};

use crate::epochs::channels_of;
use crate::inputs::{input_of, samples_in};
use crate::kinds::last_given;
use crate::received::{Given, Received, Setting};
use pw_graph::{Epoch, Kind, PortId};
use pw_lists::{Items, Memory};
use std::alloc::Global;
use wav_files::WavIn;

/// The samples of a node's wave, none without one.
fn wave_of(waves: &[WavIn], node: u32) -> &[i16]
    ensures { result.now ≡ wave_of waves.now node }
{
    for wave in waves {
        if wave.node == node {
            return wave.wav.samples.as_slice();
        }
    }
    &[]
}

/// Whether a node is fresh in an epoch.
fn is_fresh(epoch: &Epoch, node: u32) -> bool
    ensures { result ≡ is_fresh epoch.now node }
{
    epoch
        .fresh
        .as_slice()
        .iter()
        .any(|fresh| fresh.node == node)
}

/// Whether a node's streams begin anew with a cycle.
fn is_released(epochs: &[Epoch], cycle: u64, node: u32) -> bool
    ensures { result ≡ is_released epochs.now cycle node }
{
    epochs.iter().any(|epoch| u64::from(epoch.shape.first) == cycle && is_fresh(epoch, node))
}

/// Empties the streams of each node whose streams begin anew with a cycle.
pub(crate) fn release(alloc: Global, epochs: &[Epoch], cycle: u64, received: &mut [Received])
    requires { length received.old ≤ nodes_limit }
    ensures long { length received.new ≡ length received.old }
    ensures each { (n : ℕ) → n < length received.old → slice_index_or received.new n nothing
        ≡ (if is_released epochs.now cycle n then released (slice_index_or received.old n nothing)
        else slice_index_or received.old n nothing) }
{
    for n in 0..received.len() {
        if is_released(epochs, cycle, n as u32) {
            received[n].a = Items::new(alloc);
            received[n].b = Items::new(alloc);
        }
    }
}

/// Receives the inputs of one cycle.
fn receive(
    alloc: Global,
    at: &Setting<'_>,
    now: &[Given],
    kind: &Kind,
    node: u32,
    received: &mut Received,
) -> Result<(), Memory>
    ensures { OnOk result (received.new
        ≡ received_more at.now.quantum at.now.first at.now.before.now now.now at.now.epoch.now
        kind.now node
        received.old) }
{
    let Some(frames) = received.frames.checked_add(u64::from(at.quantum)) else {
        return Err(Memory);
    };
    received.frames = frames;
    let inputs = kind.inputs();
    if 0 < inputs {
        let row = input_of(alloc, at, now, PortId { node, port: 0 })?;
        received.a.extend(row.as_slice())?;
    }
    if 1 < inputs {
        let row = input_of(alloc, at, now, PortId { node, port: 1 })?;
        received.b.extend(row.as_slice())?;
    }
    Ok(())
}

/// Records what a node gives at its outputs.
fn give(
    alloc: Global,
    at: &Setting<'_>,
    kind: &Kind,
    wave: &[i16],
    node: u32,
    received: &Received,
    now: &mut Items<Given>,
) -> Result<(), Memory>
    requires { IsInRange kind.now }
    ensures { OnOk result (now.new
        ≡ now.old ++ all_given_by at.now.quantum at.now.epoch.now kind.now wave.now node
        received.now) }
{
    let inputs = kind.inputs();
    for output in 0..kind.outputs() {
        let port = PortId {
            node,
            port: inputs + output,
        };
        let channels = channels_of(at.epoch.forms.as_slice(), port);
        let n = samples_in(at.quantum, channels);
        let samples = last_given(alloc, kind, wave, received, channels, output, n)?;
        now.push(Given { port, samples })?;
    }
    Ok(())
}

/// One cycle of a node.
pub(crate) fn work(
    alloc: Global,
    at: &Setting<'_>,
    kind: &Kind,
    waves: &[WavIn],
    node: u32,
    received: &mut [Received],
    now: &mut Items<Given>,
) -> Result<(), Memory>
    requires range { IsInRange kind.now }
    requires there { node < length received.old }
    ensures received { OnOk result (received.new ≡ slice_set received.old node
        (received_more at.now.quantum at.now.first at.now.before.now now.old at.now.epoch.now
        kind.now node (slice_index_or received.old node nothing))) }
    ensures now { OnOk result (now.new
        ≡ now.old ++ all_given_by at.now.quantum at.now.epoch.now kind.now
        (wave_of waves.now node) node
        (received_more at.now.quantum at.now.first at.now.before.now now.old at.now.epoch.now
        kind.now node (slice_index_or received.old node nothing))) }
{
    let here = &mut received[node as usize];
    receive(alloc, at, now.as_slice(), kind, node, here)?;
    give(alloc, at, kind, wave_of(waves, node), node, here, now)
}
