//! All cycles of a plan, one after the other.
ghost use Rattle.std.specs.Prelude.{◌≡◌, ℕ, ◌+◌, ◌<◌, suc, Some, length, take, sum_by, option_copied, IfOk, IfSome, OnOk};
ghost use Rattle.cycle_model.specs.Cycle.{outputs};
ghost use Rattle.cycle_model.specs.Epochs.{is_within, epoch_at, all_cycles};
ghost use Rattle.cycle_model.specs.Progress.{received_until, received_before, nothing, AreReceived, TellsCycle, TellsBefore};
ghost use Rattle.cycle_model.specs.working.UnderWay.{IsUnderWay, IsCycle};
ghost use Rattle.cycle_model.specs.working.NodeOrder.{IsOrder};
ghost use Rattle.cycle_model.specs.Renderable.{IsRenderable};

use crate::one_cycle::{release, work};
use crate::order::order_of;
use crate::received::{Given, Received, Setting};
use pw_graph::{Epoch, Plan};
use pw_lists::{Items, Memory};
use std::alloc::Global;
use wav_files::WavIn;

/// Whether a cycle lies in an epoch.
fn is_within(epoch: &Epoch, cycle: u64) -> bool
    ensures { result ≡ is_within epoch.now cycle }
{
    let first = u64::from(epoch.shape.first);
    first <= cycle && cycle < first + u64::from(epoch.shape.cycles)
}

/// The epoch in which a cycle lies.
fn epoch_at(plan: &Plan, cycle: u64) -> Option<&Epoch>
    ensures { option_copied result ≡ epoch_at plan.now cycle }
{
    for epoch in plan.epochs.as_slice() {
        if is_within(epoch, cycle) {
            return Some(epoch);
        }
    }
    None
}

/// The cycles of all epochs, nothing where their number does not fit.
fn all_cycles(epochs: &[Epoch]) -> Option<u64>
    ensures { IfSome result (λ n. n ≡ sum_by (λ e. e.shape.cycles) epochs.now) }
{
    let mut sum: u64 = 0;
    for epoch in epochs {
        sum = sum.checked_add(u64::from(epoch.shape.cycles))?;
    }
    Some(sum)
}

/// One cycle: each active node receives its inputs and gives its outputs, after those whose output
/// it gets. The answer is what the ports gave.
fn work_cycle(
    alloc: Global,
    plan: &Plan,
    waves: &[WavIn],
    cycle: u64,
    epoch: &Epoch,
    before: &[Given],
    received: &mut [Received],
) -> Result<Items<Given>, Memory>
    requires cycle { IsCycle plan.now waves.now cycle epoch.now before.now }
    requires received { AreReceived (length plan.now.nodes)
        (received_before plan.now (outputs plan.now waves.now) cycle) received.old }
    ensures received { OnOk result (AreReceived (length plan.now.nodes)
        (received_until plan.now (outputs plan.now waves.now) (suc cycle)) received.new) }
    ensures told { IfOk result (TellsCycle plan.now (outputs plan.now waves.now) cycle) }
{
    let order = order_of(alloc, epoch)?;
    let order = order.as_slice();
    let at = Setting {
        quantum: plan.quantum,
        first: cycle == u64::from(epoch.shape.first),
        epoch,
        before,
    };
    let mut now = Items::new(alloc);
    for i in 0..order.len() {
        let node = order[i];
        if let Some(known) = plan.nodes.as_slice().get(node as usize) {
            work(alloc, &at, &known.kind, waves, node, received, &mut now)?;
        }
    }
    Ok(now)
}

/// A list in which no node has received anything.
fn nothing_received(alloc: Global, count: usize) -> Result<Items<Received>, Memory>
    ensures { IfOk result (AreReceived count (λ node. nothing)) }
{
    let mut received = Items::new(alloc);
    while received.len() < count {
        received.push(Received {
            frames: 0,
            a: Items::new(alloc),
            b: Items::new(alloc),
        })?;
    }
    Ok(received)
}

/// The next cycle, which may lie in no epoch: then no node is active.
fn next_cycle(
    alloc: Global,
    plan: &Plan,
    waves: &[WavIn],
    cycle: u64,
    before: &[Given],
    received: &mut [Received],
) -> Result<Items<Given>, Memory>
    requires renderable { IsRenderable plan.now waves.now }
    requires before { TellsBefore plan.now (outputs plan.now waves.now) cycle before.now }
    requires received { AreReceived (length plan.now.nodes)
        (received_until plan.now (outputs plan.now waves.now) cycle) received.old }
    ensures received { OnOk result (AreReceived (length plan.now.nodes)
        (received_until plan.now (outputs plan.now waves.now) (suc cycle)) received.new) }
    ensures told { IfOk result (TellsCycle plan.now (outputs plan.now waves.now) cycle) }
{
    release(alloc, plan.epochs.as_slice(), cycle, received);
    match epoch_at(plan, cycle) {
        Some(epoch) => work_cycle(alloc, plan, waves, cycle, epoch, before, received),
        None => Ok(Items::new(alloc)),
    }
}

/// What each node has received after the last cycle.
pub(crate) fn all_received(
    alloc: Global,
    plan: &Plan,
    waves: &[WavIn],
) -> Result<Items<Received>, Memory>
    requires renderable { IsRenderable plan.now waves.now }
    ensures { IfOk result (AreReceived (length plan.now.nodes)
        (received_until plan.now (outputs plan.now waves.now) (all_cycles plan.now))) }
{
    let Some(cycles) = all_cycles(plan.epochs.as_slice()) else {
        return Err(Memory);
    };
    let mut received = nothing_received(alloc, plan.nodes.len())?;
    let mut before = Items::new(alloc);
    for cycle in 0..cycles {
        before = next_cycle(
            alloc,
            plan,
            waves,
            cycle,
            before.as_slice(),
            received.as_mut_slice(),
        )?;
    }
    Ok(received)
}
