//! The loops of a run.
ghost use Rattle.std.specs.Prelude.{◌≡◌, ◌<◌, ◌≤◌, ◌+◌, All, IfOk, length, map};
ghost use Rattle.std.specs.List.{AllZip};
ghost use Rattle.pw_lists.specs.Limits.{nodes_limit};
ghost use Rattle.pw_graph.specs.SoundPlan.{IsSoundPlan};
ghost use Rattle.cycle_model.specs.WavesFit.{WavesFit};
ghost use Rattle.data_loop.specs.Drafts.{HasAll, LacksEpochs};
ghost use Rattle.data_loop.specs.Loops.{IsBetweenEpochs};
ghost use Rattle.data_loop.specs.PlanPools.{pools_in};
ghost use Rattle.graph_run.specs.Loops.{AreLoopsOf, AreReadyOnBoards};
ghost use Rattle.graph_run.specs.Seating.{IsSeatingOf, holder_of};
ghost use Rattle.graph_run.specs.working.Drafts.{AreDrafts, AreGrown, IsLoopFrom};

use crate::seating::{Seating, nodes_of_loop};
use board_rule::LoopSeat;
use data_loop::{LoopDraft, LoopState, links_in, pools_in};
use pw_graph::{Plan, PoolShape};
use pw_lists::{Items, Memory, Room};
use std::alloc::Global;
use wav_files::WavIn;

// The loops of a plan without an epoch, in the order of their seats.
fn drafts_of(
    alloc: Global,
    plan: &Plan,
    seating: &Seating,
    seats: Vec<Room<LoopSeat>>,
) -> Result<Vec<LoopDraft>, Memory>
    requires few { length plan.now.nodes ≤ nodes_limit }
    requires seating { IsSeatingOf plan.now seating.now }
    requires count { length seats.items ≡ seating.now.loops + 1 }
    ensures { IfOk result (λ drafts. AreDrafts plan.now (holder_of seating.now)
        (map (λ row. row.list) seats.items) 0 drafts.items) }
{
    let mut drafts = Items::new(alloc);
    let mut which = 0;
    for row in seats {
        let nodes = nodes_of_loop(alloc, plan, seating, which)?;
        drafts.push(LoopDraft::new(alloc, nodes, row.into_items())?)?;
        which += 1;
    }
    Ok(drafts.into_vec())
}

// Adds the epoch to each loop, which has all before it. Its links are dealt once.
fn add_epoch(
    alloc: Global,
    plan: &Plan,
    epoch: usize,
    pools: &[Items<PoolShape>],
    drafts: &mut Vec<LoopDraft>,
) -> Result<(), Memory>
    requires sound { IsSoundPlan plan.now }
    requires inside { epoch < length plan.now.epochs }
    requires next { All (λ d. length d.epoch_states ≡ epoch) drafts.old.items }
    requires pools { pools.now ≡ pools_in plan.now }
    requires lack { All (LacksEpochs plan.now) drafts.old.items }
    ensures { IfOk result (λ _. AreGrown plan.now (length drafts.old.items) drafts.old.items
        drafts.new.items) }
{
    let links = links_in(alloc, plan, epoch)?;
    for i in 0..drafts.len() {
        drafts[i].add_epoch(alloc, plan, pools, &links)?;
    }
    Ok(())
}

// The loops that have all epochs.
fn finish_all(
    alloc: Global,
    plan: &Plan,
    waves: &Items<WavIn>,
    drafts: Vec<LoopDraft>,
) -> Result<Items<LoopState>, Memory>
    requires sound { IsSoundPlan plan.now }
    requires fit { WavesFit plan.now waves.now }
    requires all { All (HasAll plan.now) drafts.items }
    ensures between { IfOk result (All IsBetweenEpochs) }
    ensures of { IfOk result (AllZip (IsLoopFrom plan.now waves.now) drafts.items) }
{
    let mut states = Items::new(alloc);
    for draft in drafts {
        states.push(draft.finish(alloc, plan, waves)?)?;
    }
    Ok(states)
}

/// The loops of a plan before the first epoch, in the order of their seats, and last the driver's
/// own. Each has the nodes that the seating has on its seat, and its seats, one an epoch, in order.
/// After `Memory` all seats are dropped.
///
/// Memory: a state for each node of the plan, and for each epoch its pools with their free blocks,
/// and a place for each in each loop; while the loops are made, the pools once more.
pub fn loops_of(
    alloc: Global,
    plan: &Plan,
    waves: &Items<WavIn>,
    seating: &Seating,
    seats: Vec<Room<LoopSeat>>,
) -> Result<Items<LoopState>, Memory>
    requires sound { IsSoundPlan plan.now }
    requires fit { WavesFit plan.now waves.now }
    requires seating { IsSeatingOf plan.now seating.now }
    requires count { length seats.items ≡ seating.now.loops + 1 }
    requires seats { All (λ row. length row.list ≡ length plan.now.epochs) seats.items }
    ensures between { IfOk result (All IsBetweenEpochs) }
    ensures of { IfOk result
        (AreLoopsOf plan.now waves.now (holder_of seating.now)
        (map (λ row. row.list) seats.items)) }
    // With the seats of the plan's boards, each loop is ready to run on them, and the driver's own
    // has all drivers.
    ensures ready { IfOk result
        (AreReadyOnBoards plan.now waves.now seating.now (map (λ row. row.list) seats.items)) }
{
    let pools = pools_in(alloc, plan)?;
    loops_with_pools(alloc, plan, waves, seating, pools.as_slice(), seats)
}

/// As `loops_of`, with the pools of each epoch.
pub fn loops_with_pools(
    alloc: Global,
    plan: &Plan,
    waves: &Items<WavIn>,
    seating: &Seating,
    pools: &[Items<PoolShape>],
    seats: Vec<Room<LoopSeat>>,
) -> Result<Items<LoopState>, Memory>
    requires sound { IsSoundPlan plan.now }
    requires fit { WavesFit plan.now waves.now }
    requires seating { IsSeatingOf plan.now seating.now }
    requires pools { pools.now ≡ pools_in plan.now }
    requires count { length seats.items ≡ seating.now.loops + 1 }
    requires seats { All (λ row. length row.list ≡ length plan.now.epochs) seats.items }
    ensures between { IfOk result (All IsBetweenEpochs) }
    ensures of { IfOk result
        (AreLoopsOf plan.now waves.now (holder_of seating.now)
        (map (λ row. row.list) seats.items)) }
    // With the seats of the plan's boards, each loop is ready to run on them, and the driver's own
    // has all drivers.
    ensures ready { IfOk result
        (AreReadyOnBoards plan.now waves.now seating.now (map (λ row. row.list) seats.items)) }
{
    let mut drafts = drafts_of(alloc, plan, seating, seats)?;
    for epoch in 0..plan.epochs.len() {
        add_epoch(alloc, plan, epoch, pools, &mut drafts)?;
    }
    let states = finish_all(alloc, plan, waves, drafts)?;
    Ok(states)
}
