//! What a run of a plan needs before its first cycle.
ghost use Rattle.std.specs.Prelude.{◌≡◌, ◌≤◌, All, IfOk, length};
ghost use Rattle.pw_graph.specs.SoundPlan.{IsSoundPlan};
ghost use Rattle.cycle_model.specs.WavesFit.{WavesFit};
ghost use Rattle.ready_queues.specs.Lanes.{loops_limit};
ghost use Rattle.steal_loops.specs.working.Cells.{AreCells};
ghost use Rattle.steal_loops.specs.working.Crews.{IsPrepared};
ghost use Rattle.steal_loops.specs.working.Claimants.{IsUnusedSeat, IsNewWorker, IsWorkersWay};

use crate::claimant::Claimant;
use crate::leading::Driving;
use crate::shared::Shared;
use crate::signs::Signs;
use data_loop::Way;
use graph_run::{OpenedRun, cell_seating, open_run, ways_of};
use node_progress::RunModel;
use pw_graph::Plan;
use pw_lists::{Items, Memory};
use std::alloc::Global;
use steal_shelf::{Shelf, ShelfSeat};
use wav_files::WavIn;

// What each worker takes cells with: a seat and a way for each.
fn claimants_of(
    alloc: Global,
    shared: &Shared,
    seats: Items<ShelfSeat>,
    ways: Items<Way>,
) -> Result<Items<Claimant>, Memory>
    requires cells { AreCells shared.now }
    requires seats { All (IsUnusedSeat shared.now.shelf) seats }
    requires ways { All (IsWorkersWay shared.now.ways) ways }
    requires count { length ways ≡ length seats }
    ensures workers { IfOk result (All (IsNewWorker shared.now)) }
    ensures count { IfOk result (λ claimants. length claimants ≡ length ways) }
{
    let cells = shared.seating.loops() as usize;
    let mut claimants = Items::new(alloc);
    let mut rest = ways.into_vec().into_iter();
    for seat in seats.into_vec() {
        if let Some(way) = rest.next() {
            let claimant = Claimant::new(alloc, seat, way, cells)?;
            claimants.push(claimant)?;
        }
    }
    Ok(claimants)
}

/// What a run begins with: what its threads share, what its workers take cells with, and what the
/// driver's thread has.
#[derive(Drop)]
pub(crate) struct Prepared {
    pub shared: Shared,
    pub workers: Items<Claimant>,
    pub driving: Driving,
}

/// What a run of a plan by `loops` workers begins with: boards, cells and queues. Each node that
/// never drives has a cell of its own; a node's number is sent to the queue of the worker of its
/// number, modulo the number of workers.
pub(crate) fn prepare(
    alloc: Global,
    plan: &Plan,
    waves: &Items<WavIn>,
    loops: u32,
) -> Result<Prepared, Memory>
    requires sound { IsSoundPlan plan.now }
    requires fit { WavesFit plan.now waves.now }
    requires few { loops ≤ loops_limit }
    ensures { IfOk result (IsPrepared plan.now waves.now loops) }
{
    let seating = cell_seating(alloc, plan)?;
    let OpenedRun {
        boards,
        drivers,
        loops: cells,
        own,
    } = open_run(alloc, plan, waves, &seating)?;
    let (ways, way, others) = ways_of(alloc, plan, loops)?;
    let (shelf, mut seats) = Shelf::new(alloc, cells, loops + 1)?;
    let seat = seats.pop().unwrap();
    let claimant = Claimant::new(alloc, seat, way, seating.loops() as usize)?;
    let signs = Signs::new(&seating);
    let shared = Shared {
        boards,
        ways,
        signs,
        shelf,
        seating,
        run_model: RunModel::of(plan, waves),
    };
    let workers = claimants_of(alloc, &shared, seats, others)?;
    Ok(Prepared {
        shared,
        workers,
        driving: Driving {
            own,
            drivers,
            claimant,
        },
    })
}
