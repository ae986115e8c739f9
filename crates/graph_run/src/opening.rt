//! The boards and the loops of a plan.
ghost use Rattle.std.specs.Prelude.{IfOk};
ghost use Rattle.pw_graph.specs.SoundPlan.{IsSoundPlan};
ghost use Rattle.cycle_model.specs.WavesFit.{WavesFit};
ghost use Rattle.graph_run.specs.OpenedRun.{IsOpenedRun};
ghost use Rattle.graph_run.specs.Seating.{IsSeatingOf};

use crate::boards::boards_with_pools;
use crate::loops::loops_with_pools;
use crate::seating::Seating;
use board_rule::{Board, DriverSeat};
use data_loop::{LoopState, pools_in};
use pw_graph::Plan;
use pw_lists::{Items, Memory};
use std::alloc::Global;
use wav_files::WavIn;

/// A plan before its first cycle: the boards of all epochs with the drivers' seats, the loops in
/// the order of their seats, and the driver's own loop.
#[derive(Drop)]
pub struct OpenedRun {
    pub boards: Items<Board>,
    pub drivers: Items<DriverSeat>,
    pub loops: Items<LoopState>,
    pub own: LoopState,
}

/// The boards of all epochs of a plan and its loops, each with the nodes that the seating has on
/// its seat.
///
/// Memory: a board an epoch, with a seat for each loop, and a state for each node with the streams
/// of the sinks; while they are made, the pools of each epoch once more.
pub fn open_run(
    alloc: Global,
    plan: &Plan,
    waves: &Items<WavIn>,
    seating: &Seating,
) -> Result<OpenedRun, Memory>
    requires sound { IsSoundPlan plan.now }
    requires fit { WavesFit plan.now waves.now }
    requires seating { IsSeatingOf plan.now seating.now }
    ensures { IfOk result (IsOpenedRun plan.now waves.now seating.now) }
{
    let pools = pools_in(alloc, plan)?;
    let pools = pools.as_slice();
    let all = boards_with_pools(alloc, plan, waves, seating, pools)?;
    let mut loops = loops_with_pools(alloc, plan, waves, seating, pools, all.seats)?;
    let own = loops.pop().unwrap();
    Ok(OpenedRun {
        boards: all.boards,
        drivers: all.drivers,
        loops,
        own,
    })
}
