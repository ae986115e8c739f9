//! What a run of a plan needs before its first cycle.
ghost use Rattle.std.specs.Prelude.{◌≡◌, ◌≤◌, IfOk, length, map};
ghost use Rattle.pw_graph.specs.SoundPlan.{IsSoundPlan};
ghost use Rattle.cycle_model.specs.WavesFit.{WavesFit};
ghost use Rattle.ready_queues.specs.Lanes.{loops_limit};
ghost use Rattle.graph_run.specs.working.Prepared.{IsPrepared};

use crate::leading::Driving;
use crate::opening::{OpenedRun, open_run};
use crate::seating::loop_seating;
use crate::shared::{LoopWay, Shared};
use crate::ways::ways_of;
use data_loop::{LoopState, Way};
use node_progress::RunModel;
use pw_graph::Plan;
use pw_lists::{Items, Memory};
use std::alloc::Global;
use wav_files::WavIn;

// Each loop with its way.
fn loop_ways(
    alloc: Global,
    states: Items<LoopState>,
    ways: Items<Way>,
) -> Result<Items<LoopWay>, Memory>
    requires { length ways ≡ length states }
    ensures states { IfOk result (λ all. map (λ given. given.state) all ≡ states) }
    ensures ways { IfOk result (λ all. map (λ given. given.way) all ≡ ways) }
{
    let mut all = Items::new(alloc);
    let mut rest = ways.into_vec().into_iter();
    for state in states.into_vec() {
        if let Some(way) = rest.next() {
            all.push(LoopWay { state, way })?;
        }
    }
    Ok(all)
}

/// What a run begins with: what its threads share, the loops, and what the driver's thread has.
#[derive(Drop)]
pub(crate) struct Prepared {
    pub shared: Shared,
    pub loops: Items<LoopWay>,
    pub driving: Driving,
}

/// What a run of a plan by `loops` loops begins with: boards, loops and queues.
pub(crate) fn prepare(
    alloc: Global,
    plan: &Plan,
    waves: &Items<WavIn>,
    loops: u32,
) -> Result<Prepared, Memory>
    requires sound { IsSoundPlan plan.now }
    requires fit { WavesFit plan.now waves.now }
    requires few { loops ≤ loops_limit }
    ensures { IfOk result (IsPrepared plan.now waves.now loops) }
{
    let seating = loop_seating(alloc, plan, loops)?;
    let OpenedRun {
        boards,
        drivers,
        loops: states,
        own,
    } = open_run(alloc, plan, waves, &seating)?;
    let (ways, way, others) = ways_of(alloc, plan, loops)?;
    let loops = loop_ways(alloc, states, others)?;
    Ok(Prepared {
        shared: Shared {
            boards,
            ways,
            run_model: RunModel::of(plan, waves),
        },
        loops,
        driving: Driving { own, drivers, way },
    })
}
