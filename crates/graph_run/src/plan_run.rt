//! A whole run of a plan.
ghost use Rattle.std.specs.Prelude.{◌≡◌, ◌≤◌, All, IfOk, length};
ghost use Rattle.pw_graph.specs.SoundPlan.{IsSoundPlan};
ghost use Rattle.wav_files.specs.WavWriting.{IsWave};
ghost use Rattle.cycle_model.specs.Rendering.{rendered_sinks, rendered_peaks};
ghost use Rattle.cycle_model.specs.WavesFit.{WavesFit};
ghost use Rattle.ready_queues.specs.Lanes.{loops_limit};
ghost use Rattle.graph_run.specs.Assignment.{loop_of};
ghost use Rattle.graph_run.specs.PlanRun.{IsRunOf};

use crate::crew::{EndedLoops, LeadStart};
use crate::ended::{EndedRun, finish_run};
use crate::preparing::{Prepared, prepare};
use crate::rooms::rooms_for;
use board_rule::Closed;
use crew_run::{AnyStarts, Roster, Starts, places_for, run};
use pw_graph::Plan;
use pw_lists::{Items, Memory};
use pw_outside::{Gate, Ticker};
use std::alloc::Global;
use std::sync::Wait;
use std::thread::Threads;
use wav_files::{Outcome, WavIn};

/// Runs a plan on boards, one an epoch, by the caller's thread, which drives, and by the threads of
/// the roster beside it. A loop that it names, or whose start is refused, by the system or by the
/// roster, is run by the driver's thread. It answers what the sinks and meters have kept, what
/// happened, and the closed boards.
///
/// All memory is taken before the first cycle. It may wait.
/// Condition: the plan with its waves is sound, the roster has at most 16 loops, and its `adopt` an
/// entry for each.
pub fn run_plan_with<R: Threads + Wait + Sync, G: Gate + Sync, K: Ticker, S: Starts>(
    rt: &R,
    alloc: Global,
    plan: &Plan,
    waves: &Items<WavIn>,
    roster: &Roster<'_, S>,
    gate: &G,
    ticker: &mut K,
) -> Result<(Outcome, Items<Closed>), Memory>
    requires sound { IsSoundPlan plan.now }
    requires fit { WavesFit plan.now waves.now }
    requires few { roster.now.loops ≤ loops_limit }
    requires adopt { length roster.now.adopt.now ≡ roster.now.loops }
    ensures sinks { IfOk result (λ r. r.0.sinks ≡ rendered_sinks plan.now waves.now) }
    ensures peaks { IfOk result (λ r. r.0.peaks ≡ rendered_peaks plan.now waves.now) }
    // Each node is on the seat of its loop.
    ensures run { IfOk result (λ r. IsRunOf plan.now waves.now
        (loop_of plan.now roster.now.loops) roster.now.loops r.0.history r.1
        (K.ticks ticker.old) (K.ticks ticker.new)) }
    // What the sinks keep can be written as WAV files.
    ensures waves { IfOk result (λ r. All (λ kept. IsWave kept.wav) r.0.sinks) }
    ensures later { K.ticks ticker.old ≤ K.ticks ticker.new }
{
    let places = places_for(alloc, roster.loops as usize)?;
    let adopted = Items::new(alloc).into_room(roster.loops as usize)?;
    let done = Items::new(alloc).into_room(roster.loops as usize + 1)?;
    let rooms = rooms_for(alloc, plan)?;
    let Prepared {
        shared,
        loops: others,
        driving,
    } = prepare(alloc, plan, waves, roster.loops)?;
    let lead = LeadStart {
        driving,
        adopted,
        done,
    };
    let (starts, adopt) = (roster.starts, roster.adopt);
    let EndedLoops { done, drivers } = run(
        rt, gate, &shared, starts, adopt, others, lead, places, ticker,
    );
    let ended = EndedRun {
        boards: shared.boards,
        drivers,
        done,
        rooms,
    };
    Ok(finish_run(alloc, plan, waves, ended))
}

/// Runs a plan on boards, one an epoch, by the caller's thread, which drives, and by `loops`
/// threads beside it. A loop that `adopt` names, or whose start is refused, is run by the driver's
/// thread. It answers what the sinks and meters have kept, what happened, and the closed boards.
///
/// All memory is taken before the first cycle. It may wait.
/// Condition: the plan with its waves is sound, there are at most 16 loops, and `adopt` has an
/// entry for each.
pub fn run_plan<R: Threads + Wait + Sync, G: Gate + Sync, K: Ticker>(
    rt: &R,
    alloc: Global,
    plan: &Plan,
    waves: &Items<WavIn>,
    loops: u32,
    adopt: &[bool],
    gate: &G,
    ticker: &mut K,
) -> Result<(Outcome, Items<Closed>), Memory>
    requires sound { IsSoundPlan plan.now }
    requires fit { WavesFit plan.now waves.now }
    requires few { loops ≤ loops_limit }
    requires adopt { length adopt.now ≡ loops }
    ensures sinks { IfOk result (λ r. r.0.sinks ≡ rendered_sinks plan.now waves.now) }
    ensures peaks { IfOk result (λ r. r.0.peaks ≡ rendered_peaks plan.now waves.now) }
    // Each node is on the seat of its loop.
    ensures run { IfOk result (λ r. IsRunOf plan.now waves.now (loop_of plan.now loops) loops
        r.0.history r.1 (K.ticks ticker.old) (K.ticks ticker.new)) }
    // What the sinks keep can be written as WAV files.
    ensures waves { IfOk result (λ r. All (λ kept. IsWave kept.wav) r.0.sinks) }
    ensures later { K.ticks ticker.old ≤ K.ticks ticker.new }
{
    let starts = AnyStarts::new();
    let roster = Roster {
        loops,
        adopt,
        starts: &starts,
    };
    run_plan_with(rt, alloc, plan, waves, &roster, gate, ticker)
}
