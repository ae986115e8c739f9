//! A whole run of a plan by loops that steal.
ghost use Rattle.std.specs.Prelude.{◌≡◌, ◌≤◌, All, IfOk, length};
ghost use Rattle.pw_graph.specs.SoundPlan.{IsSoundPlan};
ghost use Rattle.wav_files.specs.WavWriting.{IsWave};
ghost use Rattle.cycle_model.specs.Rendering.{rendered_sinks, rendered_peaks};
ghost use Rattle.cycle_model.specs.WavesFit.{WavesFit};
ghost use Rattle.ready_queues.specs.Lanes.{loops_limit};
ghost use Rattle.graph_run.specs.Assignment.{cell_number, cell_count};
ghost use Rattle.graph_run.specs.PlanRun.{IsRunOf};

use crate::counts::RunCounts;
use crate::crew::{EndedCells, LeadState};
use crate::preparing::{Prepared, prepare};
use board_rule::Closed;
use crew_run::{places_for, run};
use graph_run::{AnyStarts, EndedRun, Roster, Starts, finish_run, rooms_for};
use pw_graph::Plan;
use pw_lists::{Items, Memory};
use pw_outside::{Gate, Ticker};
use std::alloc::Global;
use std::sync::Wait;
use std::thread::Threads;
use wav_files::{Outcome, WavIn};

/// Runs a plan as `run_stealing_with` does. It answers the same, and what the threads counted, of
/// which no clause says anything: where no worker is started, it is the same each time.
pub fn run_stealing_counted<R: Threads + Wait + Sync, G: Gate + Sync, K: Ticker, S: Starts>(
    rt: &R,
    alloc: Global,
    plan: &Plan,
    waves: &Items<WavIn>,
    roster: &Roster<'_, S>,
    gate: &G,
    ticker: &mut K,
) -> Result<(Outcome, Items<Closed>, RunCounts), Memory>
    requires sound { IsSoundPlan plan.now }
    requires fit { WavesFit plan.now waves.now }
    requires few { roster.now.loops ≤ loops_limit }
    requires adopt { length roster.now.adopt.now ≡ roster.now.loops }
    ensures sinks { IfOk result (λ r. r.0.sinks ≡ rendered_sinks plan.now waves.now) }
    ensures peaks { IfOk result (λ r. r.0.peaks ≡ rendered_peaks plan.now waves.now) }
    // Each node that never drives is on a seat that no other has.
    ensures run { IfOk result (λ r. IsRunOf plan.now waves.now
        (cell_number plan.now) (cell_count plan.now) r.0.history r.1
        (K.ticks ticker.old) (K.ticks ticker.new)) }
    // What the sinks keep can be written as WAV files.
    ensures waves { IfOk result (λ r. All (λ kept. IsWave kept.wav) r.0.sinks) }
    ensures later { K.ticks ticker.old ≤ K.ticks ticker.new }
{
    let rooms = rooms_for(alloc, plan)?;
    let places = places_for(alloc, roster.loops as usize)?;
    let Prepared {
        shared,
        workers,
        driving,
    } = prepare(alloc, plan, waves, roster.loops)?;
    let done = Items::new(alloc).into_room(shared.seating.loops() as usize + 1)?;
    let (starts, adopt) = (roster.starts, roster.adopt);
    let EndedCells {
        done,
        drivers,
        counts,
    } = run(
        rt,
        gate,
        &shared,
        starts,
        adopt,
        workers,
        LeadState { driving, done },
        places,
        ticker,
    );
    let ended = EndedRun::new(shared.boards, drivers, done, rooms);
    let (outcome, closed) = finish_run(alloc, plan, waves, ended);
    Ok((outcome, closed, counts))
}

/// Runs a plan as `run_stealing` does, by the workers of the roster, which refuses starts of its
/// own. It answers the same, and how many numbers the workers took out of their queues in all, of
/// which no clause says anything.
pub fn run_stealing_with<R: Threads + Wait + Sync, G: Gate + Sync, K: Ticker, S: Starts>(
    rt: &R,
    alloc: Global,
    plan: &Plan,
    waves: &Items<WavIn>,
    roster: &Roster<'_, S>,
    gate: &G,
    ticker: &mut K,
) -> Result<(Outcome, Items<Closed>, u64), Memory>
    requires sound { IsSoundPlan plan.now }
    requires fit { WavesFit plan.now waves.now }
    requires few { roster.now.loops ≤ loops_limit }
    requires adopt { length roster.now.adopt.now ≡ roster.now.loops }
    ensures sinks { IfOk result (λ r. r.0.sinks ≡ rendered_sinks plan.now waves.now) }
    ensures peaks { IfOk result (λ r. r.0.peaks ≡ rendered_peaks plan.now waves.now) }
    // Each node that never drives is on a seat that no other has.
    ensures run { IfOk result (λ r. IsRunOf plan.now waves.now
        (cell_number plan.now) (cell_count plan.now) r.0.history r.1
        (K.ticks ticker.old) (K.ticks ticker.new)) }
    // What the sinks keep can be written as WAV files.
    ensures waves { IfOk result (λ r. All (λ kept. IsWave kept.wav) r.0.sinks) }
    ensures later { K.ticks ticker.old ≤ K.ticks ticker.new }
{
    let (outcome, closed, counts) = run_stealing_counted(
        rt, alloc, plan, waves, roster, gate, ticker,
    )?;
    Ok((outcome, closed, counts.taken))
}

/// Runs a plan on boards, one an epoch, by the caller's thread, which drives, and by `loops`
/// workers beside it, each in a thread of its own: any thread runs any node that is triggered and
/// never drives. A worker that `adopt` names, or whose start is refused, is not started; the
/// others run all nodes, and the driver's thread does where there is none. It answers what the
/// sinks and meters have kept, what happened, and the closed boards.
///
/// Workers do not rest: each uses a processor until all nodes have ended, which it yields where
/// there is nothing to do. All memory is taken before the first cycle. It may wait.
/// Condition: the plan with its waves is sound, there are at most 16 loops, and `adopt` has an
/// entry for each.
pub fn run_stealing<R: Threads + Wait + Sync, G: Gate + Sync, K: Ticker>(
    rt: &R,
    alloc: Global,
    plan: &Plan,
    waves: &Items<WavIn>,
    loops: u32,
    adopt: &[bool],
    gate: &G,
    ticker: &mut K,
) -> Result<(Outcome, Items<Closed>), Memory>
    requires sound { IsSoundPlan plan.now }
    requires fit { WavesFit plan.now waves.now }
    requires few { loops ≤ loops_limit }
    requires adopt { length adopt.now ≡ loops }
    ensures sinks { IfOk result (λ r. r.0.sinks ≡ rendered_sinks plan.now waves.now) }
    ensures peaks { IfOk result (λ r. r.0.peaks ≡ rendered_peaks plan.now waves.now) }
    // Each node that never drives is on a seat that no other has.
    ensures run { IfOk result (λ r. IsRunOf plan.now waves.now
        (cell_number plan.now) (cell_count plan.now) r.0.history r.1
        (K.ticks ticker.old) (K.ticks ticker.new)) }
    // What the sinks keep can be written as WAV files.
    ensures waves { IfOk result (λ r. All (λ kept. IsWave kept.wav) r.0.sinks) }
    ensures later { K.ticks ticker.old ≤ K.ticks ticker.new }
{
    let starts = AnyStarts::new();
    let roster = Roster {
        loops,
        adopt,
        starts: &starts,
    };
    let (outcome, closed, _taken) = run_stealing_with(
        rt, alloc, plan, waves, &roster, gate, ticker,
    )?;
    Ok((outcome, closed))
}
