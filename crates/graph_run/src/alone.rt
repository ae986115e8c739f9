//! A run of a plan by one thread.
ghost use Rattle.std.specs.Prelude.{◌≡◌, IfOk};
ghost use Rattle.pw_graph.specs.SoundPlan.{IsSoundPlan};
ghost use Rattle.cycle_model.specs.WavesFit.{WavesFit};
ghost use Rattle.graph_run.specs.RunStates.{IsAloneRun, CanRunAlone, HasRunAlone};

use crate::ended::EndedRun;
use crate::leading::{Driving, Led, drive};
use crate::preparing::{Prepared, prepare};
use crate::rooms::{Rooms, rooms_for};
use crate::shared::Shared;
use data_loop::LoopState;
use pw_graph::Plan;
use pw_lists::{Items, Memory, Room};
use pw_outside::{Gate, Never};
use std::alloc::Global;
use std::sync::Wait;
use wav_files::WavIn;

/// A run of a plan by one thread, before its first cycle, with all the memory that it takes: the
/// boards, the driver's own loop, which has all nodes, and room for what is answered. It may cross
/// threads.
#[derive(Drop)]
pub struct AloneRun {
    pub(crate) shared: Shared,
    pub(crate) driving: Driving,
    pub(crate) done: Room<LoopState>,
    pub(crate) rooms: Rooms,
}

/// All that a run of a plan by one thread takes, before its first cycle. There is no loop beside
/// the driver's own, to which each node belongs.
///
/// Memory: a board an epoch, the states of all nodes with the streams of the sinks, and all events.
/// Condition: the plan with its waves is sound.
pub fn prepare_alone(alloc: Global, plan: &Plan, waves: &Items<WavIn>) -> Result<AloneRun, Memory>
    requires sound { IsSoundPlan plan.now }
    requires fit { WavesFit plan.now waves.now }
    ensures { IfOk result (IsAloneRun plan.now waves.now) }
{
    let done = Items::new(alloc).into_room(1)?;
    let rooms = rooms_for(alloc, plan)?;
    let Prepared {
        shared,
        driving,
        ..
    } = prepare(alloc, plan, waves, 0)?;
    Ok(AloneRun {
        shared,
        driving,
        done,
        rooms,
    })
}

/// All epochs of a run, by the caller's thread, which drives. No check is made, so that no Tick is
/// in the history. It may wait. Takes no memory.
/// Condition: the run is as `prepare_alone` answered it.
pub fn run_alone<R: Wait, G: Gate>(rt: &R, alloc: Global, gate: &G, run: AloneRun) -> EndedRun
    requires { CanRunAlone run }
    ensures { HasRunAlone run result }
{
    let AloneRun {
        shared,
        driving,
        mut done,
        rooms,
    } = run;
    let Led { own, drivers, .. } = drive(
        rt,
        gate,
        &shared,
        driving,
        Items::new(alloc),
        &mut Never::new(),
    );
    done.push_spare(own);
    EndedRun {
        boards: shared.boards,
        drivers,
        done: done.into_items(),
        rooms,
    }
}
