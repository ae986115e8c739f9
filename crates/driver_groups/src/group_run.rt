//! Runs of several plans at once.
ghost use Rattle.std.specs.Prelude.{◌≡◌, ◌∷◌, All, IfOk};
ghost use Rattle.pw_graph.specs.SoundPlan.{IsSoundPlan};
ghost use Rattle.cycle_model.specs.WavesFit.{WavesFit};
ghost use Rattle.driver_groups.specs.GroupRun.{AreRunsOf};
ghost use Rattle.driver_groups.specs.working.Groups.{IsCrewOf};

use crate::crew::{LeadStart, PlacedRun, Shared};
use crate::finishing::finish_all;
use crate::preparing::{count_epochs, prepare_all};
use board_rule::Closed;
use crew_run::{Handle, Places, places_for, run};
use graph_run::{AnyStarts, EndedRun, Starts, prepare_alone};
use pw_graph::Part;
use pw_lists::{Items, Memory, Room};
use pw_outside::{Gate, Never};
use std::alloc::Global;
use std::sync::Wait;
use std::thread::Threads;
use wav_files::{Outcome, WavIn};

/// All that the runs of parts take: what the caller's thread leads with, the runs of the other
/// parts, of which none is named, their places, and room for what is answered.
#[derive(Drop)]
pub(crate) struct Crew {
    pub lead: LeadStart,
    pub others: Items<PlacedRun>,
    pub named: Items<bool>,
    pub places: Places<PlacedRun, EndedRun, Handle<PlacedRun, EndedRun, Shared>>,
    pub outcomes: Room<Outcome>,
    pub closed: Room<Closed>,
}

// What the runs of parts begin with, of which one is the first. `Memory` also where the number of
// their epochs does not fit.
fn crew_of(
    alloc: Global,
    parts: &[Part],
    head: &Part,
    tail: &[Part],
    waves: &Items<WavIn>,
) -> Result<Crew, Memory>
    requires parts { parts.now ≡ head.now ∷ tail.now }
    requires sound { All (λ p. IsSoundPlan p.plan) parts.now }
    requires fit { All (λ p. WavesFit p.plan waves.now) parts.now }
    ensures { IfOk result (IsCrewOf waves.now parts.now) }
{
    let Some(epochs) = count_epochs(parts) else {
        return Err(Memory);
    };
    let outcomes = Items::new(alloc).into_room(parts.len())?;
    let closed = Items::new(alloc).into_room(epochs)?;
    let waited = Items::new(alloc).into_room(tail.len())?;
    let ended = Items::new(alloc).into_room(parts.len())?;
    let named = Items::filled(alloc, tail.len(), false)?;
    let places = places_for(alloc, tail.len())?;
    let first = prepare_alone(alloc, &head.plan, waves)?;
    let others = prepare_all(alloc, tail, waves)?;
    Ok(Crew {
        lead: LeadStart {
            first,
            waited,
            ended,
        },
        others,
        named,
        places,
        outcomes,
        closed,
    })
}

// Runs the parts of a crew. Takes no memory but for the threads.
fn run_crew<R: Threads + Wait + Sync, G: Gate + Sync, S: Starts>(
    rt: &R,
    alloc: Global,
    parts: &[Part],
    waves: &Items<WavIn>,
    gate: &G,
    starts: &S,
    crew: Crew,
) -> (Items<Outcome>, Items<Closed>)
    requires sound { All (λ p. IsSoundPlan p.plan) parts.now }
    requires fit { All (λ p. WavesFit p.plan waves.now) parts.now }
    requires crew { IsCrewOf waves.now parts.now crew }
    ensures { AreRunsOf waves.now parts.now result.0 result.1 }
{
    let Crew {
        lead,
        others,
        named,
        places,
        outcomes,
        closed,
    } = crew;
    let (shared, adopt) = (Shared { alloc }, named.as_slice());
    let mut never = Never::new();
    let ended = run(
        rt, gate, &shared, starts, adopt, others, lead, places, &mut never,
    );
    finish_all(alloc, parts, waves, ended, outcomes, closed)
}

/// Runs the plans of all parts at once as `run_parts` does, where `starts` refuses the starts of
/// parts too. It is asked of each part but the first, by its place in the list, from 1 on.
pub fn run_parts_with<R: Threads + Wait + Sync, G: Gate + Sync, S: Starts>(
    rt: &R,
    alloc: Global,
    parts: &Items<Part>,
    waves: &Items<WavIn>,
    gate: &G,
    starts: &S,
) -> Result<(Items<Outcome>, Items<Closed>), Memory>
    requires sound { All (λ p. IsSoundPlan p.plan) parts.now }
    requires fit { All (λ p. WavesFit p.plan waves.now) parts.now }
    ensures { IfOk result (λ r. AreRunsOf waves.now parts.now r.0 r.1) }
{
    match parts.as_slice().split_first() {
        None => Ok((Items::new(alloc), Items::new(alloc))),
        Some((head, tail)) => {
            let crew = crew_of(alloc, parts.as_slice(), head, tail, waves)?;
            Ok(run_crew(rt, alloc, parts.as_slice(), waves, gate, starts, crew))
        }
    }
}

/// Runs the plans of all parts at once, each on its own boards: the first by the caller's thread,
/// each other in a thread of its own, or after the first where its start is refused. It answers
/// what the sinks and meters of each have kept and what happened in it, in the order of the parts,
/// and the closed boards of all, one part after the other.
///
/// All memory is taken before the first cycle. It may wait.
pub fn run_parts<R: Threads + Wait + Sync, G: Gate + Sync>(
    rt: &R,
    alloc: Global,
    parts: &Items<Part>,
    waves: &Items<WavIn>,
    gate: &G,
) -> Result<(Items<Outcome>, Items<Closed>), Memory>
    requires sound { All (λ p. IsSoundPlan p.plan) parts.now }
    requires fit { All (λ p. WavesFit p.plan waves.now) parts.now }
    ensures { IfOk result (λ r. AreRunsOf waves.now parts.now r.0 r.1) }
{
    run_parts_with(rt, alloc, parts, waves, gate, &AnyStarts::new())
}
