//! What the runs of parts answer.
ghost use Rattle.std.specs.Prelude.{◌≡◌, ◌+◌, ◌++◌, ◌≤◌, [], List, All, length};
ghost use Rattle.std.specs.List.{AllZip};
ghost use Rattle.pw_graph.specs.SoundPlan.{IsSoundPlan};
ghost use Rattle.cycle_model.specs.WavesFit.{WavesFit};
ghost use Rattle.driver_groups.specs.working.Groups.{IsEndedPart, epochs_of};
ghost use Rattle.driver_groups.specs.GroupRun.{IsPartRun, AreRunsOf};

use board_rule::Closed;
use graph_run::{EndedRun, finish_run};
use pw_graph::{Part, Plan};
use pw_lists::{Items, Room};
use std::alloc::Global;
use wav_files::{Outcome, WavIn};

// Appends closed boards. Takes no memory.
fn append(all: &mut Room<Closed>, closed: Items<Closed>)
    requires { length closed ≤ all.old.spare }
    ensures list { all.new.list ≡ all.old.list ++ closed }
    ensures spare { all.new.spare + length closed ≡ all.old.spare }
{
    for board in closed.into_vec() {
        all.push_spare(board);
    }
}

// The end of one part: its closed boards are appended. Takes no memory.
fn finish_one(
    alloc: Global,
    plan: &Plan,
    waves: &Items<WavIn>,
    ended: EndedRun,
    closed: &mut Room<Closed>,
) -> Outcome
    requires sound { IsSoundPlan plan.now }
    requires fit { WavesFit plan.now waves.now }
    requires ended { IsEndedPart waves.now plan.now ended }
    requires room { length plan.now.epochs ≤ closed.old.spare }
    ensures run { (own : List Closed) × (closed.new.list ≡ closed.old.list ++ own)
        × IsPartRun plan.now waves.now result own }
    ensures spare { closed.new.spare + length plan.now.epochs ≡ closed.old.spare }
{
    let (outcome, own) = finish_run(alloc, plan, waves, ended);
    append(closed, own);
    outcome
}

/// The end of all parts, in their order. Both lists are empty, and have room for all. Takes no
/// memory.
pub(crate) fn finish_all(
    alloc: Global,
    parts: &[Part],
    waves: &Items<WavIn>,
    ended: Items<EndedRun>,
    outcomes: Room<Outcome>,
    closed: Room<Closed>,
) -> (Items<Outcome>, Items<Closed>)
    requires sound { All (λ p. IsSoundPlan p.plan) parts.now }
    requires fit { All (λ p. WavesFit p.plan waves.now) parts.now }
    requires ended { AllZip (λ p e. IsEndedPart waves.now p.plan e) parts.now ended }
    requires empty { (outcomes.list ≡ []) × (closed.list ≡ []) }
    requires outcomes { length parts.now ≤ outcomes.spare }
    requires closed { epochs_of parts.now ≤ closed.spare }
    ensures { AreRunsOf waves.now parts.now result.0 result.1 }
{
    let mut outcomes = outcomes;
    let mut closed = closed;
    let mut k = 0;
    for run in ended.into_vec() {
        outcomes.push_spare(finish_one(alloc, &parts[k].plan, waves, run, &mut closed));
        k += 1;
    }
    (outcomes.into_items(), closed.into_items())
}
