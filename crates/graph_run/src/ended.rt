//! A run after its last cycle, and what it answers.
ghost use Rattle.std.specs.Prelude.{◌≡◌, ◌≤◌, ℕ, All, length, map, count_by};
ghost use Rattle.std.specs.List.{AllZip};
ghost use Rattle.pw_graph.specs.History.{is_tick};
ghost use Rattle.pw_lists.specs.Limits.{dummy_node};
ghost use Rattle.pw_graph.specs.SoundPlan.{IsSoundPlan};
ghost use Rattle.wav_files.specs.WavWriting.{IsWave};
ghost use Rattle.cycle_model.specs.Rendering.{rendered_sinks, rendered_peaks};
ghost use Rattle.cycle_model.specs.WavesFit.{WavesFit};
ghost use Rattle.board_rule.specs.events.Closing.{expected};
ghost use Rattle.graph_run.specs.Closing.{HasEnded, events_on, AreClosedOf, events_in, IsLegalOn};
ghost use Rattle.graph_run.specs.Leads.{checks_of};
ghost use Rattle.graph_run.specs.Outcomes.{AreDone};
ghost use Rattle.graph_run.specs.PlanRun.{IsRunOf};
ghost use Rattle.graph_run.specs.Rooms.{AreRooms};
ghost use Rattle.graph_run.specs.RunStates.{IsEndedRun, HasBoardsBy};

use crate::closing::{ClosedBoards, close_all};
use crate::outcomes::{KeptOf, take_kept};
use crate::rooms::Rooms;
use board_rule::{Board, Closed, DriverSeat};
use data_loop::LoopState;
use pw_graph::Plan;
use pw_lists::Items;
use std::alloc::Global;
use wav_files::{Outcome, WavIn};

/// A run after its last cycle: the boards with the drivers' seats, all loops, and room for what is
/// answered. It may cross threads.
#[derive(Drop)]
pub struct EndedRun {
    pub(crate) boards: Items<Board>,
    pub(crate) drivers: Items<DriverSeat>,
    pub(crate) done: Items<LoopState>,
    pub(crate) rooms: Rooms,
}

impl EndedRun {
    /// A run whose last cycle has ended, of these: the boards in the order of the epochs, the
    /// driver's seat of each, all loops, and the rooms that were taken before the first cycle.
    /// Takes no memory.
    pub fn new(
        boards: Items<Board>,
        drivers: Items<DriverSeat>,
        done: Items<LoopState>,
        rooms: Rooms,
    ) -> EndedRun
        ensures { result ≡ record
            { boards = boards; drivers = drivers; done = done; rooms = rooms } }
    {
        EndedRun {
            boards,
            drivers,
            done,
            rooms,
        }
    }
}

// The answer of a run that has ended. Takes no memory.
fn answer(
    alloc: Global,
    plan: &Plan,
    waves: &Items<WavIn>,
    ended: EndedRun,
) -> (Outcome, Items<Closed>)
    requires few { length plan.now.nodes ≤ dummy_node }
    requires done { AreDone plan.now waves.now ended.done }
    requires ended { AllZip HasEnded ended.boards ended.drivers }
    requires rooms { AreRooms plan.now ended.rooms }
    requires closed { length ended.boards ≤ ended.rooms.closed.spare }
    requires events { events_on ended.boards ≤ ended.rooms.history.spare }
    ensures sinks { result.0.sinks ≡ rendered_sinks plan.now waves.now }
    ensures peaks { result.0.peaks ≡ rendered_peaks plan.now waves.now }
    ensures shapes { AreClosedOf ended.boards result.1 }
    ensures expect { map expected result.1 ≡ map (λ s. s.knows.expect) ended.drivers }
    ensures history { result.0.history ≡ events_in result.1 }
    ensures legal { IsLegalOn ended.boards result.0.history }
    ensures ticks { count_by is_tick result.0.history ≡ checks_of ended.drivers }
{
    let _ = waves;
    let EndedRun {
        boards,
        drivers,
        done,
        rooms,
    } = ended;
    let Rooms {
        closed,
        history,
        sinks,
        peaks,
    } = rooms;
    let mut done = done.into_vec();
    let KeptOf { sinks, peaks } = take_kept(alloc, plan, done.as_mut_slice(), sinks, peaks);
    let ClosedBoards { closed, history } = close_all(boards, drivers, closed, history);
    let outcome = Outcome {
        history,
        sinks,
        peaks,
    };
    (outcome, closed)
}

/// Closes the boards of a run that has ended, and answers what its sinks and meters have kept, what
/// happened, and the closed boards, one an epoch. Takes no memory, does not wait.
/// Condition: it is a run of this plan with these waves, which is sound with them.
pub fn finish_run(
    alloc: Global,
    plan: &Plan,
    waves: &Items<WavIn>,
    ended: EndedRun,
) -> (Outcome, Items<Closed>)
    requires sound { IsSoundPlan plan.now }
    requires fit { WavesFit plan.now waves.now }
    requires ended { IsEndedRun plan.now waves.now ended }
    ensures sinks { result.0.sinks ≡ rendered_sinks plan.now waves.now }
    ensures peaks { result.0.peaks ≡ rendered_peaks plan.now waves.now }
    // Whoever is on which seat of its boards; the history has a Tick for each check.
    ensures run { (f : ℕ → ℕ) (loops : ℕ) → HasBoardsBy plan.now f loops ended
        → IsRunOf plan.now waves.now f loops result.0.history result.1
        0 (checks_of ended.drivers) }
    // What the sinks keep can be written as WAV files.
    ensures waves { All (λ kept. IsWave kept.wav) result.0.sinks }
{
    answer(alloc, plan, waves, ended)
}
