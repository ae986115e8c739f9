//! The workers of a run as a crew: what a worker's thread does, and what the driver's thread does,
//! which leads and then takes the cells.
ghost use Rattle.std.specs.Prelude.{◌≡◌};

use crate::claimant::Claimant;
use crate::collecting::collect_all;
use crate::counts::{HintCounts, RunCounts};
use crate::leading::{Driving, drive};
use crate::shared::Shared;
use crate::workers::run_worker;
use board_rule::DriverSeat;
use crew_run::{Crew, Work};
use data_loop::LoopState;
use pw_lists::{Items, Room};
use pw_outside::{Gate, Ticker};
use std::sync::Wait;

/// What the driver's thread leads with: what it drives with, and room for all cells and its own
/// loop in the end.
#[derive(Drop)]
pub(crate) struct LeadState {
    pub driving: Driving,
    pub done: Room<LoopState>,
}

/// All cells and the driver's own loop, and the drivers' seats of all boards, after the last
/// epoch; and what the threads counted.
#[derive(Drop)]
pub(crate) struct EndedCells {
    pub done: Items<LoopState>,
    pub drivers: Items<DriverSeat>,
    pub counts: RunCounts,
}

impl Work<Claimant, Claimant> for Shared {
    ghost use Rattle.steal_loops.specs.working.CrewRun.{CanStart, HasWorked};

    ghost number_of = { λ claimant. claimant.way.number };

    ghost can_start = { CanStart };

    ghost has_run = { HasWorked };

    fn number(member: &Claimant) -> u32 {
        member.way.number()
    }

    // All that a worker does. It gives back what it took cells with.
    fn work<R: Wait, G: Gate>(&self, rt: &R, gate: &G, member: Claimant) -> Claimant {
        run_worker(rt, gate, self, member)
    }
}

// How many workers were not started. They drop what they have: others find all cells.
fn count_absent(held: Items<Claimant>) -> usize {
    held.len()
}

// What the workers counted, and by which hints the driver's thread found its steps. No clause says
// how many. Takes no memory.
fn counts_of(driver: HintCounts, backs: Items<Claimant>) -> RunCounts {
    let mut counts = RunCounts {
        taken: 0,
        hints: driver,
    };
    for worker in backs.into_vec() {
        counts.taken = counts.taken.saturating_add(worker.way.taken());
        counts.hints.add(worker.hints);
    }
    counts
}

impl Crew<Claimant, Claimant> for Shared {
    ghost use Rattle.std.specs.Prelude.{◌≤◌, ℕ, List, All, length};
    ghost use Rattle.crew_run.specs.Dealt.{AreDealt};
    ghost use Rattle.steal_loops.specs.declared.crew.LeadState.{LeadState};
    ghost use Rattle.steal_loops.specs.declared.claimant.Claimant.{Claimant};
    ghost use Rattle.steal_loops.specs.working.CrewRun.{CanStart, CanLead, HasLedRun, HasWorked, HaveEnded};

    type Lead = LeadState;

    type Led = LeadState;

    type Ended = EndedCells;

    ghost can_lead = { λ shared lead _. CanLead shared lead };

    ghost has_led = { λ shared lead _ led m n. HasLedRun shared lead led m n };

    ghost has_ended = { λ shared lead _ ended m n. HaveEnded shared lead ended m n };

    // All epochs, by the driver's thread.
    fn lead<R: Wait, G: Gate, K: Ticker>(
        &self,
        rt: &R,
        gate: &G,
        lead: LeadState,
        held: Items<Claimant>,
        ticker: &mut K,
    ) -> LeadState
        requires leads { (members : List Claimant) × CanLead self.now lead
            × (length held ≤ length members) }
        requires held { All (CanStart self.now) held }
        ensures { HasLedRun self.now lead result (K.ticks ticker.old) (K.ticks ticker.new) }
    {
        let LeadState { driving, done } = lead;
        let absent = count_absent(held);
        let driving = drive(rt, gate, self, driving, absent, ticker);
        LeadState { driving, done }
    }

    // All cells and the driver's own loop. A cell that was taken before all workers are joined
    // would leave them waiting for it.
    fn collect<R: Wait, G: Gate>(
        &self,
        rt: &R,
        gate: &G,
        led: LeadState,
        kept: Items<bool>,
        backs: Items<Claimant>,
    ) -> EndedCells
        requires { (lead : LeadState) × (members : List Claimant) × (held : List Claimant)
            × (m : ℕ) × (n : ℕ) × CanLead self.now lead × HasLedRun self.now lead led m n
            × AreDealt HasWorked members kept held backs }
        ensures { (lead : LeadState) (members held : List Claimant) (m n : ℕ)
            → CanLead self.now lead → HasLedRun self.now lead led m n
            → AreDealt HasWorked members kept held backs
            → HaveEnded self.now lead result m n }
    {
        let _ = kept;
        let LeadState { driving, mut done } = led;
        let Driving {
            own,
            drivers,
            mut claimant,
        } = driving;
        collect_all(rt, gate, self, &mut claimant.seat, &mut done);
        done.push_spare(own);
        EndedCells {
            done: done.into_items(),
            drivers,
            counts: counts_of(claimant.hints, backs),
        }
    }
}
