//! The loops of a run as a crew: what a loop's thread does, and what the driver's thread does with
//! the loops that it adopts.
ghost use Rattle.std.specs.Prelude.{◌≡◌, ◌+◌, ◌≤◌, ◌<◌, ◌++◌, [], All, length, map};
ghost use Rattle.graph_run.specs.working.Crew.{states_of};

use crate::leading::{Driving, Led, drive};
use crate::shared::{LoopWay, Shared};
use board_rule::DriverSeat;
use crew_run::{Crew, Work};
use data_loop::{LoopState, run_all};
use pw_lists::{Items, Room};
use pw_outside::{Gate, Ticker};
use std::sync::Wait;

/// What the driver's thread leads with: what it drives with, and room for the loops that it adopts
/// and for all loops in the end.
#[derive(Drop)]
pub(crate) struct LeadStart {
    pub driving: Driving,
    pub adopted: Room<LoopState>,
    pub done: Room<LoopState>,
}

/// What it has after the last epoch, and the room for all loops.
#[derive(Drop)]
pub(crate) struct LeadEnd {
    pub led: Led,
    pub done: Room<LoopState>,
}

/// All loops and the drivers' seats of all boards, after the last epoch.
#[derive(Drop)]
pub(crate) struct EndedLoops {
    pub done: Items<LoopState>,
    pub drivers: Items<DriverSeat>,
}

impl Work<LoopWay, LoopState> for Shared {
    ghost use Rattle.graph_run.specs.Threads.{CanStart, HasRun};

    ghost number_of = { λ given. given.way.number };

    ghost can_start = { CanStart };

    ghost has_run = { λ given state. HasRun given.state state };

    fn number(member: &LoopWay) -> u32 {
        member.way.number()
    }

    // All epochs of a loop.
    fn work<R: Wait, G: Gate>(&self, rt: &R, gate: &G, member: LoopWay) -> LoopState {
        let LoopWay { state, way } = member;
        let (state, _way) = run_all(rt, state, &self.boards, &self.ways, way, gate);
        state
    }
}

// Appends loops, without their ways. Takes no memory.
fn append_states(adopted: &mut Room<LoopState>, held: Items<LoopWay>)
    requires { length held ≤ adopted.old.spare }
    ensures { adopted.new.list ≡ adopted.old.list ++ states_of held }
{
    for given in held.into_vec() {
        adopted.push_spare(given.state);
    }
}

// Appends loops. Takes no memory.
fn append(done: &mut Room<LoopState>, more: Items<LoopState>)
    requires { length more ≤ done.old.spare }
    ensures list { done.new.list ≡ done.old.list ++ more }
    ensures spare { done.new.spare + length more ≡ done.old.spare }
{
    for state in more.into_vec() {
        done.push_spare(state);
    }
}

impl Crew<LoopWay, LoopState> for Shared {
    ghost use Rattle.std.specs.Prelude.{◌≤◌, ℕ, List, All, length};
    ghost use Rattle.crew_run.specs.Dealt.{AreDealt};
    ghost use Rattle.graph_run.specs.declared.crew.LeadStart.{LeadStart};
    ghost use Rattle.graph_run.specs.declared.shared.LoopWay.{LoopWay};
    ghost use Rattle.graph_run.specs.Threads.{CanStart, HasRun};
    ghost use Rattle.graph_run.specs.working.Crew.{CanLead, HasLedRun, HaveEnded};

    type Lead = LeadStart;

    type Led = LeadEnd;

    type Ended = EndedLoops;

    ghost can_lead = { CanLead };

    ghost has_led = { HasLedRun };

    ghost has_ended = { HaveEnded };

    // All epochs, by the driver's thread, with the loops that it adopts.
    fn lead<R: Wait, G: Gate, K: Ticker>(
        &self,
        rt: &R,
        gate: &G,
        lead: LeadStart,
        held: Items<LoopWay>,
        ticker: &mut K,
    ) -> LeadEnd
        requires leads { (members : List LoopWay) × CanLead self.now lead members
            × (length held ≤ length members) }
        requires held { All (CanStart self.now) held }
        ensures { HasLedRun self.now lead held result (K.ticks ticker.old) (K.ticks ticker.new) }
    {
        let LeadStart {
            driving,
            mut adopted,
            done,
        } = lead;
        append_states(&mut adopted, held);
        let led = drive(rt, gate, self, driving, adopted.into_items(), ticker);
        LeadEnd { led, done }
    }

    // All loops in one list: the driver's own, those that it adopted, and those that came back.
    fn collect<R: Wait, G: Gate>(
        &self,
        rt: &R,
        gate: &G,
        led: LeadEnd,
        kept: Items<bool>,
        backs: Items<LoopState>,
    ) -> EndedLoops
        requires { (lead : LeadStart) × (members : List LoopWay) × (held : List LoopWay)
            × (m : ℕ) × (n : ℕ) × CanLead self.now lead members
            × HasLedRun self.now lead held led m n
            × AreDealt (λ given state. HasRun given.state state) members kept held backs }
        ensures { (lead : LeadStart) (members held : List LoopWay) (m n : ℕ)
            → CanLead self.now lead members → HasLedRun self.now lead held led m n
            → AreDealt (λ given state. HasRun given.state state) members kept held backs
            → HaveEnded self.now lead members result m n }
    {
        let _ = rt;
        let _ = gate;
        let _ = kept;
        let LeadEnd { led, mut done } = led;
        let Led {
            own,
            adopted,
            drivers,
        } = led;
        done.push_spare(own);
        append(&mut done, adopted);
        append(&mut done, backs);
        EndedLoops {
            done: done.into_items(),
            drivers,
        }
    }
}
