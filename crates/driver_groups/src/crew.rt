//! The runs of parts as a crew: what a part's thread does, and what the caller's thread does with
//! the first part and with those that have no thread.
ghost use Rattle.std.specs.Prelude.{◌≡◌, ◌≤◌, ◌∷◌, ◌++◌, [], All, length};
ghost use Rattle.std.specs.List.{AllZip};
ghost use Rattle.graph_run.specs.RunStates.{CanRunAlone, HasRunAlone};
ghost use Rattle.driver_groups.specs.working.Crew.{merged};

use crew_run::{Crew, Work};
use graph_run::{AloneRun, EndedRun, run_alone};
use pw_lists::{Items, Room};
use pw_outside::{Gate, Ticker};
use std::alloc::Global;
use std::sync::Wait;

/// What all threads share.
#[derive(Drop)]
pub(crate) struct Shared {
    pub alloc: Global,
}

/// The run of a part, with the part's place among all.
#[derive(Drop)]
pub(crate) struct PlacedRun {
    pub place: u32,
    pub run: AloneRun,
}

/// What the caller's thread leads with: the run of the first part, and room for those that have no
/// thread and for all runs in the end.
#[derive(Drop)]
pub(crate) struct LeadStart {
    pub first: AloneRun,
    pub waited: Room<EndedRun>,
    pub ended: Room<EndedRun>,
}

/// What it has then: the run of the first part, those that had no thread, and the room for all.
#[derive(Drop)]
pub(crate) struct LeadEnd {
    pub first: EndedRun,
    pub waited: Items<EndedRun>,
    pub ended: Room<EndedRun>,
}

impl Work<PlacedRun, EndedRun> for Shared {
    ghost use Rattle.graph_run.specs.RunStates.{CanRunAlone, HasRunAlone};

    ghost number_of = { λ given. given.place };

    ghost can_start = { λ _ given. CanRunAlone given.run };

    ghost has_run = { λ given ended. HasRunAlone given.run ended };

    fn number(member: &PlacedRun) -> u32 {
        member.place
    }

    // All epochs of a part.
    fn work<R: Wait, G: Gate>(&self, rt: &R, gate: &G, member: PlacedRun) -> EndedRun {
        run_alone(rt, self.alloc, gate, member.run)
    }
}

// Runs of parts one after the other, in their order. Takes no memory.
fn run_all<R: Wait, G: Gate>(
    rt: &R,
    alloc: Global,
    gate: &G,
    given: Items<PlacedRun>,
    ended: &mut Room<EndedRun>,
)
    requires can { All (λ p. CanRunAlone p.run) given }
    requires empty { ended.old.list ≡ [] }
    requires room { length given ≤ ended.old.spare }
    ensures { AllZip (λ p e. HasRunAlone p.run e) given ended.new.list }
{
    for one in given.into_vec() {
        ended.push_spare(run_alone(rt, alloc, gate, one.run));
    }
}

// Appends the runs of two lists in one order: the next of the first where the flag is up, else the
// next of the second. Takes no memory.
fn merge(
    kept: Items<bool>,
    waited: Items<EndedRun>,
    backs: Items<EndedRun>,
    ended: &mut Room<EndedRun>,
)
    requires { length kept ≤ ended.old.spare }
    ensures { ended.new.list ≡ ended.old.list ++ merged kept waited backs }
{
    let mut waited = waited.into_vec().into_iter();
    let mut backs = backs.into_vec().into_iter();
    for was_held in kept.into_vec() {
        let next = if was_held {
            waited.next()
        } else {
            backs.next()
        };
        if let Some(run) = next {
            ended.push_spare(run);
        }
    }
}

impl Crew<PlacedRun, EndedRun> for Shared {
    ghost use Rattle.std.specs.Prelude.{◌≤◌, ℕ, List, All, length};
    ghost use Rattle.crew_run.specs.Dealt.{AreDealt};
    ghost use Rattle.graph_run.specs.RunStates.{CanRunAlone, HasRunAlone};
    ghost use Rattle.driver_groups.specs.declared.crew.LeadStart.{LeadStart};
    ghost use Rattle.driver_groups.specs.declared.crew.PlacedRun.{PlacedRun};
    ghost use Rattle.driver_groups.specs.working.Crew.{CanLead, HasLedFirst, HaveEnded};

    type Lead = LeadStart;

    type Led = LeadEnd;

    type Ended = Items<EndedRun>;

    ghost can_lead = { λ _. CanLead };

    ghost has_led = { λ _ lead held led _ _. HasLedFirst lead held led };

    ghost has_ended = { λ _ lead members ended _ _. HaveEnded lead members ended };

    // The run of the first part, and then those of the parts that have no thread.
    fn lead<R: Wait, G: Gate, K: Ticker>(
        &self,
        rt: &R,
        gate: &G,
        lead: LeadStart,
        held: Items<PlacedRun>,
        ticker: &mut K,
    ) -> LeadEnd
        requires leads { (members : List PlacedRun) × CanLead lead members
            × (length held ≤ length members) }
        requires held { All (λ given. CanRunAlone given.run) held }
        ensures { HasLedFirst lead held result }
    {
        let _ = ticker;
        let LeadStart {
            first,
            mut waited,
            ended,
        } = lead;
        let first = run_alone(rt, self.alloc, gate, first);
        run_all(rt, self.alloc, gate, held, &mut waited);
        LeadEnd {
            first,
            waited: waited.into_items(),
            ended,
        }
    }

    // All runs, in the order of the parts.
    fn collect<R: Wait, G: Gate>(
        &self,
        rt: &R,
        gate: &G,
        led: LeadEnd,
        kept: Items<bool>,
        backs: Items<EndedRun>,
    ) -> Items<EndedRun>
        requires { (lead : LeadStart) × (members : List PlacedRun) × (held : List PlacedRun)
            × (m : ℕ) × (n : ℕ) × CanLead lead members × HasLedFirst lead held led
            × AreDealt (λ given ended. HasRunAlone given.run ended) members kept held backs }
        ensures { (lead : LeadStart) (members held : List PlacedRun) (m n : ℕ)
            → CanLead lead members → HasLedFirst lead held led
            → AreDealt (λ given ended. HasRunAlone given.run ended) members kept held backs
            → HaveEnded lead members result }
    {
        let _ = rt;
        let _ = gate;
        let LeadEnd {
            first,
            waited,
            mut ended,
        } = led;
        ended.push_spare(first);
        merge(kept, waited, backs, &mut ended);
        ended.into_items()
    }
}
