//! A crew of numbers: whom a run hands to the caller's thread, and what comes back of threads.
ghost use Rattle.std.specs.Prelude.{◌≡◌};

use crate::refusals::Refusing;
use crew_run::{Crew, Work, places_for, run};
use plan_support::MeetAll;
use pw_lists::Items;
use pw_outside::{Gate, Never, Ticker};
use std::alloc::Global;
use std::sync::Wait;
use std::test::Fail;
use std::thread::Threads;

/// The members of each run, which are their own numbers.
const MEMBERS: [u32; 4] = [0, 1, 33, 63];

/// A crew that leads with nothing. A member's thread enters the gate and gives back its number.
#[derive(Drop)]
struct Numbers;

/// Who was handed to the caller's thread, and what came back.
#[derive(Drop)]
struct Dealt {
    held: Items<u32>,
    backs: Items<u32>,
}

impl Work<u32, u32> for Numbers {
    ghost use Rattle.std.specs.Prelude.{◌≡◌, ⊤};

    ghost number_of = { λ member. member };

    ghost can_start = { λ _ _. ⊤ };

    ghost has_run = { λ member back. back ≡ member };

    fn number(member: &u32) -> u32 {
        *member
    }

    fn work<R: Wait, G: Gate>(&self, rt: &R, gate: &G, member: u32) -> u32 {
        let _ = rt;
        gate.enter(member, 0);
        member
    }
}

impl Crew<u32, u32> for Numbers {
    ghost use Rattle.std.specs.Prelude.{⊤};

    type Lead = ();

    type Led = Items<u32>;

    type Ended = Dealt;

    ghost can_lead = { λ _ _ _. ⊤ };

    ghost has_led = { λ _ _ _ _ _ _. ⊤ };

    ghost has_ended = { λ _ _ _ _ _ _. ⊤ };

    fn lead<R: Wait, G: Gate, K: Ticker>(
        &self,
        rt: &R,
        gate: &G,
        lead: (),
        held: Items<u32>,
        ticker: &mut K,
    ) -> Items<u32>
        ensures { result ≡ held }
    {
        let _ = rt;
        let _ = gate;
        let _ = lead;
        let _ = ticker;
        held
    }

    fn collect<R: Wait, G: Gate>(
        &self,
        rt: &R,
        gate: &G,
        led: Items<u32>,
        kept: Items<bool>,
        backs: Items<u32>,
    ) -> Dealt
        ensures { (result.held ≡ led) × (result.backs ≡ backs) }
    {
        let _ = rt;
        let _ = gate;
        let _ = kept;
        Dealt { held: led, backs }
    }
}

/// A run of the members: who is named, whose starts are refused, who of them is held then, and who
/// comes back.
#[derive(Drop)]
struct DealRow<'a> {
    adopt: [bool; 4],
    starts: Refusing,
    held: &'a [u32],
    backs: &'a [u32],
}

// A row by its fields.
fn row<'a>(adopt: [bool; 4], starts: Refusing, held: &'a [u32], backs: &'a [u32]) -> DealRow<'a> {
    DealRow {
        adopt,
        starts,
        held,
        backs,
    }
}

// What becomes of the members in a run of a row. None where there is no memory.
fn deal<R: Threads + Wait + Sync, G: Gate + Sync>(
    rt: &R,
    alloc: Global,
    row: &DealRow<'_>,
    gate: &G,
) -> Option<Dealt> {
    let Ok(members) = Items::from_slice(alloc, &MEMBERS) else {
        return None;
    };
    let Ok(places) = places_for::<u32, u32, Numbers>(alloc, MEMBERS.len()) else {
        return None;
    };
    let (crew, mut ticker) = (Numbers, Never::new());
    Some(run(
        rt,
        gate,
        &crew,
        &row.starts,
        &row.adopt,
        members,
        (),
        places,
        &mut ticker,
    ))
}

// The bits of these members.
fn bits_of(members: &[u32]) -> u64 {
    let mut bits = 0u64;
    for member in members {
        bits |= 1u64.rotate_left(*member);
    }
    bits
}

// Whether just these are handed to the caller's thread, and the others come back of threads, which
// meet: those that the caller's thread runs after it has led do not.
fn is_dealt<R: Threads + Wait + Sync>(rt: &R, alloc: Global, row: &DealRow<'_>) -> bool {
    let gate = MeetAll::new(bits_of(row.backs));
    match deal(rt, alloc, row, &gate) {
        Some(dealt) => {
            dealt.held.as_slice() == row.held && dealt.backs.as_slice() == row.backs && gate.met()
        }
        None => false,
    }
}

// The first row whose members are dealt otherwise: no start is refused, each in turn, two, all; one
// member is named, alone and beside another that is refused. No member has the number 2.
fn first_unlike<R: Threads + Wait + Sync>(rt: &R, alloc: Global) -> Option<usize> {
    let nobody = [false; 4];
    let named = [false, false, true, false];
    let rows = [
        row(nobody, Refusing::one(2), &[], &[0, 1, 33, 63]),
        row(nobody, Refusing::one(0), &[0], &[1, 33, 63]),
        row(nobody, Refusing::one(1), &[1], &[0, 33, 63]),
        row(nobody, Refusing::one(33), &[33], &[0, 1, 63]),
        row(nobody, Refusing::one(63), &[63], &[0, 1, 33]),
        row(nobody, Refusing::two(0, 33), &[0, 33], &[1, 63]),
        row(nobody, Refusing::all(), &[0, 1, 33, 63], &[]),
        row(named, Refusing::one(2), &[33], &[0, 1, 63]),
        row(named, Refusing::one(1), &[1, 33], &[0, 63]),
    ];
    for place in 0..rows.len() {
        if !is_dealt(rt, alloc, &rows[place]) {
            return Some(place);
        }
    }
    None
}

#[test]
fn just_the_refused_and_the_named_are_held(rt: HostRuntime) -> Result<(), Fail> {
    assert_eq!(rt; first_unlike(&rt, rt.alloc()), None);
    Ok(())
}
