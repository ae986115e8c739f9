//! A run by several threads.
ghost use Rattle.std.specs.Prelude.{◌≡◌, All, length};
ghost use Rattle.crew_run.specs.Places.{HavePlaces};
ghost use Rattle.crew_run.specs.working.Tasks.{CanBegin};

use crate::crew::Crew;
use crate::joining::{join_all, members_of};
use crate::places::Places;
use crate::starting::{Handle, Lists, start_all};
use crate::starts::Starts;
use pw_lists::Items;
use pw_outside::{Gate, Ticker};
use std::sync::Wait;
use std::sync::atomic::AtomicU64;
use std::thread;
use std::thread::{Scope, Threads};

// What a run begins with: its members, what the caller's thread leads with, and places for all.
#[derive(Drop)]
struct Task<M, B, L, H> {
    members: Items<M>,
    lead: L,
    places: Places<M, B, H>,
}

// The run within a scope: it starts the members, leads, joins, and collects. The lead takes those
// that the starts held, and the collection what the lead and the join gave, so that these have no
// other order. The join takes nothing of the lead: no type keeps it from coming first, where it
// would wait for ever if a thread needs the caller's.
fn run_within<
    's,
    E,
    R: Threads + Wait + Sync,
    G: Gate + Sync,
    K: Ticker,
    M: Send + Drop + 's,
    B: Send + Drop + 's,
    C: Crew<M, B> + Sync,
    S: Starts,
>(
    rt: &'s R,
    gate: &'s G,
    scope: &Scope<'s, E>,
    crew: &'s C,
    refused: &'s AtomicU64,
    starts: &S,
    adopt: &[bool],
    task: Task<M, B, C::Lead, Handle<M, B, C>>,
    ticker: &mut K,
) -> C::Ended
    requires { CanBegin (C.can_lead crew.now) (C.can_start crew.now) (length adopt.now) task }
    ensures { C.has_ended crew.now task.lead task.members result (K.ticks ticker.old)
        (K.ticks ticker.new) }
{
    let Task {
        members,
        lead,
        places,
    } = task;
    let Places {
        mut lists,
        members: mut room,
        mut backs,
    } = places;
    start_all(
        rt, gate, scope, crew, refused, starts, adopt, members, &mut lists,
    );
    let Lists { held, begun, kept } = lists;
    members_of(held.into_items(), &mut room);
    let led = crew.lead(rt, gate, lead, room.into_items(), ticker);
    join_all(rt, gate, crew, begun.into_items(), &mut backs);
    crew.collect(rt, gate, led, kept.into_items(), backs.into_items())
}

// The run in a scope of its own. The ticker is handed back with what it has counted.
fn run_scoped<
    't,
    R: Threads + Wait + Sync,
    G: Gate + Sync,
    K: Ticker,
    M: Send + Drop,
    B: Send + Drop,
    C: Crew<M, B> + Sync,
    S: Starts,
>(
    rt: &R,
    gate: &G,
    crew: &C,
    refused: &AtomicU64,
    starts: &S,
    adopt: &[bool],
    task: Task<M, B, C::Lead, Handle<M, B, C>>,
    ticker: &'t mut K,
) -> (C::Ended, &'t mut K)
    requires { CanBegin (C.can_lead crew.now) (C.can_start crew.now) (length adopt.now) task }
    ensures ended { C.has_ended crew.now task.lead task.members result.0 (K.ticks ticker.entry.now)
        (K.ticks result.1.now) }
    ensures same { result.1.ghost_name ≡ ticker.entry.ghost_name }
{
    thread::scope(
        thread::scope_env(),
        rt,
        move |scope| -> (C::Ended, &mut K)
            requires { CanBegin (C.can_lead crew.now) (C.can_start crew.now)
                (length adopt.now) task }
            ensures ended { C.has_ended crew.entry.now task.lead task.members result.0
                (K.ticks ticker.entry.now) (K.ticks result.1.now) }
            ensures same { result.1.ghost_name ≡ ticker.entry.ghost_name }
        {
            let ended = run_within(rt, gate, scope, crew, refused, starts, adopt, task, ticker);
            (ended, ticker)
        },
    )
}

/// A run by the caller's thread, which leads, and by a thread for each member, but for those that
/// `adopt` names and those whose start is refused, by the system or by `starts`: these the caller's
/// thread holds while it leads. Then it joins all threads, and collects. It may wait. Takes no
/// memory but for the threads.
/// Condition: `adopt` has an entry for each member, in their order, and there are places for all.
pub fn run<
    R: Threads + Wait + Sync,
    G: Gate + Sync,
    K: Ticker,
    M: Send + Drop,
    B: Send + Drop,
    C: Crew<M, B> + Sync,
    S: Starts,
>(
    rt: &R,
    gate: &G,
    crew: &C,
    starts: &S,
    adopt: &[bool],
    members: Items<M>,
    lead: C::Lead,
    places: Places<M, B, Handle<M, B, C>>,
    ticker: &mut K,
) -> C::Ended
    requires leads { C.can_lead crew.now lead members }
    requires members { All (C.can_start crew.now) members }
    requires adopt { length adopt.now ≡ length members }
    requires places { HavePlaces (length members) places }
    ensures { C.has_ended crew.now lead members result (K.ticks ticker.old) (K.ticks ticker.new) }
{
    let word = AtomicU64::new(0);
    let refused = &word;
    let task = Task {
        members,
        lead,
        places,
    };
    let (ended, _ticker) = run_scoped(rt, gate, crew, refused, starts, adopt, task, ticker);
    ended
}
