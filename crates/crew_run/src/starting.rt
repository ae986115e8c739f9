//! How the members of a run are started in threads of their own.
ghost use Rattle.std.specs.Prelude.{◌≡◌, ◌≤◌, ◌<◌, [], All, false, length, IfOk, IfErr};
ghost use Rattle.crew_run.specs.Starting.{Returns, IsStart, HasPlaced, AreBegun, AreEmpty, HaveRooms};

use crate::crew::Work;
use crate::launching::{Refusal, launch};
use crate::starts::Starts;
use pw_lists::{Items, Room};
use pw_outside::Gate;
use std::marker::PhantomData;
use std::snapshot::Snapshot;
use std::sync::Wait;
use std::sync::atomic::{AtomicU64, Ordering};
use std::thread::{Promise, PromisedHandle, Scope, Threads};

/// The cause for which a member has no thread of its own: it is named, or one was asked for and
/// refused.
#[derive(Drop)]
pub(crate) enum Why {
    Named,
    Refused(Refusal),
}

/// A member that has no thread of its own.
#[derive(Drop)]
pub(crate) struct Held<M> {
    pub why: Why,
    pub member: M,
}

/// What a member's thread promises: it gives back what the member did, or the member as it was
/// given.
#[derive(Drop)]
pub struct Given<M, B, C> {
    pub(crate) given: Snapshot<M>,
    pub(crate) by: PhantomData<(B, C)>,
}

impl<M, B, C: Work<M, B>> Promise<Result<B, M>> for Given<M, B, C> {
    ghost use Rattle.crew_run.specs.Starting.{Returns};

    ghost kept_by = { λ p r. Returns C.has_run p.given.value r };
}

/// A member that runs in a thread; or one whose start was refused, and that had run all the same.
#[derive(Drop)]
pub(crate) enum Begun<B, H> {
    Running(H),
    Done(Refusal, B),
}

/// The handle of a member's thread.
pub type Handle<M, B, C> = PromisedHandle<Result<B, M>, Given<M, B, C>>;

/// What became of the start of a member.
#[derive(Drop)]
pub(crate) enum Start<M, B, H> {
    Kept(Held<M>),
    Gone(Begun<B, H>),
}

// What a member's thread runs: nothing where its start was refused, which its bit says. Members
// whose numbers are 64 apart have the same bit.
fn run_unless<R: Wait, G: Gate, M, B, C: Work<M, B>>(
    rt: &R,
    gate: &G,
    crew: &C,
    refused: &AtomicU64,
    bit: u64,
    given: M,
) -> Result<B, M>
    requires { C.can_start crew.now given }
    ensures { Returns C.has_run given result }
{
    if refused.load(Ordering::SeqCst) & bit != 0 {
        return Err(given);
    }
    Ok(crew.work(rt, gate, given))
}

// A member whose start was refused comes back as it was, and is held.
fn not_started<M, B, C: Work<M, B>>(
    why: Refusal,
    back: Result<B, M>,
) -> Start<M, B, Handle<M, B, C>>
    ensures { (given : M) → Returns C.has_run given back → why.number ≡ C.number_of given
        → IsStart (λ h. h.promise.given.value) C.number_of C.has_run false given result }
{
    match back {
        Ok(back) => Start::Gone(Begun::Done(why, back)),
        Err(member) => Start::Kept(Held {
            why: Why::Refused(why),
            member,
        }),
    }
}

// Asks for a thread for one member. Where it is refused the member comes back, and is held.
fn start_one<
    's,
    E,
    R: Threads + Wait + Sync,
    G: Gate + Sync,
    M: Send + Drop + 's,
    B: Send + Drop + 's,
    C: Work<M, B> + Sync,
    S: Starts,
>(
    rt: &'s R,
    gate: &'s G,
    scope: &Scope<'s, E>,
    crew: &'s C,
    refused: &'s AtomicU64,
    starts: &S,
    given: M,
) -> Start<M, B, Handle<M, B, C>>
    requires { C.can_start crew.now given }
    ensures { IsStart (λ h. h.promise.given.value) C.number_of C.has_run false given result }
{
    let number = C::number(&given);
    let bit = 1u64.rotate_left(number);
    let promise = Given::<M, B, C> {
        given: Snapshot::of(&given),
        by: PhantomData,
    };
    match launch(
        rt,
        scope,
        starts,
        number,
        promise,
        move || -> Result<B, M>
            requires { C.can_start crew.now given }
            ensures { Returns C.has_run given result }
        { run_unless(rt, gate, crew, refused, bit, given) },
    ) {
        Ok(handle) => Start::Gone(Begun::Running(handle)),
        Err((why, work)) => {
            refused.fetch_or(bit, Ordering::SeqCst);
            not_started(why, work())
        }
    }
}

// Starts one member, or holds it where it is named.
fn start_unless<
    's,
    E,
    R: Threads + Wait + Sync,
    G: Gate + Sync,
    M: Send + Drop + 's,
    B: Send + Drop + 's,
    C: Work<M, B> + Sync,
    S: Starts,
>(
    rt: &'s R,
    gate: &'s G,
    scope: &Scope<'s, E>,
    crew: &'s C,
    refused: &'s AtomicU64,
    starts: &S,
    named: bool,
    given: M,
) -> Start<M, B, Handle<M, B, C>>
    requires { C.can_start crew.now given }
    ensures { IsStart (λ h. h.promise.given.value) C.number_of C.has_run named given result }
{
    if named {
        return Start::Kept(Held {
            why: Why::Named,
            member: given,
        });
    }
    start_one(rt, gate, scope, crew, refused, starts, given)
}

/// The members that are held, those that began, and for each member whether it is held: lists with
/// room for all.
#[derive(Drop)]
pub(crate) struct Lists<M, B, H> {
    pub held: Room<Held<M>>,
    pub begun: Room<Begun<B, H>>,
    pub kept: Room<bool>,
}

impl<M, B, H> Lists<M, B, H> {
    // Puts what became of a start into its list. Takes no memory.
    fn place(&mut self, start: Start<M, B, H>)
        requires { HaveRooms 1 self.old }
        ensures { HasPlaced self.old start self.new }
    {
        match start {
            Start::Kept(held) => {
                self.held.push_spare(held);
                self.kept.push_spare(true);
            }
            Start::Gone(begun) => {
                self.begun.push_spare(begun);
                self.kept.push_spare(false);
            }
        }
    }
}

/// Starts all members but those that `adopt` names. Takes no memory but for the threads.
pub(crate) fn start_all<
    's,
    E,
    R: Threads + Wait + Sync,
    G: Gate + Sync,
    M: Send + Drop + 's,
    B: Send + Drop + 's,
    C: Work<M, B> + Sync,
    S: Starts,
>(
    rt: &'s R,
    gate: &'s G,
    scope: &Scope<'s, E>,
    crew: &'s C,
    refused: &'s AtomicU64,
    starts: &S,
    adopt: &[bool],
    members: Items<M>,
    lists: &mut Lists<M, B, Handle<M, B, C>>,
)
    requires members { All (C.can_start crew.now) members }
    requires adopt { length adopt.now ≡ length members }
    requires empty { AreEmpty lists.old }
    requires rooms { HaveRooms (length members) lists.old }
    ensures { AreBegun (λ h. h.promise.given.value) C.number_of C.has_run adopt.now
        members lists.new.kept.list lists.new.held.list lists.new.begun.list }
{
    let mut k = 0;
    for given in members.into_vec() {
        let named = adopt[k];
        let start = start_unless(rt, gate, scope, crew, refused, starts, named, given);
        lists.place(start);
        k += 1;
    }
}
