//! The members of a run after their threads are joined.
ghost use Rattle.std.specs.Prelude.{◌≡◌, ◌≤◌, ◌<◌, ◌++◌, [], List, All, map, length};
ghost use Rattle.crew_run.specs.Starting.{IsBegun, AreEnded};

use crate::crew::Work;
use crate::starting::{Begun, Handle, Held};
use pw_lists::{Items, Room};
use pw_outside::Gate;
use std::sync::Wait;
use std::thread::Threads;

// What a member gave back: its thread is joined, or it has run already. A member that came back as
// it was is run here.
fn join_one<R: Threads + Wait + Sync, G: Gate, M: Drop, B: Drop, C: Work<M, B>>(
    rt: &R,
    gate: &G,
    crew: &C,
    begun: Begun<B, Handle<M, B, C>>,
) -> B
    requires { (given : M) × C.can_start crew.now given
        × IsBegun (λ h. h.promise.given.value) C.number_of C.has_run given begun }
    ensures { (given : M) → IsBegun (λ h. h.promise.given.value) C.number_of C.has_run given begun
        → C.has_run given result }
{
    match begun {
        Begun::Running(handle) => match handle.join(rt) {
            Ok(back) => back,
            Err(given) => crew.work(rt, gate, given),
        },
        Begun::Done(_why, back) => back,
    }
}

/// What all members that began gave back, in their order: their threads are joined. Takes no
/// memory.
pub(crate) fn join_all<R: Threads + Wait + Sync, G: Gate, M: Drop, B: Drop, C: Work<M, B>>(
    rt: &R,
    gate: &G,
    crew: &C,
    begun: Items<Begun<B, Handle<M, B, C>>>,
    backs: &mut Room<B>,
)
    requires can { All (λ b. (given : M) × C.can_start crew.now given
        × IsBegun (λ h. h.promise.given.value) C.number_of C.has_run given b) begun }
    requires empty { backs.old.list ≡ [] }
    requires room { length begun ≤ backs.old.spare }
    ensures { AreEnded (λ h. h.promise.given.value) C.number_of C.has_run begun backs.new.list }
{
    for one in begun.into_vec() {
        backs.push_spare(join_one(rt, gate, crew, one));
    }
}

/// The members that are held, in their order. Takes no memory.
pub(crate) fn members_of<M: Drop>(held: Items<Held<M>>, members: &mut Room<M>)
    requires empty { members.old.list ≡ [] }
    requires room { length held ≤ members.old.spare }
    ensures { members.new.list ≡ map (λ h. h.member) held }
{
    for one in held.into_vec() {
        members.push_spare(one.member);
    }
}
