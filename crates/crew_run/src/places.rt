//! The lists of a run, taken before it.
ghost use Rattle.std.specs.Prelude.{IfOk};
ghost use Rattle.crew_run.specs.Places.{HavePlaces};

use crate::crew::Work;
use crate::starting::{Handle, Lists};
use pw_lists::{Items, Memory, Room};
use std::alloc::Global;

/// Lists of the members of a run, with room for all.
#[derive(Drop)]
pub struct Places<M, B, H> {
    pub(crate) lists: Lists<M, B, H>,
    pub(crate) members: Room<M>,
    pub(crate) backs: Room<B>,
}

/// Lists for `count` members, of whom nothing is in them yet.
///
/// Memory: five places for each member.
pub fn places_for<M: Drop, B: Drop, C: Work<M, B>>(
    alloc: Global,
    count: usize,
) -> Result<Places<M, B, Handle<M, B, C>>, Memory>
    ensures { IfOk result (HavePlaces count) }
{
    let held = Items::new(alloc).into_room(count)?;
    let begun = Items::new(alloc).into_room(count)?;
    let kept = Items::new(alloc).into_room(count)?;
    let members = Items::new(alloc).into_room(count)?;
    let backs = Items::new(alloc).into_room(count)?;
    Ok(Places {
        lists: Lists { held, begun, kept },
        members,
        backs,
    })
}
