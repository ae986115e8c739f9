//! Rows that are long enough for all nodes of a loop.
ghost use Rattle.std.specs.Prelude.{◌≡◌, ◌≤◌, All, IfOk, length};
ghost use Rattle.data_loop.specs.Rooms.{IsWithin, AreAsLong};
ghost use Rattle.data_loop.specs.EpochStateParts.{IsEpochStateWithin};

use crate::epoch_state::EpochState;
use crate::member::Member;
use crate::rows::Rows;
use pw_lists::{Items, Memory};
use std::alloc::Global;

// The greatest width of a port of a member.
fn width_of(member: &Member) -> usize
    ensures { IsWithin result member.now }
{
    let inputs = member.first_width.max(member.second_width);
    let outputs = member.left_width.max(member.right_width);
    inputs.max(outputs)
}

// The greatest width of a port of these members, or `least` where that is greater.
fn widest(members: &[Member], least: usize) -> usize
    ensures least { least ≤ result }
    ensures widest { All (IsWithin result) members.now }
{
    let mut most = least;
    for member in members {
        most = most.max(width_of(member));
    }
    most
}

/// The greatest width of a port of all members of the epoch states and of their drivers.
pub(crate) fn widest_of(epoch_states: &[EpochState]) -> usize
    ensures { All (IsEpochStateWithin result) epoch_states.now }
{
    let mut most = 0;
    for epoch_state in epoch_states {
        most = widest(epoch_state.members.as_slice(), most);
        most = widest(epoch_state.driver.as_slice(), most);
    }
    most
}

/// Rows that are so long.
pub(crate) fn rows_of(alloc: Global, width: usize) -> Result<Rows, Memory>
    ensures { IfOk result (AreAsLong width) }
{
    Ok(Rows {
        sum_a: Items::filled(alloc, width, 0)?.into_vec(),
        sum_b: Items::filled(alloc, width, 0)?.into_vec(),
        a: Items::filled(alloc, width, 0)?.into_vec(),
        b: Items::filled(alloc, width, 0)?.into_vec(),
        left: Items::filled(alloc, width, 0)?.into_vec(),
        right: Items::filled(alloc, width, 0)?.into_vec(),
    })
}
