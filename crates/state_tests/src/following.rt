//! A node state that follows whole streams quantum after quantum.
ghost use Rattle.std.specs.Prelude.{◌≡◌, ℕ, ◌+◌, ◌*◌, ◌≤◌, length, IfSome};
ghost use Rattle.node_state.specs.StandsFor.{IsSameNode, HasFramesLeft};
ghost use Rattle.state_tests.specs.Following.{HaveWidths};

use node_state::NodeState;
use pw_lists::{Items, Memory};
use std::alloc::Global;

/// The samples of a quantum at each port.
#[derive(Clone, Copy, Drop)]
pub struct Widths {
    pub a: usize,
    pub b: usize,
    pub left: usize,
    pub right: usize,
}

/// Whole streams: what the inputs receive, and what is to be given at the outputs.
#[derive(Clone, Copy, Drop)]
pub struct Streams<'a> {
    pub a: &'a [i16],
    pub b: &'a [i16],
    pub left: &'a [i16],
    pub right: &'a [i16],
}

// The samples of one quantum, if they are there.
fn part(row: &[i16], number: u32, width: usize) -> Option<&[i16]>
    ensures { IfSome result (λ part. length part.now ≡ width) }
{
    let start = (number as usize).checked_mul(width)?;
    let end = start.checked_add(width)?;
    if end > row.len() {
        return None;
    }
    Some(&row[start..end])
}

// One quantum: whether the state gives what is to be given.
fn follows_once(
    state: &mut NodeState,
    widths: Widths,
    streams: Streams<'_>,
    number: u32,
    left: &mut [i16],
    right: &mut [i16],
) -> bool
    requires widths { HaveWidths state.old widths.a widths.b widths.left widths.right }
    requires frames { HasFramesLeft state.old }
    requires left { length left.old ≡ widths.left }
    requires right { length right.old ≡ widths.right }
    ensures same { IsSameNode state.old state.new }
    ensures frames { state.new.frames ≤ state.old.frames + state.old.quantum }
{
    let Some(a) = part(streams.a, number, widths.a) else {
        return false;
    };
    let Some(b) = part(streams.b, number, widths.b) else {
        return false;
    };
    state.process(a, b, left, right);
    part(streams.left, number, widths.left) == Some(&*left)
        && part(streams.right, number, widths.right) == Some(&*right)
}

/// Whether a state, given the inputs quantum after quantum, gives just the outputs.
pub fn follows(
    alloc: Global,
    state: &mut NodeState,
    widths: Widths,
    streams: Streams<'_>,
    quanta: u32,
) -> Result<bool, Memory>
    requires widths { HaveWidths state.old widths.a widths.b widths.left widths.right }
    requires frames { state.old.frames + quanta * state.old.quantum ≤ state.old.prepared }
{
    let mut left = Items::filled(alloc, widths.left, 9)?;
    let mut right = Items::filled(alloc, widths.right, 9)?;
    for number in 0..quanta {
        let (left, right) = (left.as_mut_slice(), right.as_mut_slice());
        if !follows_once(state, widths, streams, number, left, right) {
            return Ok(false);
        }
    }
    Ok(true)
}
