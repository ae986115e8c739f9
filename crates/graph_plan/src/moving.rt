//! A line of a script in all parts: the epochs that it makes of them, and the sums of all.
ghost use Rattle.std.specs.Prelude.{◌≡◌, ◌≤◌, All, IfOk};
ghost use Rattle.graph_plan.specs.working.Ahead.{AreAhead, AreToCome, AreJudged};
ghost use Rattle.graph_plan.specs.working.Members.{IsReadyFor};
ghost use Rattle.graph_plan.specs.working.MovingTogether.{GoBy, MoveOrPass};

use crate::member::Member;
use graph_lines::{Stepped, Sums};
use graph_script::Line;
use pw_graph::Epoch;
use pw_lists::{Items, Memory, Which};
use std::alloc::Global;
use wav_files::WavIn;

/// What a line would make of the parts: an epoch of each, or no epoch, and the sums of all with
/// them, each of which stays at the greatest number of 64 bits.
#[derive(Drop)]
pub(crate) struct Ahead {
    pub(crate) epochs: Items<Option<Epoch>>,
    pub(crate) sums: Sums,
}

// The epochs that a line would make of the parts, and their sums.
fn look_ahead(
    alloc: Global,
    members: &[Member],
    line: &Line,
    waves: &Items<WavIn>,
) -> Result<Ahead, Memory>
    requires ready { All (IsReadyFor line.now) members.now }
    requires channels { All (λ w. 1 ≤ w.wav.channels) waves.now }
    ensures { IfOk result (AreAhead waves.now line.now members.now) }
{
    let mut epochs = Items::new(alloc);
    let mut sums = Sums {
        events: 0,
        samples: 0,
        bytes: 0,
    };
    for member in members {
        let epoch = member.next_epoch(line, waves)?;
        sums = member.sums_more(sums, &epoch);
        epochs.push(epoch)?;
    }
    Ok(Ahead { epochs, sums })
}

// The epochs that a line makes of the parts, or the limit that the sums of all pass with them.
fn judge_all(
    alloc: Global,
    members: &[Member],
    line: &Line,
    waves: &Items<WavIn>,
) -> Result<Result<Items<Option<Epoch>>, Which>, Memory>
    requires ready { All (IsReadyFor line.now) members.now }
    requires channels { All (λ w. 1 ≤ w.wav.channels) waves.now }
    ensures { IfOk result (AreJudged waves.now line.now members.now) }
{
    let ahead = look_ahead(alloc, members, line, waves)?;
    match ahead.sums.passed() {
        Some(which) => Ok(Err(which)),
        None => Ok(Ok(ahead.epochs)),
    }
}

// What a line does to each part, of which it makes these epochs.
fn go_all(
    members: &mut [Member],
    line: &Line,
    epochs: Items<Option<Epoch>>,
    waves: &Items<WavIn>,
) -> Result<Stepped, Memory>
    requires ready { All (IsReadyFor line.now) members.old }
    requires epochs { AreToCome waves.now line.now members.old epochs }
    requires channels { All (λ w. 1 ≤ w.wav.channels) waves.now }
    ensures { IfOk result
        (λ stepped. GoBy waves.now line.now members.old epochs stepped members.new) }
{
    let mut k = 0;
    for epoch in epochs.into_vec() {
        match members[k].go_by(line, epoch, waves) {
            Ok(Stepped::Done) => {}
            Ok(Stepped::Passed { which }) => return Ok(Stepped::Passed { which }),
            Err(Memory) => return Err(Memory),
        }
        k += 1;
    }
    Ok(Stepped::Done)
}

/// What a line does to all parts. A limit is passed before any epoch is taken; a part may have 256
/// links. After either and after `Memory` the parts are to be dropped.
pub(crate) fn move_all(
    alloc: Global,
    members: &mut [Member],
    line: &Line,
    waves: &Items<WavIn>,
) -> Result<Stepped, Memory>
    requires ready { All (IsReadyFor line.now) members.old }
    requires channels { All (λ w. 1 ≤ w.wav.channels) waves.now }
    ensures { IfOk result
        (λ stepped. MoveOrPass waves.now line.now members.old stepped members.new) }
{
    match judge_all(alloc, members, line, waves)? {
        Ok(epochs) => go_all(members, line, epochs, waves),
        Err(which) => Ok(Stepped::Passed { which }),
    }
}
