//! The members of a loop, gone over in a turn.
ghost use Rattle.std.specs.Prelude.{◌≡◌, ◌+◌, ◌≤◌, [], cond, eqb, not, length, filter, take, vec_capacity};
ghost use Rattle.board_rule.specs.OnBoard.{layout, table_of};
ghost use Rattle.board_rule.specs.Layout.{first};
ghost use Rattle.data_loop.specs.Progress.{AreOwn, IsProgressOf, IsFirstAt, IsProgressNow, chosen_in, is_chosen, HasPassed};
ghost use Rattle.data_loop.specs.LoopTurn.{least_next};
ghost use Rattle.data_loop.specs.Rooms.{IsSameRoom};
ghost use Rattle.data_loop.specs.EpochStateParts.{IsSameEpochState};
ghost use Rattle.data_loop.specs.EpochStates.{IsStanding, AreLeft};

use crate::did::Did;
use crate::epoch_context::EpochContext;
use crate::epoch_state::EpochState;
use crate::progress::Progress;
use crate::rows::Rows;
use crate::tried::Tried;
use board_rule::{Board, BoardSeat};
use node_state::NodeState;
use pw_outside::Gate;

// Whether a pass tries a member that has ended `ended` cycles: with `at` where these are `least`,
// without where they are not.
fn is_in_pass(ended: u32, least: u32, at: bool) -> bool
    ensures { result ≡ cond at (eqb ended least) (not (eqb ended least)) }
{
    (ended == least) == at
}

impl EpochState {
    // The index of the first member, at this one or after it, that has ended `least` cycles; the
    // number of members where there is none.
    fn first_at(&self, board: &Board, from: usize, least: u32) -> usize
        requires own { AreOwn (layout board.now) self.now.seat.knows self.now.members }
        ensures { IsFirstAt (layout board.now) self.now.seat.knows self.now.members least from
            result }
    {
        for index in from..self.members.len() {
            if self.seat.ended(board, self.members.as_slice()[index].node) == least {
                return index;
            }
        }
        self.members.len()
    }

    // The fewest cycles that a member has ended; all of the epoch where there is none.
    fn fewest(&self, board: &Board) -> u32
        requires own { AreOwn (layout board.now) self.now.seat.knows self.now.members }
        ensures { first (layout board.now) + result
            ≡ least_next (layout board.now) self.now.seat.knows self.now.members }
    {
        let mut least = board.shape().cycles;
        for index in 0..self.members.len() {
            least = least.min(self.seat.ended(board, self.members.as_slice()[index].node));
        }
        least
    }

    // The progress of the members now: the fewest cycles that one has ended, and the index of the
    // first such member.
    pub(crate) fn progress_now(&self, board: &Board) -> Progress
        requires own { AreOwn (layout board.now) self.now.seat.knows self.now.members }
        requires progress { IsProgressOf (layout board.now) self.now.seat.knows self.now.members
            self.now.progress }
        ensures { IsProgressNow (layout board.now) self.now.seat.knows self.now.members result }
    {
        let Progress { least, from } = self.progress;
        let at = self.first_at(board, from, least);
        if at < self.members.len() {
            return Progress { least, from: at };
        }
        let least = self.fewest(board);
        Progress {
            least,
            from: self.first_at(board, 0, least),
        }
    }

    // One pass over the members, from the index of the progress on: those that have ended its least
    // cycles are tried, or the others, in their order, until one has run.
    pub(crate) fn pass<G: Gate>(
        &mut self,
        epoch_context: &EpochContext<'_>,
        progress: Progress,
        at: bool,
        states: &mut [NodeState],
        rows: &mut Rows,
        found: &mut Vec<(u32, u64)>,
        gate: &G,
    ) -> Did
        requires stands { IsStanding epoch_context.now.run_model.now epoch_context.now.epoch
            (layout epoch_context.now.board.now) (table_of epoch_context.now.board.now) self.old
            states.old rows.old }
        requires past { let p = layout epoch_context.now.board.now in
            filter (is_chosen p self.old.seat.knows progress.least at)
            (take progress.from self.old.members) ≡ [] }
        requires room { let p = layout epoch_context.now.board.now in length found.old.items
            + length (chosen_in p self.old progress.least at) ≤ vec_capacity found.old }
        ensures stands { IsStanding epoch_context.now.run_model.now epoch_context.now.epoch
            (layout epoch_context.now.board.now) (table_of epoch_context.now.board.now) self.new
            states.new rows.new }
        ensures passed { HasPassed (layout epoch_context.now.board.now) progress.least at
            self.old result found.old.items found.new.items self.new }
        ensures same { IsSameEpochState self.old self.new }
        ensures progress { self.new.progress ≡ self.old.progress }
        ensures states { AreLeft self.old.members states.old states.new }
        ensures rows { IsSameRoom rows.old rows.new }
        ensures capacity { vec_capacity found.new ≡ vec_capacity found.old }
    {
        for index in progress.from..self.members.len() {
            let node = self.members.as_slice()[index].node;
            if !is_in_pass(
                self.seat.ended(epoch_context.board, node),
                progress.least,
                at,
            ) {
                continue;
            }
            match self.try_member(epoch_context, index, states, rows, gate) {
                Tried::Ended => (),
                Tried::NotYet { found: word } => found.push_reserved((node, word)),
                Tried::Ran => return Did::Ran { node },
            }
        }
        Did::Idle
    }
}
