//! What a loop has in one epoch.
ghost use Rattle.std.specs.Prelude.{◌≡◌, ◌≢◌, ◌<◌, ◌≤◌, ℕ, [], All, IfSome, IfNone, length, slice_index_or, vec_capacity};
ghost use Rattle.node_state.specs.declared.node_state.NodeState.{NodeState};
ghost use Rattle.board_rule.specs.OnBoard.{layout, table_of};
ghost use Rattle.data_loop.specs.EpochStates.{IsStanding};
ghost use Rattle.data_loop.specs.Tries.{HasTried, no_member, member_at};
ghost use Rattle.data_loop.specs.LoopTurn.{IsDid};
ghost use Rattle.data_loop.specs.LoopTries.{IsDidAt, IsWoke};
ghost use Rattle.data_loop.specs.Rooms.{IsSameRoom};
ghost use Rattle.data_loop.specs.EpochStateParts.{IsSameEpochState};
ghost use Rattle.data_loop.specs.EpochStates.{AreLeft};

use crate::did::Did;
use crate::epoch_context::EpochContext;
use crate::guesses::guess_in;
use crate::member::Member;
use crate::own_pools::OwnPools;
use crate::playing::play;
use crate::progress::Progress;
use crate::rows::Rows;
use crate::tried::Tried;
use crate::turn_context::TurnContext;
use activation_words::{Claim, claim};
use board_rule::{BoardSeat, LoopSeat};
use node_state::NodeState;
use pw_lists::Items;
use pw_outside::Gate;

/// A seat on the board of an epoch, the loop's followers there, the driver where that is one of the
/// loop's nodes and has a form, and the pools that the loop's nodes fill. `restarts` has for each
/// of the loop's nodes with how many channels the epoch begins it anew.
#[derive(Drop)]
pub(crate) struct EpochState {
    pub seat: LoopSeat,
    pub members: Items<Member>,
    /// Where the follower of each node may be.
    pub guesses: Items<u8>,
    pub driver: Items<Member>,
    pub restarts: Items<Option<u32>>,
    pub own: OwnPools,
    pub progress: Progress,
}

// The index of the member of a node, by a look at each.
fn find(members: &[Member], node: u32) -> Option<usize>
    ensures some { IfSome result (λ i. (i < length members.now)
        × ((slice_index_or members.now i no_member).node ≡ node)) }
    ensures none { IfNone result (All (λ m. m.node ≢ node) members.now) }
{
    for index in 0..members.len() {
        if members[index].node == node {
            return Some(index);
        }
    }
    None
}

// The index of the member of a node: where it is guessed, or else found.
fn index_of(members: &[Member], guesses: &[u8], node: u32) -> Option<usize>
    ensures some { IfSome result (λ i. (i < length members.now)
        × ((slice_index_or members.now i no_member).node ≡ node)) }
    ensures none { IfNone result (All (λ m. m.node ≢ node) members.now) }
{
    let guess = guess_in(guesses, node);
    if guess < members.len() && members[guess].node == node {
        return Some(guess);
    }
    find(members, node)
}

impl EpochState {
    /// One try of the member at an index, and where it is awake its turn: one cycle of the cycle
    /// function. `states` has the states of all nodes of the loop. Takes no memory, does not wait.
    pub(crate) fn try_member<G: Gate>(
        &mut self,
        epoch_context: &EpochContext<'_>,
        index: usize,
        states: &mut [NodeState],
        rows: &mut Rows,
        gate: &G,
    ) -> Tried
        requires stands { IsStanding epoch_context.now.run_model.now epoch_context.now.epoch
            (layout epoch_context.now.board.now) (table_of epoch_context.now.board.now) self.old
            states.old rows.old }
        requires inside { index < length self.old.members }
        ensures stands { IsStanding epoch_context.now.run_model.now epoch_context.now.epoch
            (layout epoch_context.now.board.now) (table_of epoch_context.now.board.now) self.new
            states.new rows.new }
        ensures tried { HasTried (layout epoch_context.now.board.now) self.old
            (member_at self.old index).node result self.new }
        ensures same { IsSameEpochState self.old self.new }
        ensures progress { self.new.progress ≡ self.old.progress }
        ensures states { (at : ℕ) (d : NodeState) → at ≢ (member_at self.old index).at
            → slice_index_or states.new at d ≡ slice_index_or states.old at d }
        ensures rows { IsSameRoom rows.old rows.new }
    {
        let board = epoch_context.board;
        let member = &self.members.as_slice()[index];
        if self.seat.ended(board, member.node) == board.shape().cycles {
            return Tried::Ended;
        }
        match claim(board, &mut self.seat, member.node) {
            Claim::NotYet { found } => Tried::NotYet { found },
            Claim::Awake { cycle } => {
                let turn_context = TurnContext {
                    run_model: epoch_context.run_model,
                    board,
                    epoch: epoch_context.epoch,
                    cycle,
                };
                play(
                    &turn_context,
                    &mut self.seat,
                    member,
                    &mut self.own,
                    &mut states[member.at as usize],
                    rows,
                    gate,
                );
                Tried::Ran
            }
        }
    }

    /// One turn: tries the members, those first that have ended the fewest cycles, each in their
    /// order, and ends with the first that has run. While one is a cycle behind, no member that is
    /// ahead of it can be awake, so that a turn tries few. `found` is empty before; then it has the
    /// node and the word of each try that was too early. Takes no memory, does not wait.
    pub(crate) fn turn<G: Gate>(
        &mut self,
        epoch_context: &EpochContext<'_>,
        states: &mut [NodeState],
        rows: &mut Rows,
        found: &mut Vec<(u32, u64)>,
        gate: &G,
    ) -> Did
        requires stands { IsStanding epoch_context.now.run_model.now epoch_context.now.epoch
            (layout epoch_context.now.board.now) (table_of epoch_context.now.board.now) self.old
            states.old rows.old }
        requires empty { found.old.items ≡ [] }
        requires room { length self.old.members ≤ vec_capacity found.old }
        ensures stands { IsStanding epoch_context.now.run_model.now epoch_context.now.epoch
            (layout epoch_context.now.board.now) (table_of epoch_context.now.board.now) self.new
            states.new rows.new }
        ensures did { IsDid (layout epoch_context.now.board.now) self.old result found.new.items
            self.new }
        ensures same { IsSameEpochState self.old self.new }
        ensures states { AreLeft self.old.members states.old states.new }
        ensures rows { IsSameRoom rows.old rows.new }
        ensures few { length found.new.items ≤ length self.old.members }
        ensures capacity { vec_capacity found.new ≡ vec_capacity found.old }
    {
        self.progress = self.progress_now(epoch_context.board);
        let Progress { least, from } = self.progress;
        match self.pass(
            epoch_context,
            Progress { least, from },
            true,
            states,
            rows,
            found,
            gate,
        ) {
            Did::Ran { node } => Did::Ran { node },
            Did::Idle => {
                let all = Progress { least, from: 0 };
                self.pass(epoch_context, all, false, states, rows, found, gate)
            }
        }
    }

    /// One try of the member of a node, if there is one. `found` is empty before; then it has the
    /// node and the word of a try that was too early. Takes no memory, does not wait.
    pub(crate) fn turn_at<G: Gate>(
        &mut self,
        epoch_context: &EpochContext<'_>,
        node: u32,
        states: &mut [NodeState],
        rows: &mut Rows,
        found: &mut Vec<(u32, u64)>,
        gate: &G,
    ) -> Did
        requires stands { IsStanding epoch_context.now.run_model.now epoch_context.now.epoch
            (layout epoch_context.now.board.now) (table_of epoch_context.now.board.now) self.old
            states.old rows.old }
        requires empty { found.old.items ≡ [] }
        requires room { length self.old.members ≤ vec_capacity found.old }
        ensures stands { IsStanding epoch_context.now.run_model.now epoch_context.now.epoch
            (layout epoch_context.now.board.now) (table_of epoch_context.now.board.now) self.new
            states.new rows.new }
        ensures did { IsDidAt (layout epoch_context.now.board.now) self.old node result
            found.new.items self.new }
        ensures same { IsSameEpochState self.old self.new }
        ensures states { AreLeft self.old.members states.old states.new }
        ensures rows { IsSameRoom rows.old rows.new }
        ensures few { length found.new.items ≤ length self.old.members }
        ensures capacity { vec_capacity found.new ≡ vec_capacity found.old }
    {
        let index = match index_of(self.members.as_slice(), self.guesses.as_slice(), node) {
            Some(index) => index,
            None => return Did::Idle,
        };
        match self.try_member(epoch_context, index, states, rows, gate) {
            Tried::Ended => Did::Idle,
            Tried::NotYet { found: word } => {
                found.push_reserved((node, word));
                Did::Idle
            }
            Tried::Ran => Did::Ran { node },
        }
    }

    /// The nodes that a turn or a try has woken. Takes no memory.
    pub(crate) fn woke(&self, did: Did) -> u64
        ensures { IsWoke did self.now result }
    {
        match did {
            Did::Ran { .. } => self.seat.woke(),
            Did::Idle => 0,
        }
    }
}
