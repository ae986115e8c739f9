//! The turn of a follower that is awake, in rows of the loop.
ghost use Rattle.std.specs.Prelude.{◌≡◌, ◌≤◌, suc, length, take};
ghost use Rattle.board_rule.specs.OnBoard.{IsOn, layout};
ghost use Rattle.data_loop.specs.turns.Turning.{IsEquipped, MayTurn, HasTurned};
ghost use Rattle.node_progress.specs.NodeStates.{IsNodeState, MayWork};
ghost use Rattle.node_progress.specs.Standing.{Gives};
ghost use Rattle.data_loop.specs.Rooms.{HasRowsFor, IsSameRoom, a_row, b_row, left_row, right_row};
ghost use Rattle.data_loop.specs.working.Standings.{IsPlayer};

use crate::gathering::gather;
use crate::giving::give_all;
use crate::member::Member;
use crate::own_pools::OwnPools;
use crate::rows::Rows;
use crate::turn_context::TurnContext;
use activation_words::{finish, start};
use board_rule::LoopSeat;
use node_progress::{NodeCycle, work};
use node_state::NodeState;
use pw_outside::Gate;

// One cycle of the node's state, from rows of its inputs to rows of its outputs that may be longer
// than these are wide.
fn work_in(
    turn_context: &TurnContext<'_>,
    member: &Member,
    state: &mut NodeState,
    a: &[i16],
    b: &[i16],
    left: &mut [i16],
    right: &mut [i16],
)
    requires may { let m = member.now in
        MayWork turn_context.now.run_model.now turn_context.now.epoch turn_context.now.cycle m.node
        state.old (take m.first_width a.now) (take m.second_width b.now)
        (take m.left_width left.old) (take m.right_width right.old) }
    requires inputs { (member.now.first_width ≤ length a.now)
        × (member.now.second_width ≤ length b.now) }
    requires outputs { (member.now.left_width ≤ length left.old)
        × (member.now.right_width ≤ length right.old) }
    ensures left { let m = member.now in
        Gives turn_context.now.run_model.now turn_context.now.cycle m.node 0
        (take m.left_width left.old) (take m.left_width left.new) }
    ensures right { let m = member.now in
        Gives turn_context.now.run_model.now turn_context.now.cycle m.node 1
        (take m.right_width right.old) (take m.right_width right.new) }
    ensures state { IsNodeState turn_context.now.run_model.now turn_context.now.epoch
        (suc turn_context.now.cycle) member.now.node state.new }
{
    let at = NodeCycle {
        epoch: turn_context.epoch,
        cycle: turn_context.cycle,
        node: member.node,
        a: &a[..member.first_width],
        b: &b[..member.second_width],
    };
    let left = &mut left[..member.left_width];
    let right = &mut right[..member.right_width];
    work(turn_context.run_model, &at, state, left, right);
}

// The same, in the rows of the loop.
fn work_in_rows(
    turn_context: &TurnContext<'_>,
    member: &Member,
    state: &mut NodeState,
    rows: &mut Rows,
)
    requires may { let m = member.now in
        MayWork turn_context.now.run_model.now turn_context.now.epoch turn_context.now.cycle m.node
        state.old
        (a_row rows.old m) (b_row rows.old m) (left_row rows.old m) (right_row rows.old m) }
    requires rows { HasRowsFor rows.old member.now }
    ensures left { Gives turn_context.now.run_model.now turn_context.now.cycle member.now.node 0
        (left_row rows.old member.now) (left_row rows.new member.now) }
    ensures right { Gives turn_context.now.run_model.now turn_context.now.cycle member.now.node 1
        (right_row rows.old member.now) (right_row rows.new member.now) }
    ensures state { IsNodeState turn_context.now.run_model.now turn_context.now.epoch
        (suc turn_context.now.cycle) member.now.node state.new }
    ensures rows { IsSameRoom rows.old rows.new }
{
    work_in(
        turn_context,
        member,
        state,
        rows.a.as_slice(),
        rows.b.as_slice(),
        rows.left.as_mut_slice(),
        rows.right.as_mut_slice(),
    );
}

/// The turn of a member that is awake in this cycle: it starts, takes what its links bring, does
/// one quantum, gives in its pools what its outputs give, and finishes. `own` has the pools of its
/// loop. Takes no memory, does not wait.
pub(crate) fn play<G: Gate>(
    turn_context: &TurnContext<'_>,
    seat: &mut LoopSeat,
    member: &Member,
    own: &mut OwnPools,
    state: &mut NodeState,
    rows: &mut Rows,
    gate: &G,
)
    requires table { IsOn turn_context.now.board.now seat.old.table }
    requires equipped { IsEquipped (layout turn_context.now.board.now) seat.old.knows own.old }
    requires player { IsPlayer turn_context.now.run_model.now (layout turn_context.now.board.now)
        seat.old.knows turn_context.now.epoch turn_context.now.cycle member.now }
    requires awake { let p = layout turn_context.now.board.now in
        MayTurn p seat.old.knows own.old (p.index member.now.node) }
    requires state { IsNodeState turn_context.now.run_model.now turn_context.now.epoch
        turn_context.now.cycle member.now.node state.old }
    requires rows { HasRowsFor rows.old member.now }
    ensures table { seat.new.table ≡ seat.old.table }
    ensures turned { let p = layout turn_context.now.board.now in
        HasTurned p seat.old.knows own.old (p.index member.now.node) seat.new.knows own.new }
    ensures state { IsNodeState turn_context.now.run_model.now turn_context.now.epoch
        (suc turn_context.now.cycle) member.now.node state.new }
    ensures rows { IsSameRoom rows.old rows.new }
{
    let board = turn_context.board;
    start(board, seat, member.node);
    gate.enter(member.node, turn_context.cycle);
    gather(turn_context, seat, member, rows);
    work_in_rows(turn_context, member, state, rows);
    give_all(
        board,
        seat,
        member.pools.as_slice(),
        own,
        member.first_output,
        &rows.left.as_slice()[..member.left_width],
        &rows.right.as_slice()[..member.right_width],
    );
    finish(board, seat, member.node);
}
