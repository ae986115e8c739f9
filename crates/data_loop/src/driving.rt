//! The turn of the driver's node, from its Start to its Finish.
ghost use Rattle.std.specs.Prelude.{◌≡◌, suc};
ghost use Rattle.board_rule.specs.OnBoard.{IsOn, layout};
ghost use Rattle.io_areas.specs.PooledBoard.{IsPooledBoard};
ghost use Rattle.node_progress.specs.NodeStates.{IsNodeState};
ghost use Rattle.data_loop.specs.Rooms.{HasRowsFor, IsSameRoom};
ghost use Rattle.data_loop.specs.Driving.{HasNoLinkIn, MayDrive, IsDriverPlayer, HasDriven};

use crate::gathering::gather;
use crate::member::Member;
use crate::rows::Rows;
use crate::turn_context::TurnContext;
use activation_words::{finish, start};
use board_rule::{Board, DriverSeat};
use node_progress::{NodeCycle, work};
use node_state::NodeState;
use pw_outside::Gate;

/// The turn of the driver's node that is awake in this cycle, and works in it: Start, the gate,
/// all links into it read, one quantum processed, Finish. It has no outputs. Takes no memory, does
/// not wait; one pass over a row for each link.
/// Condition: the member is that of the driver's node.
pub(crate) fn play_driver<G: Gate>(
    turn_context: &TurnContext<'_>,
    seat: &mut DriverSeat,
    member: &Member,
    state: &mut NodeState,
    rows: &mut Rows,
    gate: &G,
)
    requires pooled { IsPooledBoard (layout turn_context.now.board.now) }
    requires table { IsOn turn_context.now.board.now seat.old.table }
    requires player { IsDriverPlayer turn_context.now.run_model.now
        (layout turn_context.now.board.now)
        seat.old.knows turn_context.now.epoch turn_context.now.cycle member.now }
    requires awake { MayDrive (layout turn_context.now.board.now) seat.old.knows
        turn_context.now.cycle }
    requires state { IsNodeState turn_context.now.run_model.now turn_context.now.epoch
        turn_context.now.cycle member.now.node state.old }
    requires rows { HasRowsFor rows.old member.now }
    ensures table { seat.new.table ≡ seat.old.table }
    ensures driven { let p = layout turn_context.now.board.now in
        HasDriven p seat.old.knows turn_context.now.cycle seat.new.knows }
    ensures state { IsNodeState turn_context.now.run_model.now turn_context.now.epoch
        (suc turn_context.now.cycle) member.now.node state.new }
    ensures rows { IsSameRoom rows.old rows.new }
{
    let board = turn_context.board;
    let driver = board.shape().driver;
    start(board, seat, driver);
    gate.enter(driver, turn_context.cycle);
    gather(turn_context, seat, member, rows);
    let at = NodeCycle {
        epoch: turn_context.epoch,
        cycle: turn_context.cycle,
        node: member.node,
        a: &rows.a.as_slice()[..member.first_width],
        b: &rows.b.as_slice()[..member.second_width],
    };
    work(turn_context.run_model, &at, state, &mut [], &mut []);
    finish(board, seat, driver);
}

/// The turn of a driver's node that is awake and is not processed, since no link leads to it: node
/// 63, or one whose input has no form. Between its Start and its Finish only the gate is called.
/// Takes no memory, does not wait.
pub fn pass_driver<G: Gate>(board: &Board, seat: &mut DriverSeat, cycle: u32, gate: &G)
    requires pooled { IsPooledBoard (layout board.now) }
    requires table { IsOn board.now seat.old.table }
    requires awake { MayDrive (layout board.now) seat.old.knows cycle }
    requires alone { HasNoLinkIn (layout board.now) }
    ensures table { seat.new.table ≡ seat.old.table }
    ensures driven { HasDriven (layout board.now) seat.old.knows cycle seat.new.knows }
{
    let node = board.shape().driver;
    start(board, seat, node);
    gate.enter(node, cycle);
    finish(board, seat, node);
}
