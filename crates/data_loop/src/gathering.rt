//! The inputs of a node, as the cycle function has them.
ghost use Rattle.std.specs.Prelude.{◌≡◌, ◌≤◌, length, take};
ghost use Rattle.pw_lists.specs.Limits.{links_limit};
ghost use Rattle.board_rule.specs.OnBoard.{IsOn, layout};
ghost use Rattle.io_areas.specs.PooledBoard.{IsPooledBoard};
ghost use Rattle.data_loop.specs.working.ReadingInputs.{MayReadAll, AreRead};
ghost use Rattle.data_loop.specs.working.Inputs.{IsWide, links_of, only_link, AreLong};
ghost use Rattle.data_loop.specs.Rooms.{HasRowsFor, IsSameRoom, a_row, b_row};
ghost use Rattle.node_progress.specs.Standing.{receives};
ghost use Rattle.data_loop.specs.Gathering.{ReadsInputs};

use crate::inputs::{Input, read_inputs};
use crate::member::Member;
use crate::rows::Rows;
use crate::turn_context::TurnContext;
use board_rule::BoardSeat;
use io_areas::read_input;
use s16_mixer::clamp_out;

// The link of a node that reads only this one, at its first input.
fn only_link(inputs: &[Input]) -> Option<u32>
    ensures { result ≡ only_link inputs.now }
{
    match inputs {
        [input] if !input.second => Some(input.link),
        _ => None,
    }
}

// The inputs of the node, in rows that may be longer than they are wide. `a` also takes what one
// link brings.
fn gather_in<S: BoardSeat>(
    turn_context: &TurnContext<'_>,
    seat: &mut S,
    member: &Member,
    sum_a: &mut [i32],
    sum_b: &mut [i32],
    a: &mut [i16],
    b: &mut [i16],
)
    requires pooled { IsPooledBoard (layout turn_context.now.board.now) }
    requires table { IsOn turn_context.now.board.now (S.table seat.old) }
    requires phase { let p = layout turn_context.now.board.now in
        MayReadAll S.is_driver p (S.knows seat.old) (links_of member.now.inputs) }
    requires few { length member.now.inputs ≤ links_limit }
    requires long { let p = layout turn_context.now.board.now in
        AreLong p member.now.first_width member.now.inputs }
    requires reads { let p = layout turn_context.now.board.now in let m = member.now in
        ReadsInputs S.is_driver turn_context.now.run_model.now p (S.knows seat.old)
        turn_context.now.cycle m.node m.inputs m.first_width m.second_width }
    requires second { let m = member.now in IsWide m.first_width m.second_width m.inputs }
    requires first_row { (member.now.first_width ≤ length sum_a.old)
        × (member.now.first_width ≤ length a.old) }
    requires second_row { (member.now.second_width ≤ length sum_b.old)
        × (member.now.second_width ≤ length b.old) }
    ensures table { S.table seat.new ≡ S.table seat.old }
    ensures knows { let p = layout turn_context.now.board.now in
        AreRead S.is_driver p (S.knows seat.old) (links_of member.now.inputs) (S.knows seat.new) }
    ensures a { take member.now.first_width a.new
        ≡ receives turn_context.now.run_model.now turn_context.now.cycle member.now.node 0 }
    ensures b { take member.now.second_width b.new
        ≡ receives turn_context.now.run_model.now turn_context.now.cycle member.now.node 1 }
{
    let board = turn_context.board;
    let inputs = member.inputs.as_slice();
    let a = &mut a[..member.first_width];
    let b = &mut b[..member.second_width];
    if let Some(link) = only_link(inputs) {
        read_input(board, seat, link, a);
        b.fill(0);
        return;
    }
    let sum_a = &mut sum_a[..member.first_width];
    let sum_b = &mut sum_b[..member.second_width];
    sum_a.fill(0);
    sum_b.fill(0);
    read_inputs(board, seat, inputs, a, sum_a, sum_b);
    clamp_out(sum_a, a);
    clamp_out(sum_b, b);
}

/// The node that works reads all its links: `a` and `b` of the rows then begin with what its inputs
/// get in the cycle. A single link is read straight into `a`, with no sum and no clamp. Takes no
/// memory, does not wait.
pub(crate) fn gather<S: BoardSeat>(
    turn_context: &TurnContext<'_>,
    seat: &mut S,
    member: &Member,
    rows: &mut Rows,
)
    requires pooled { IsPooledBoard (layout turn_context.now.board.now) }
    requires table { IsOn turn_context.now.board.now (S.table seat.old) }
    requires phase { let p = layout turn_context.now.board.now in
        MayReadAll S.is_driver p (S.knows seat.old) (links_of member.now.inputs) }
    requires few { length member.now.inputs ≤ links_limit }
    requires long { let p = layout turn_context.now.board.now in
        AreLong p member.now.first_width member.now.inputs }
    requires reads { let p = layout turn_context.now.board.now in let m = member.now in
        ReadsInputs S.is_driver turn_context.now.run_model.now p (S.knows seat.old)
        turn_context.now.cycle m.node m.inputs m.first_width m.second_width }
    requires second { let m = member.now in IsWide m.first_width m.second_width m.inputs }
    requires rows { HasRowsFor rows.old member.now }
    ensures table { S.table seat.new ≡ S.table seat.old }
    ensures knows { let p = layout turn_context.now.board.now in
        AreRead S.is_driver p (S.knows seat.old) (links_of member.now.inputs) (S.knows seat.new) }
    ensures a { a_row rows.new member.now
        ≡ receives turn_context.now.run_model.now turn_context.now.cycle member.now.node 0 }
    ensures b { b_row rows.new member.now
        ≡ receives turn_context.now.run_model.now turn_context.now.cycle member.now.node 1 }
    ensures rows { IsSameRoom rows.old rows.new }
{
    gather_in(
        turn_context,
        seat,
        member,
        rows.sum_a.as_mut_slice(),
        rows.sum_b.as_mut_slice(),
        rows.a.as_mut_slice(),
        rows.b.as_mut_slice(),
    );
}
