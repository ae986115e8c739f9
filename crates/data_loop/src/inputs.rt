//! The links into a node that works, read and added up.
ghost use Rattle.std.specs.Prelude.{◌≡◌, ◌≤◌, All, length, fold};
ghost use Rattle.pw_lists.specs.Limits.{links_limit};
ghost use Rattle.pw_lists.specs.Samples.{summed};
ghost use Rattle.board_rule.specs.OnBoard.{IsOn, layout};
ghost use Rattle.data_loop.specs.working.ReadingInputs.{MayReadAll, AreRead};
ghost use Rattle.data_loop.specs.working.Inputs.{IsZero, IsWide, links_of, first_rows, second_rows, AreLong};

use board_rule::{Board, BoardSeat};
use io_areas::read_input;
use s16_mixer::mix_into;

/// A link that a node reads, by its number in the shape, and whether it leads to the node's second
/// input.
#[derive(Clone, Copy, Drop)]
pub(crate) struct Input {
    pub link: u32,
    pub second: bool,
}

/// The node that works reads each of its links, and adds up what each input receives. `row` is one
/// quantum. Takes no memory, does not wait; one pass over the row for each link.
pub(crate) fn read_inputs<S: BoardSeat>(
    board: &Board,
    seat: &mut S,
    inputs: &[Input],
    row: &mut [i16],
    a: &mut [i32],
    b: &mut [i32],
)
    requires table { IsOn board.now (S.table seat.old) }
    requires phase { let p = layout board.now in
        MayReadAll S.is_driver p (S.knows seat.old) (links_of inputs.now) }
    requires few { length inputs.now ≤ links_limit }
    requires long { AreLong (layout board.now) (length row.old) inputs.now }
    requires first { (length a.old ≡ length row.old) × All IsZero a.old }
    requires second { IsWide (length row.old) (length b.old) inputs.now × All IsZero b.old }
    ensures table { S.table seat.new ≡ S.table seat.old }
    ensures knows { let p = layout board.now in
        AreRead S.is_driver p (S.knows seat.old) (links_of inputs.now) (S.knows seat.new) }
    ensures first { let p = layout board.now in
        a.new ≡ fold summed a.old (first_rows S.is_driver p (S.knows seat.old) inputs.now) }
    ensures second { let p = layout board.now in
        b.new ≡ fold summed b.old (second_rows S.is_driver p (S.knows seat.old) inputs.now) }
{
    for k in 0..inputs.len() {
        read_input(board, seat, inputs[k].link, row);
        if inputs[k].second {
            mix_into(b, row);
        } else {
            mix_into(a, row);
        }
    }
}
