//! The turn of a node on all pools that it fills.
ghost use Rattle.std.specs.Prelude.{◌≡◌, ◌==◌, if◌then◌else◌};
ghost use Rattle.board_rule.specs.OnBoard.{IsOn, layout};
ghost use Rattle.data_loop.specs.turns.Turning.{IsEquipped};
ghost use Rattle.data_loop.specs.working.Writing.{MayFillAll, AreWritten};
ghost use Rattle.data_loop.specs.working.Giving.{AllPut};

use crate::own_pools::OwnPools;
use board_rule::{Board, LoopSeat};
use io_areas::write_output;
use pw_graph::PoolShape;

// The row of a pool.
fn row_for<'a>(shape: &PoolShape, first_output: u32, left: &'a [i16], right: &'a [i16]) -> &'a [i16]
    ensures { result.now ≡ (if shape.now.port.port == first_output then left.now else right.now) }
{
    if shape.port.port == first_output {
        left
    } else {
        right
    }
}

/// The node that works gives its rows, one in each of its pools. `own` has the pools of its loop.
pub(crate) fn give_all(
    board: &Board,
    seat: &mut LoopSeat,
    pools: &[u32],
    own: &mut OwnPools,
    first_output: u32,
    left: &[i16],
    right: &[i16],
)
    requires table { IsOn board.now seat.old.table }
    requires equipped { IsEquipped (layout board.now) seat.old.knows own.old }
    requires phase { MayFillAll (layout board.now) seat.old.knows own.old pools.now }
    requires gives { let p = layout board.now in
        AllPut p seat.old.knows first_output left.now right.now pools.now }
    ensures table { seat.new.table ≡ seat.old.table }
    ensures knows { let p = layout board.now in
        AreWritten p seat.old.knows own.old pools.now seat.new.knows own.new }
{
    for pool in pools {
        let place = own.places.at(*pool as usize);
        let shape = &own.shapes.as_slice()[place];
        let row = row_for(shape, first_output, left, right);
        write_output(
            board,
            seat,
            *pool,
            shape.links.as_slice(),
            &mut own.free[place],
            row,
        );
    }
}
