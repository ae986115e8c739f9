//! How a board begins: its words at the start, and its seats split off the first one.
ghost use Rattle.board_rule.specs.OnBoard.{IsOn, layout};
ghost use Rattle.std.specs.Prelude.{◌≡◌, ℕ, ◌+◌, ◌<◌, length, slice_get, Some, IfOk};
ghost use Rattle.pw_graph.specs.Layout.{event_count};
ghost use Rattle.pw_graph.specs.Pools.{IsPooledShape, pools_of};
ghost use Rattle.board_rule.specs.Known.{Known};
ghost use Rattle.board_rule.specs.Layout.{layout_of, HasSeats};
ghost use Rattle.board_rule.specs.buffers.SampleWords.{IsTable};
ghost use Rattle.board_rule.specs.start.Owners.{own, owners_of};
ghost use Rattle.board_rule.specs.working.NodeIndexes.{AreIndexes};
ghost use Rattle.board_rule.specs.working.Shares.{HasShares};
ghost use Rattle.board_rule.specs.working.Slots.{AreOwners};
ghost use Rattle.board_rule.specs.View.{Samples, first_view, driver_view, loop_view, split_off};

use crate::board::Board;
use crate::board_shape::BoardShape;
use crate::copying::copy_shape;
use crate::dealing::take;
use crate::driver_seat::DriverSeat;
use crate::expect::Expect;
use crate::layout::start_words;
use crate::lead::lead_at;
use crate::loop_seat::LoopSeat;
use crate::node_indexes::indexes_of;
use crate::owners::OwnerRows;
use crate::rows::rows_of;
use crate::rule::{BoardTable, BoardToken};
use crate::shares::{Shares, shares_of};
use crate::slots::slots_in;
use crate::starts::starts_of;
use crate::view::{ReadView, View};
use atomic_table::{Split, Table};
use pw_graph::{PoolShape, Shape, pools_of};
use pw_lists::{Items, Memory};
use std::alloc::Global;
use std::marker::{Brand, PhantomData};

/// The views of a seat and of the one that is split off it.
pub(crate) trait Cut {
    ghost use Rattle.board_rule.specs.declared.view.View.{View};

    ghost left: { View };

    ghost right: { View };
}

impl Cut for Brand {
    ghost use Rattle.board_rule.specs.working.Plays.{no_view};

    ghost left = { no_view };

    ghost right = { no_view };
}

/// A split into the views of `C`.
pub(crate) struct Parts<C> {
    cut: PhantomData<C>,
}

impl<C: Cut> Split<View> for Parts<C> {
    ghost left = { λ _. C.left };

    ghost right = { λ _. C.right };
}

// Splits a seat off the driver's.
fn split<C: Cut>(board: &Board, token: &mut BoardToken) -> BoardToken
    requires table { IsOn board.now token.old.table_id }
    requires is_driver { token.old.me.0.number ≡ (layout board.now).seats }
    requires room { token.old.me.0.split < (layout board.now).seats }
    requires views { ((e : Samples) × (0 < token.old.me.0.split → e ≡ token.old.me.0.expect)
        × IsTable (layout board.now) e × (C.left ≡ split_off e token.old.me.0)
        × (C.right ≡ loop_view (layout board.now) e token.old.me.0.split)) }
    ensures left { (token.new.table_id ≡ token.old.table_id) × (token.new.id ≡ token.old.id)
        × (token.new.me.0 ≡ C.left) }
    ensures right { (result.table_id ≡ token.old.table_id) × (result.me.0 ≡ C.right) }
{
    board.table.shared.split_seat::<Parts<C>>(token)
}

impl DriverSeat {
    // Splits the next loop's seat off the driver's, which begins with its share. Takes no memory.
    fn split_off<E: Expect>(
        &mut self,
        alloc: Global,
        board: &Board,
        shares: &mut Shares,
        seat: u32,
    ) -> LoopSeat
        requires table { IsOn board.now self.old.table }
        requires is_driver { self.old.knows.number ≡ (layout board.now).seats }
        requires room { self.old.knows.split < (layout board.now).seats }
        requires seat { seat ≡ self.old.knows.split }
        requires shares { HasShares (layout board.now) seat (layout board.now).seats shares.old }
        requires expect { 0 < self.old.knows.split → E.expect ≡ self.old.knows.expect }
        requires samples { IsTable (layout board.now) E.expect }
        ensures driver { (self.new.table ≡ self.old.table)
            × (self.new.knows ≡ split_off E.expect self.old.knows) }
        ensures loops { (result.table ≡ self.old.table)
            × (result.knows ≡ loop_view (layout board.now) E.expect self.old.knows.split) }
        ensures rest { HasShares (layout board.now) (seat + 1) (layout board.now).seats
            shares.new }
    {
        let nodes = take(alloc, &mut shares.nodes, seat);
        let writes = take(alloc, &mut shares.writes, seat);
        let reads = take(alloc, &mut shares.reads, seat);
        let blocks = take(alloc, &mut shares.blocks, seat);
        let token = split::<Brand>(board, &mut self.token);
        LoopSeat {
            token,
            nodes,
            writes,
            reads,
            blocks,
            woke: 0,
        }
    }
}

impl DriverSeat {
    // Splits all loops' seats off the driver's, by their numbers.
    fn split_all<E: Expect>(
        &mut self,
        alloc: Global,
        board: &Board,
        shares: &mut Shares,
    ) -> Result<Items<LoopSeat>, Memory>
        requires table { IsOn board.now self.old.table }
        requires knows { self.old.knows ≡ first_view (layout board.now) }
        requires shares { HasShares (layout board.now) 0 (layout board.now).seats shares.old }
        requires samples { IsTable (layout board.now) E.expect }
        ensures driver { IfOk result (λ _. self.new
            ≡ record {
              table = board.now.table.shared.table_id;
              knows = driver_view (layout board.now) E.expect board.now.board_shape.seats;
            }) }
        ensures count { IfOk result (λ loops. length loops ≡ board.now.board_shape.seats) }
        ensures loops { IfOk result (λ loops. (k : ℕ) → k < board.now.board_shape.seats
            → slice_get loops k ≡ Some record {
              table = board.now.table.shared.table_id;
              knows = loop_view (layout board.now) E.expect k;
            }) }
    {
        let mut loops = Items::new(alloc);
        loops.reserve(board.board_shape.seats as usize)?;
        for k in 0..board.board_shape.seats {
            loops.push(self.split_off::<E>(alloc, board, shares, k))?;
        }
        Ok(loops)
    }
}

// A shape and its seats, in memory of their own.
fn board_shape_of(
    alloc: Global,
    shape: &Shape,
    seat_of: &Items<u32>,
    seats: u32,
) -> Result<BoardShape, Memory>
    ensures { IfOk result (λ board_shape. board_shape
        ≡ record { shape = shape.now; seat_of = seat_of.now; seats = seats }) }
{
    Ok(BoardShape {
        shape: copy_shape(alloc, shape)?,
        seat_of: seat_of.copy(alloc)?,
        seats,
    })
}

// How many events the epoch of a shape has at most.
fn event_count(shape: &Shape) -> usize
    requires { IsPooledShape shape.now }
    ensures { result ≡ event_count shape.now }
{
    shape.cycles as usize * (2 * shape.nodes.len() + 3)
}

impl Board {
    // The board of a shape with its seats, with the driver's seat before any split, which begins
    // with these ends of links.
    fn lay_out(
        alloc: Global,
        board_shape: BoardShape,
        indexes: &[usize; 64],
        pools: &[PoolShape],
        owners: &OwnerRows,
        reads: Vec<ReadView>,
    ) -> Result<(Board, DriverSeat), Memory>
        requires indexes { AreIndexes board_shape.shape indexes.now }
        requires owners { AreOwners (layout_of board_shape) owners.now }
        requires reads { let p = layout_of board_shape in
            reads.items ≡ own p.seats (owners_of p).reads (first_view p).reads }
        requires pools { pools.now ≡ pools_of board_shape.shape }
        requires pooled { IsPooledShape board_shape.shape }
        requires seats { HasSeats board_shape }
        ensures { IfOk result (λ t. (t.0.board_shape ≡ board_shape)
            × (t.1.table ≡ t.0.table.shared.table_id)
            × (t.1.knows ≡ first_view (layout_of board_shape))) }
    {
        let spare = Items::new(alloc).into_room(event_count(&board_shape.shape))?;
        let words = start_words(alloc, &board_shape.shape, pools)?;
        let rows = rows_of(alloc, &board_shape.shape, pools, indexes, words.len())?;
        let slot_rows = slots_in(alloc, &board_shape, owners, rows.pools.as_slice())?;
        let (table, token): (BoardTable, BoardToken) = Table::of_words(
            alloc,
            words.as_slice(),
            &board_shape,
        )?;
        let lead = lead_at(u64::from(board_shape.shape.first));
        Ok((
            Board {
                table,
                board_shape,
                rows,
                slot_rows,
                spare,
            },
            DriverSeat {
                token,
                lead,
                reads,
                woke: 0,
            },
        ))
    }

    /// A board for a shape, the driver's seat and the loops' seats in the order of their numbers.
    /// `seat_of` gives the loop's seat of each node by index in the shape, below `seats`; the
    /// driver's entry is not looked at. All seats agree on the samples of `E`, which the caller
    /// names at the call: for each cycle and pool one quantum of 16-bit samples.
    ///
    /// Memory: the words of the shape once, and for each seat a record of each node, end of a link
    /// and block that is its own.
    pub fn new<E: Expect>(
        alloc: Global,
        shape: &Shape,
        seat_of: &Items<u32>,
        seats: u32,
    ) -> Result<(Board, DriverSeat, Items<LoopSeat>), Memory>
        requires pooled { IsPooledShape shape.now }
        requires seats { HasSeats
            record { shape = shape.now; seat_of = seat_of.now; seats = seats } }
        requires samples { IsTable
            (layout_of record { shape = shape.now; seat_of = seat_of.now; seats = seats })
            E.expect }

        ensures board_shape { IfOk result (λ t. t.0.board_shape
            ≡ record { shape = shape.now; seat_of = seat_of.now; seats = seats }) }
        ensures driver { IfOk result (λ t. t.1
            ≡ record {
              table = t.0.table.shared.table_id;
              knows = driver_view (layout_of t.0.board_shape) E.expect seats;
            }) }
        ensures count { IfOk result (λ t. length t.2 ≡ seats) }
        ensures loops { IfOk result (λ t. (k : ℕ) → k < seats
            → slice_get t.2 k ≡ Some record {
              table = t.0.table.shared.table_id;
              knows = loop_view (layout_of t.0.board_shape) E.expect k;
            }) }
    {
        let pools = pools_of(alloc, shape)?;
        Board::with_pools::<E>(alloc, shape, pools.as_slice(), seat_of, seats)
    }

    /// As `new`, with the pools of the shape, for a caller that has them.
    pub fn with_pools<E: Expect>(
        alloc: Global,
        shape: &Shape,
        pools: &[PoolShape],
        seat_of: &Items<u32>,
        seats: u32,
    ) -> Result<(Board, DriverSeat, Items<LoopSeat>), Memory>
        requires pooled { IsPooledShape shape.now }
        requires pools { pools.now ≡ pools_of shape.now }
        requires seats { HasSeats
            record { shape = shape.now; seat_of = seat_of.now; seats = seats } }
        requires samples { IsTable
            (layout_of record { shape = shape.now; seat_of = seat_of.now; seats = seats })
            E.expect }

        ensures board_shape { IfOk result (λ t. t.0.board_shape
            ≡ record { shape = shape.now; seat_of = seat_of.now; seats = seats }) }
        ensures driver { IfOk result (λ t. t.1
            ≡ record {
              table = t.0.table.shared.table_id;
              knows = driver_view (layout_of t.0.board_shape) E.expect seats;
            }) }
        ensures count { IfOk result (λ t. length t.2 ≡ seats) }
        ensures loops { IfOk result (λ t. (k : ℕ) → k < seats
            → slice_get t.2 k ≡ Some record {
              table = t.0.table.shared.table_id;
              knows = loop_view (layout_of t.0.board_shape) E.expect k;
            }) }
    {
        let board_shape = board_shape_of(alloc, shape, seat_of, seats)?;
        let indexes = indexes_of(&board_shape.shape);
        let starts = starts_of(alloc, &board_shape, &indexes, pools)?;
        let (reads, mut shares) = shares_of(alloc, &board_shape, &starts)?;
        let (board, mut driver) = Board::lay_out(
            alloc,
            board_shape,
            &indexes,
            pools,
            &starts.owners,
            reads,
        )?;
        let loops = driver.split_all::<E>(alloc, &board, &mut shares)?;
        Ok((board, driver, loops))
    }
}
