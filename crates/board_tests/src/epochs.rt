//! Whole epochs of a board on which the driver's node is the only one, and what its events are
//! then.
ghost use Rattle.std.specs.Prelude.{◌≡◌, All, IfOk, IfSome, [], length, not};
ghost use Rattle.board_rule.specs.Layout.{first};
ghost use Rattle.board_rule.specs.OnBoard.{IsOn, layout, table_of};
ghost use Rattle.io_areas.specs.PooledBoard.{IsPooledBoard};
ghost use Rattle.data_loop.specs.Driving.{HasNoLinkIn};
ghost use Rattle.data_loop.specs.LoopDriver.{DrivesFrom, HasLedSoFar};
ghost use Rattle.data_loop.specs.LoopsOnBoards.{IsOnBoard, IsAtEnd};
ghost use Rattle.data_loop.specs.LoopWay.{IsDriverWay};
ghost use Rattle.driver_cycle.specs.Leading.{IsLeading, IsBetween, IsWaiting, IsDriving};
ghost use Rattle.driver_cycle.specs.Settling.{HasSettled};

use activation_words::{Claim, claim_driver, end};
use board_rule::{Board, BoardSeat, Closed, DriverSeat};
use data_loop::{LoopState, Way, Ways, pass_driver};
use driver_cycle::{begin_next, lead_once, look, run_epoch, settle};
use graph_checks::is_pooled_shape;
use pw_graph::{Event, Shape, ShapeNode};
use pw_lists::{Items, Memory};
use pw_outside::{Every, Open};
use std::alloc::Global;
use std::marker::Brand;
use std::sync::Wait;
use std::test::Fail;

// Only the driver's node, for three cycles.
fn alone(alloc: Global, driver: u32) -> Result<Shape, Memory>
    ensures { IfOk result (λ shape. (length shape.nodes ≡ 1) × (shape.links ≡ [])) }
{
    let mut nodes = Items::new(alloc);
    nodes.push(ShapeNode {
        node: driver,
        required: 1,
        targets: Items::from_slice(alloc, &[driver])?,
    })?;
    Ok(Shape {
        quantum: 4,
        first: 0,
        cycles: 3,
        driver,
        nodes,
        links: Items::new(alloc),
    })
}

// Its board. None where the shape is not sound.
fn opened(alloc: Global, driver: u32) -> Result<Option<(Board, DriverSeat)>, Memory>
    ensures { IfOk result (λ o. IfSome o (λ t. IsOn t.0 t.1.table
        × (let p = layout t.0 in IsPooledBoard p × HasNoLinkIn p × IsBetween p t.1.knows))) }
{
    let shape = alone(alloc, driver)?;
    if !is_pooled_shape(&shape) {
        return Ok(None);
    }
    let seat_of = Items::from_slice(alloc, &[0])?;
    let (board, seat, _loops) = Board::new::<Brand>(alloc, &shape, &seat_of, 1)?;
    Ok(Some((board, seat)))
}

// The next cycle, with a look before the claim. Some(false) where no cycle is left, None where the
// claim was too early.
fn one_cycle(board: &Board, seat: &mut DriverSeat, ticker: &mut Every) -> Option<bool>
    requires pooled { IsPooledBoard (layout board.now) }
    requires table { IsOn board.now seat.old.table }
    requires alone { HasNoLinkIn (layout board.now) }
    requires between { IsBetween (layout board.now) seat.old.knows }
    ensures table { IsOn board.now seat.new.table }
    ensures between { IfSome result (λ _. IsBetween (layout board.now) seat.new.knows) }
{
    if !begin_next(board, seat) {
        return Some(false);
    }
    look(board, seat, ticker);
    match claim_driver(board, seat) {
        Claim::NotYet { .. } => None,
        Claim::Awake { cycle } => {
            pass_driver(board, seat, cycle, &Open::new());
            end(board, seat);
            Some(true)
        }
    }
}

// One claim of the driver's node, with a gate that lets each node through.
fn lead_open(
    board: &Board,
    seat: &mut DriverSeat,
    own: &mut LoopState,
    checked: &mut bool,
    ticker: &mut Every,
) -> bool
    requires leads { IsLeading own.old.run_model own.old.epoch board.now seat.old }
    requires waits { IsWaiting (layout board.now) seat.old.knows }
    requires stands { IsOnBoard (layout board.now) (table_of board.now) own.old }
    requires driver { DrivesFrom (layout board.now) own.old }
    requires led_so_far { HasLedSoFar (layout board.now) own.old seat.old.knows }
    requires checked { checked.old ≡ seat.old.knows.lead.checked }
    ensures driving { IsDriving (layout board.now) seat.new.knows (not result) }
{
    lead_once(board, seat, own, checked, ticker, &Open::new())
}

// The end of an epoch for one loop.
fn settle_open<R: Wait>(rt: &R, board: &Board, state: &mut LoopState)
    requires stands { IsOnBoard (layout board.now) (table_of board.now) state.old }
    ensures settled { HasSettled (layout board.now) (table_of board.now) state.old state.new }
{
    settle(rt, board, state, &Open::new());
}

// One epoch, with a look in every second cycle.
fn run_open<R: Wait>(
    rt: &R,
    board: &Board,
    seat: &mut DriverSeat,
    own: &mut LoopState,
    adopted: &mut [LoopState],
    ways: &Ways,
    way: &mut Way,
)
    requires leads { IsLeading own.old.run_model own.old.epoch board.now seat.old }
    requires between { IsBetween (layout board.now) seat.old.knows }
    requires stands { IsOnBoard (layout board.now) (table_of board.now) own.old }
    requires driver { DrivesFrom (layout board.now) own.old }
    requires first { seat.old.knows.lead.cycle ≡ first (layout board.now) }
    requires none_led { own.old.led ≡ 0 }
    requires adopted { All (IsOnBoard (layout board.now) (table_of board.now)) adopted.old }
    requires way { IsDriverWay ways.now way.old }
    ensures end { IsAtEnd (layout board.now) (table_of board.now) own.new }
{
    let mut ticker = Every::new(2);
    run_epoch(
        rt,
        board,
        seat,
        own,
        adopted,
        ways,
        way,
        &mut ticker,
        &Open::new(),
    );
}

// Four cycles, of which three are left, and the end of the board. None where one was too early or
// went otherwise.
fn closed(board: Board, seat: DriverSeat) -> Option<Closed>
    requires pooled { IsPooledBoard (layout board) }
    requires table { IsOn board seat.table }
    requires alone { HasNoLinkIn (layout board) }
    requires between { IsBetween (layout board) seat.knows }
{
    let mut seat = seat;
    let mut ticker = Every::new(2);
    let first = one_cycle(&board, &mut seat, &mut ticker)?;
    let second = one_cycle(&board, &mut seat, &mut ticker)?;
    let third = one_cycle(&board, &mut seat, &mut ticker)?;
    let fourth = one_cycle(&board, &mut seat, &mut ticker)?;
    let driver = board.shape().driver;
    let went = first && second && third && !fourth;
    if went && seat.ended(&board, driver) == board.shape().cycles {
        Some(board.close(seat))
    } else {
        None
    }
}

// The events of this driver's cycles.
fn events_of(driver: u32) -> [Event; 13] {
    [
        Event::Begin { cycle: 0 },
        Event::Start {
            cycle: 0,
            node: driver,
        },
        Event::Finish {
            cycle: 0,
            node: driver,
        },
        Event::End { cycle: 0 },
        Event::Begin { cycle: 1 },
        Event::Tick { cycle: 1, late: 0 },
        Event::Start {
            cycle: 1,
            node: driver,
        },
        Event::Finish {
            cycle: 1,
            node: driver,
        },
        Event::End { cycle: 1 },
        Event::Begin { cycle: 2 },
        Event::Start {
            cycle: 2,
            node: driver,
        },
        Event::Finish {
            cycle: 2,
            node: driver,
        },
        Event::End { cycle: 2 },
    ]
}

// Node 63 is the silent driver, and node 5 a sink without a form.
#[test]
fn a_driver_runs_alone(rt: HostRuntime) -> Result<(), Fail> {
    for driver in [63, 5] {
        let ended = match opened(rt.alloc(), driver) {
            Ok(Some((board, seat))) => closed(board, seat),
            _ => None,
        };
        let went = match ended {
            Some(ended) => ended.events().as_slice() == events_of(driver).as_slice(),
            None => false,
        };
        assert_eq!(rt; (driver, went), (driver, true));
    }
    Ok(())
}
