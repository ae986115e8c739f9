//! The boards of all epochs.
ghost use Rattle.std.specs.Prelude.{◌≡◌, ◌+◌, ◌<◌, ◌≤◌, [], All, IfOk, length, map, zip};
ghost use Rattle.pw_graph.specs.SoundPlan.{IsSoundPlan};
ghost use Rattle.cycle_model.specs.WavesFit.{WavesFit};
ghost use Rattle.cycle_model.specs.Expected.{IsShort, AreShort, expected_samples};
ghost use Rattle.std.specs.List.{enumerate_from, range_with_len};
ghost use Rattle.data_loop.specs.PlanPools.{pools_in};
ghost use Rattle.graph_run.specs.Seating.{IsSeatingOf, holder_of};
ghost use Rattle.node_progress.specs.declared.run_model.RunModel.{RunModel};
ghost use Rattle.graph_run.specs.Boards.{AreBoardsBy, IsBoardMade, dealt, driver_of, all_seats};
ghost use Rattle.graph_run.specs.LoopsOnPlan.{AreFirstLeads};

use crate::seating::{Seating, seat_row};
use board_rule::{Board, DriverSeat, Expect, LoopSeat};
use data_loop::pools_in;
use pw_graph::{Plan, PoolShape};
use pw_lists::{Items, Memory, Room};
use std::alloc::Global;
use std::marker::Brand;
use wav_files::WavIn;

/// The boards of all epochs in order, the driver's seat of each, and by loop its seats, one a
/// board. The last loop is the driver's own.
#[derive(Drop)]
pub struct Boards {
    pub boards: Items<Board>,
    pub drivers: Items<DriverSeat>,
    pub seats: Vec<Room<LoopSeat>>,
}

// Looks at each sample, so that contracts know its range.
fn look_over(samples: &[i16])
    ensures { All IsShort samples.now }
{
    for k in 0..samples.len() {
        let _sample = samples[k];
    }
}

// Looks over all waves.
fn look_over_all(waves: &[WavIn])
    ensures { AreShort waves.now }
{
    for wave in waves {
        look_over(wave.wav.samples.as_slice());
    }
}

// The board of an epoch whose table is that of `E`, by the pools of each epoch.
fn board_with<E: Expect>(
    alloc: Global,
    plan: &Plan,
    waves: &Items<WavIn>,
    seating: &Seating,
    pools: &[Items<PoolShape>],
    epoch: usize,
) -> Result<(Board, DriverSeat, Items<LoopSeat>), Memory>
    requires sound { IsSoundPlan plan.now }
    requires fit { WavesFit plan.now waves.now }
    requires short { AreShort waves.now }
    requires seating { IsSeatingOf plan.now seating.now }
    requires pools { pools.now ≡ pools_in plan.now }
    requires inside { epoch < length plan.now.epochs }
    requires table { E.expect ≡ expected_samples plan.now waves.now epoch }
    ensures { IfOk result
        (IsBoardMade plan.now waves.now seating.now.loops (holder_of seating.now) epoch) }
{
    let pools = pools[epoch].as_slice();
    let shape = &plan.epochs.as_slice()[epoch].shape;
    let seat_of = seat_row(alloc, seating, shape)?;
    let _ = waves;
    let made = Board::with_pools::<E>(alloc, shape, pools, &seat_of, seating.loops + 1)?;
    Ok(made)
}

// The board of an epoch: what a call names can depend on the arguments of that call only.
fn board_of(
    alloc: Global,
    plan: &Plan,
    waves: &Items<WavIn>,
    seating: &Seating,
    pools: &[Items<PoolShape>],
    epoch: usize,
) -> Result<(Board, DriverSeat, Items<LoopSeat>), Memory>
    requires sound { IsSoundPlan plan.now }
    requires fit { WavesFit plan.now waves.now }
    requires short { AreShort waves.now }
    requires seating { IsSeatingOf plan.now seating.now }
    requires pools { pools.now ≡ pools_in plan.now }
    requires inside { epoch < length plan.now.epochs }
    ensures { IfOk result
        (IsBoardMade plan.now waves.now seating.now.loops (holder_of seating.now) epoch) }
{
    board_with::<Brand>(alloc, plan, waves, seating, pools, epoch)
}

// Gives the seats of one board to the loops, in their order.
fn deal(rows: &mut Vec<Room<LoopSeat>>, seats: Items<LoopSeat>)
    requires count { length seats ≡ length rows.old.items }
    requires spare { All (λ row. 0 < row.spare) rows.old.items }
    ensures { rows.new.items ≡ map dealt (zip rows.old.items seats) }
{
    let mut i = 0;
    for seat in seats.into_vec() {
        rows[i].push_spare(seat);
        i += 1;
    }
}

// A list with room for `count` seats, for each of `loops` loops.
fn seat_rows(alloc: Global, loops: usize, count: usize) -> Result<Vec<Room<LoopSeat>>, Memory>
    ensures lists { IfOk result (λ rows. map (λ row. row.list) rows.items
        ≡ map (λ _. []) (range_with_len 0 loops)) }
    ensures spare { IfOk result (λ rows. All (λ row. count ≤ row.spare) rows.items) }
{
    let mut rows = Items::new(alloc);
    for _ in 0..loops {
        rows.push(Items::new(alloc).into_room(count)?)?;
    }
    Ok(rows.into_vec())
}

/// The boards of all epochs of a plan, with a seat for each loop of the seating. Each node is on
/// the seat that the seating gives it, and what each board has to give are the samples of the cycle
/// function.
///
/// Memory: a board an epoch, with a seat for each loop; while they are made, the pools once more.
pub fn boards_of(
    alloc: Global,
    plan: &Plan,
    waves: &Items<WavIn>,
    seating: &Seating,
) -> Result<Boards, Memory>
    requires sound { IsSoundPlan plan.now }
    requires fit { WavesFit plan.now waves.now }
    requires seating { IsSeatingOf plan.now seating.now }
    ensures shapes { IfOk result (λ all.
        AreBoardsBy plan.now (holder_of seating.now) seating.now.loops all.boards) }
    ensures drivers { IfOk result (λ all. all.drivers
        ≡ map (driver_of plan.now waves.now seating.now.loops) (enumerate_from 0 all.boards)) }
    ensures seats { IfOk result (λ all. map (λ row. row.list) all.seats.items
        ≡ all_seats plan.now waves.now seating.now.loops all.boards) }
    ensures rows { IfOk result (λ all. (length all.seats.items ≡ seating.now.loops + 1)
        × All (λ row. length row.list ≡ length plan.now.epochs) all.seats.items) }
    // So the drivers' seats are ready to lead the run.
    ensures lead { IfOk result (λ all. (run_model : RunModel) → run_model.plan.value ≡ plan.now
        → run_model.waves.value ≡ waves.now → AreFirstLeads run_model all.boards all.drivers) }
{
    let pools = pools_in(alloc, plan)?;
    boards_with_pools(alloc, plan, waves, seating, pools.as_slice())
}

/// As `boards_of`, with the pools of each epoch, which the loops of the run have too: so they are made
/// once.
pub fn boards_with_pools(
    alloc: Global,
    plan: &Plan,
    waves: &Items<WavIn>,
    seating: &Seating,
    pools: &[Items<PoolShape>],
) -> Result<Boards, Memory>
    requires sound { IsSoundPlan plan.now }
    requires fit { WavesFit plan.now waves.now }
    requires seating { IsSeatingOf plan.now seating.now }
    requires pools { pools.now ≡ pools_in plan.now }
    ensures shapes { IfOk result (λ all.
        AreBoardsBy plan.now (holder_of seating.now) seating.now.loops all.boards) }
    ensures drivers { IfOk result (λ all. all.drivers
        ≡ map (driver_of plan.now waves.now seating.now.loops) (enumerate_from 0 all.boards)) }
    ensures seats { IfOk result (λ all. map (λ row. row.list) all.seats.items
        ≡ all_seats plan.now waves.now seating.now.loops all.boards) }
    ensures rows { IfOk result (λ all. (length all.seats.items ≡ seating.now.loops + 1)
        × All (λ row. length row.list ≡ length plan.now.epochs) all.seats.items) }
    // So the drivers' seats are ready to lead the run.
    ensures lead { IfOk result (λ all. (run_model : RunModel) → run_model.plan.value ≡ plan.now
        → run_model.waves.value ≡ waves.now → AreFirstLeads run_model all.boards all.drivers) }
{
    look_over_all(waves.as_slice());
    let count = plan.epochs.len();
    let mut boards = Items::new(alloc);
    let mut drivers = Items::new(alloc);
    boards.reserve(count)?;
    drivers.reserve(count)?;
    let mut seats = seat_rows(alloc, seating.loops as usize + 1, count)?;
    for epoch in 0..count {
        let (board, driver, row) = board_of(alloc, plan, waves, seating, pools, epoch)?;
        boards.push(board)?;
        drivers.push(driver)?;
        deal(&mut seats, row);
    }
    Ok(Boards {
        boards,
        drivers,
        seats,
    })
}
