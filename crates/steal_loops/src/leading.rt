//! All epochs of a run, by the driver's thread.
ghost use Rattle.std.specs.Prelude.{◌≡◌, length};
ghost use Rattle.graph_run.specs.Leads.{HaveLed, HaveLooked};
ghost use Rattle.graph_run.specs.LoopsOnPlan.{IsReady, HasDrivers, AreFirstLeads, HasCome};
ghost use Rattle.graph_run.specs.Threads.{HasRun};
ghost use Rattle.steal_loops.specs.working.Cells.{AreCells};
ghost use Rattle.steal_loops.specs.working.Crews.{CanDrive};
ghost use Rattle.steal_loops.specs.working.Claimants.{IsScan, IsDriverClaimant};

use crate::claimant::Claimant;
use crate::epoch::run_epoch;
use crate::scan::Scan;
use crate::shared::Shared;
use crate::site::Site;
use board_rule::DriverSeat;
use crossbeam_utils::Backoff;
use data_loop::LoopState;
use pw_lists::Items;
use pw_outside::{Gate, Ticker};
use std::sync::Wait;

/// What the driver's thread has: its own loop, its seats of all boards in the order of the epochs,
/// and what it takes cells with.
#[derive(Drop)]
pub(crate) struct Driving {
    pub own: LoopState,
    pub drivers: Items<DriverSeat>,
    pub claimant: Claimant,
}

// All epochs of a plan in order, by the driver's thread. `own` has the drivers. After a cycle has
// begun, the thread goes in rounds: a turn of `own`, visits of the cells that are ready, and one
// claim of the driver's node, which ends the cycle where the node is awake. What the beginning
// and each step woke is sent. After some rounds in a row in which nothing was done, the thread
// also goes through all cells, one a round, and then rests until it is unparked, if a worker was
// started. Each cycle makes at most one check, where the ticker says so. It may wait. Takes no
// memory.
// Condition: there is one board an epoch, in order, no epoch is begun, and the loop and the cells
// have the seats of these boards.
fn run_epochs<R: Wait, G: Gate, K: Ticker>(
    rt: &R,
    gate: &G,
    shared: &Shared,
    drivers: &mut [DriverSeat],
    own: &mut LoopState,
    scan: &mut Scan,
    ticker: &mut K,
)
    requires own { IsReady shared.now.boards own.old }
    requires has { HasDrivers own.old }
    requires drivers { AreFirstLeads own.old.run_model shared.now.boards drivers.old }
    requires cells { AreCells shared.now }
    requires scan { IsScan shared.now scan.old }
    ensures own { HasCome (length shared.now.boards) own.old own.new }
    ensures drivers { HaveLed (length shared.now.boards) shared.now.boards
        drivers.old drivers.new }
    ensures looked { HaveLooked drivers.old drivers.new
        (K.ticks ticker.old) (K.ticks ticker.new) }
    ensures scan { IsScan shared.now scan.new }
{
    for k in 0..shared.boards.len() {
        let board = &shared.boards.as_slice()[k];
        let at = Site {
            rt,
            gate,
            shared,
            board,
        };
        run_epoch(&at, &mut drivers[k], own, scan, ticker);
    }
}

/// All epochs of a plan, by the driver's thread, where `absent` of the workers were not started. It
/// may wait. Takes no memory.
pub(crate) fn drive<R: Wait, G: Gate, K: Ticker>(
    rt: &R,
    gate: &G,
    shared: &Shared,
    driving: Driving,
    absent: usize,
    ticker: &mut K,
) -> Driving
    requires cells { AreCells shared.now }
    requires drives { CanDrive shared.now driving }
    ensures own { HasRun driving.own result.own }
    ensures drivers { HaveLed (length shared.now.boards) shared.now.boards driving.drivers
        result.drivers }
    ensures looked { HaveLooked driving.drivers result.drivers
        (K.ticks ticker.old) (K.ticks ticker.new) }
    ensures claimant { IsDriverClaimant shared.now result.claimant }
{
    let Driving {
        mut own,
        drivers,
        claimant,
    } = driving;
    let mut drivers = drivers.into_vec();
    let mut scan = Scan {
        claimant,
        absent,
        idle: 0,
        backoff: Backoff::new(),
    };
    run_epochs(
        rt,
        gate,
        shared,
        drivers.as_mut_slice(),
        &mut own,
        &mut scan,
        ticker,
    );
    Driving {
        own,
        drivers: Items::from_vec(drivers),
        claimant: scan.claimant,
    }
}
