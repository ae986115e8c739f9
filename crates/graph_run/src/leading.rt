//! What the driver's thread does in a run.
ghost use Rattle.std.specs.Prelude.{◌≡◌, All, length};
ghost use Rattle.driver_cycle.specs.Settling.{AreEach};
ghost use Rattle.graph_run.specs.Leads.{HaveLed, HaveLooked};
ghost use Rattle.graph_run.specs.Threads.{CanRun, CanDrive, HasRun};

use crate::epochs::{Course, run_epochs};
use crate::shared::Shared;
use board_rule::DriverSeat;
use data_loop::{LoopState, Way};
use pw_lists::Items;
use pw_outside::{Gate, Ticker};
use std::sync::Wait;

/// The driver's own loop, its seats of all boards in the order of the epochs, and its way to the
/// queues.
#[derive(Drop)]
pub(crate) struct Driving {
    pub own: LoopState,
    pub drivers: Items<DriverSeat>,
    pub way: Way,
}

/// What the driver's thread has after the last epoch.
#[derive(Drop)]
pub(crate) struct Led {
    pub own: LoopState,
    pub adopted: Items<LoopState>,
    pub drivers: Items<DriverSeat>,
}

/// All epochs, by the driver's thread. It may wait. Takes no memory.
pub(crate) fn drive<R: Wait, G: Gate, K: Ticker>(
    rt: &R,
    gate: &G,
    shared: &Shared,
    driving: Driving,
    adopted: Items<LoopState>,
    ticker: &mut K,
) -> Led
    requires drives { CanDrive shared.now driving }
    requires adopted { All (CanRun shared.now) adopted }
    ensures own { HasRun driving.own result.own }
    ensures adopted { AreEach HasRun adopted result.adopted }
    ensures drivers { HaveLed (length shared.now.boards) shared.now.boards driving.drivers
        result.drivers }
    ensures looked { HaveLooked driving.drivers result.drivers
        (K.ticks ticker.old) (K.ticks ticker.new) }
{
    let Driving {
        mut own,
        drivers,
        mut way,
    } = driving;
    let mut drivers = drivers.into_vec();
    let mut adopted = adopted.into_vec();
    let course = Course {
        boards: &shared.boards,
        ways: &shared.ways,
        gate,
    };
    run_epochs(
        rt,
        &course,
        drivers.as_mut_slice(),
        &mut own,
        adopted.as_mut_slice(),
        &mut way,
        ticker,
    );
    Led {
        own,
        adopted: Items::from_vec(adopted),
        drivers: Items::from_vec(drivers),
    }
}
