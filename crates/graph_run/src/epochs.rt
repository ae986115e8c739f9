//! All epochs of a plan, by the driver's thread.
ghost use Rattle.std.specs.Prelude.{All, length};
ghost use Rattle.atomic_table.specs.Seated.{TableId};
ghost use Rattle.board_rule.specs.Layout.{BoardLayout};
ghost use Rattle.data_loop.specs.LoopsOnBoards.{IsAtEnd};
ghost use Rattle.data_loop.specs.LoopWay.{IsDriverWay};
ghost use Rattle.driver_cycle.specs.Settling.{AreEach};
ghost use Rattle.graph_run.specs.Leads.{HaveLed, HaveLooked};
ghost use Rattle.graph_run.specs.LoopsOnPlan.{IsReady, HasDrivers, HasNoDriver, AreFirstLeads, HasCome, HasEntered};

use board_rule::{Board, DriverSeat};
use data_loop::{LoopState, Way, Ways};
use driver_cycle::run_epoch;
use pw_lists::Items;
use pw_outside::{Gate, Ticker};
use std::sync::Wait;

// All loops go into the next epoch.
fn next_all(states: &mut [LoopState])
    requires ended { All (λ s. (p : BoardLayout) × (t : TableId) × IsAtEnd p t s) states.old }
    ensures entered { AreEach HasEntered states.old states.new }
{
    for k in 0..states.len() {
        states[k].next_epoch();
    }
}

/// What the driver's thread goes by through a run: the boards in the order of the epochs, the
/// queues of the loops, and the gate of the nodes' turns.
#[derive(Drop)]
pub struct Course<'a, G> {
    pub boards: &'a Items<Board>,
    pub ways: &'a Ways,
    pub gate: &'a G,
}

/// All epochs of a plan in order, by the driver's thread: each on its board by `run_epoch`, after
/// which each loop goes into the next. `own` has the drivers; `adopted` are the other loops that
/// this thread runs, and no node of theirs drives. It may wait. Takes no memory.
/// Condition: the course has one board an epoch, in order, no epoch is begun, the loops have the
/// seats of these boards, and `way` is the driver's of its ways.
pub fn run_epochs<R: Wait, G: Gate, K: Ticker>(
    rt: &R,
    course: &Course<'_, G>,
    drivers: &mut [DriverSeat],
    own: &mut LoopState,
    adopted: &mut [LoopState],
    way: &mut Way,
    ticker: &mut K,
)
    requires own { IsReady course.now.boards.now own.old }
    requires has { HasDrivers own.old }
    requires adopted { All (IsReady course.now.boards.now) adopted.old }
    requires none { All HasNoDriver adopted.old }
    requires drivers { AreFirstLeads own.old.run_model course.now.boards.now drivers.old }
    requires way { IsDriverWay course.now.ways.now way.old }
    ensures own { HasCome (length course.now.boards.now) own.old own.new }
    ensures adopted { AreEach (HasCome (length course.now.boards.now))
        adopted.old adopted.new }
    ensures drivers { HaveLed (length course.now.boards.now) course.now.boards.now
        drivers.old drivers.new }
    ensures looked { HaveLooked drivers.old drivers.new
        (K.ticks ticker.old) (K.ticks ticker.new) }
    ensures way { IsDriverWay course.now.ways.now way.new }
{
    for k in 0..course.boards.len() {
        let board = &course.boards.as_slice()[k];
        run_epoch(
            rt,
            board,
            &mut drivers[k],
            own,
            adopted,
            course.ways,
            way,
            ticker,
            course.gate,
        );
        own.next_epoch();
        next_all(adopted);
    }
}
