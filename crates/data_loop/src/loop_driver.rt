//! The turn of the driver's node by the loop that it belongs to.
ghost use Rattle.std.specs.Prelude.{◌≡◌, ◌⊎◌, ◌+◌, Contains};
ghost use Rattle.board_rule.specs.OnBoard.{IsOn, layout, table_of};
ghost use Rattle.data_loop.specs.Driving.{MayDrive, HasDriven};
ghost use Rattle.data_loop.specs.LoopsOnBoards.{IsOnBoard, IsSameBut};
ghost use Rattle.data_loop.specs.LoopDriver.{HasSamplesOf, DrivesFrom, HasLedSoFar, HasLed};

use crate::driving::{pass_driver, play_driver};
use crate::loop_state::LoopState;
use crate::turn_context::TurnContext;
use board_rule::{Board, BoardSeat, DriverSeat};
use pw_outside::Gate;

impl LoopState {
    /// The turn of the driver's node, which was claimed, from its Start to its Finish, on the board
    /// of the loop's epoch. Condition: the driver is 63, or a node of this loop that `run_driver`
    /// has run in each earlier cycle of the epoch, once each. A driver without a form is not
    /// processed, and node 63 has no state: then only the gate is called. Takes no memory, does not
    /// wait.
    pub fn run_driver<G: Gate>(&mut self, board: &Board, seat: &mut DriverSeat, gate: &G)
        requires stands { IsOnBoard (layout board.now) (table_of board.now) self.old }
        requires table { IsOn board.now seat.old.table }
        requires samples { HasSamplesOf self.old seat.old.knows }
        requires awake { MayDrive (layout board.now) seat.old.knows seat.old.knows.lead.cycle }
        requires driver { DrivesFrom (layout board.now) self.old }
        requires each { HasLedSoFar (layout board.now) self.old seat.old.knows }
        ensures stands { IsOnBoard (layout board.now) (table_of board.now) self.new }
        ensures table { seat.new.table ≡ seat.old.table }
        ensures driven { let p = layout board.now in
            HasDriven p seat.old.knows seat.old.knows.lead.cycle seat.new.knows }
        ensures led { HasLed self.old self.new }
        ensures same { IsSameBut self.old self.new }
        ensures epoch_states { self.new.epoch_states.items ≡ self.old.epoch_states.items }
        ensures woke { self.new.woke ≡ self.old.woke }
    {
        let driver = board.shape().driver;
        let cycle = board.shape().first + seat.ended(board, driver);
        let epoch_state = &self.epoch_states[self.epoch as usize];
        if epoch_state.driver.len() == 0 {
            pass_driver(board, seat, cycle, gate);
            return;
        }
        let member = &epoch_state.driver.as_slice()[0];
        let turn_context = TurnContext {
            run_model: &self.run_model,
            board,
            epoch: self.epoch,
            cycle,
        };
        play_driver(
            &turn_context,
            seat,
            member,
            &mut self.states[member.at as usize],
            &mut self.rows,
            gate,
        );
        self.led += 1;
    }
}
