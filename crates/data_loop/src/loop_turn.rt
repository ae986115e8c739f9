//! A turn of a loop, and a try of one of its nodes.
ghost use Rattle.std.specs.Prelude.{◌≡◌};
ghost use Rattle.board_rule.specs.OnBoard.{layout, table_of};
ghost use Rattle.data_loop.specs.Loops.{IsLoop};
ghost use Rattle.data_loop.specs.LoopsOnBoards.{IsOnBoard, HasTurnedOnce, IsSameBut};
ghost use Rattle.data_loop.specs.LoopTries.{HasTurnedAt, HasWoken};

use crate::did::Did;
use crate::epoch_context::EpochContext;
use crate::loop_state::LoopState;
use crate::tables::tell;
use board_rule::Board;
use pw_lists::Items;
use pw_outside::Gate;

impl LoopState {
    /// One turn on the board of the loop's epoch: the followers that have cycles left are tried,
    /// first those that have ended the fewest cycles, each in the order of their numbers, and the
    /// first that is awake runs for one cycle. Takes no memory, does not wait.
    pub fn turn<G: Gate>(&mut self, board: &Board, gate: &G) -> Did
        requires stands { IsOnBoard (layout board.now) (table_of board.now) self.old }
        ensures stands { IsOnBoard (layout board.now) (table_of board.now) self.new }
        ensures did { HasTurnedOnce (layout board.now) self.old result self.new }
        ensures same { IsSameBut self.old self.new }
        ensures led { self.new.led ≡ self.old.led }
        ensures woke { HasWoken result self.new }
    {
        self.found.clear();
        let epoch_context = EpochContext {
            run_model: &self.run_model,
            board,
            epoch: self.epoch,
        };
        let did = self.epoch_states[self.epoch as usize].turn(
            &epoch_context,
            self.states.as_mut_slice(),
            &mut self.rows,
            &mut self.found,
            gate,
        );
        tell(&mut self.tables, self.found.as_slice());
        self.woke = self.epoch_states[self.epoch as usize].woke(did);
        did
    }

    /// One try of this node on the board of the loop's epoch, which runs for one cycle where it is
    /// awake. Idle where it has no cycles left in the epoch or does not follow in it, and where the
    /// try was too early: then `found` has it. Takes no memory, does not wait.
    pub fn turn_at<G: Gate>(&mut self, board: &Board, node: u32, gate: &G) -> Did
        requires stands { IsOnBoard (layout board.now) (table_of board.now) self.old }
        ensures stands { IsOnBoard (layout board.now) (table_of board.now) self.new }
        ensures did { HasTurnedAt (layout board.now) node self.old result self.new }
        ensures same { IsSameBut self.old self.new }
        ensures led { self.new.led ≡ self.old.led }
        ensures woke { HasWoken result self.new }
    {
        self.found.clear();
        let epoch_context = EpochContext {
            run_model: &self.run_model,
            board,
            epoch: self.epoch,
        };
        let did = self.epoch_states[self.epoch as usize].turn_at(
            &epoch_context,
            node,
            self.states.as_mut_slice(),
            &mut self.rows,
            &mut self.found,
            gate,
        );
        tell(&mut self.tables, self.found.as_slice());
        self.woke = self.epoch_states[self.epoch as usize].woke(did);
        did
    }

    /// The nodes that were tried too early in the last turn or try, and the word that each try
    /// found.
    pub fn found(&self) -> &Items<(u32, u64)>
        requires { IsLoop self.now }
        ensures { result.now ≡ self.now.found.items }
    {
        &self.tables.as_slice()[self.found.len()]
    }

    /// The nodes that the last turn or try has woken, those whose pending word its finish took to
    /// 0: bit n is node n. 0 after Idle, and before the first turn of an epoch.
    pub fn woke(&self) -> u64
        ensures { result ≡ self.now.woke }
    {
        self.woke
    }
}
