//! The calls by which the driver's thread and all loops go step by step on the board of an epoch.
ghost use Rattle.std.specs.Prelude.{◌≤◌, IfSome};
ghost use Rattle.board_rule.specs.OnBoard.{layout, table_of};
ghost use Rattle.data_loop.specs.LoopsOnBoards.{IsOnBoard};
ghost use Rattle.ready_queues.specs.Lanes.{loops_limit};
ghost use Rattle.loop_tests.specs.Crew.{IsCrewOn};
ghost use Rattle.plan_support.specs.Work.{CanRun};

use crate::crew::Crew;
use board_rule::{Board, BoardSeat, Closed};
use data_loop::{Did, LoopState, Tried, settle};
use driver_cycle::{begin_next, lead_once, look};
use graph_run::{boards_of, loop_seating, loops_of};
use plan_support::Work;
use pw_outside::{Every, Gate, Never, Open};
use std::alloc::Global;
use std::sync::Wait;

/// The board of a plan of one epoch, and the driver's thread with `loops` other loops on it, before
/// the first cycle. None where there are more epochs.
pub fn crew_of(alloc: Global, work: &Work, loops: u32) -> Option<(Board, Crew)>
    requires work { CanRun work.now.plan work.now.waves }
    requires few { loops ≤ loops_limit }
    ensures { IfSome result (λ t. IsCrewOn t.0 t.1) }
{
    let Ok(seating) = loop_seating(alloc, &work.plan, loops) else {
        return None;
    };
    let Ok(all) = boards_of(alloc, &work.plan, &work.waves, &seating) else {
        return None;
    };
    if all.boards.len() != 1 {
        return None;
    }
    let mut boards = all.boards;
    let mut drivers = all.drivers;
    let Ok(mut states) = loops_of(alloc, &work.plan, &work.waves, &seating, all.seats) else {
        return None;
    };
    let Some(board) = boards.pop() else {
        return None;
    };
    let Some(seat) = drivers.pop() else {
        return None;
    };
    let Some(own) = states.pop() else {
        return None;
    };
    let crew = Crew {
        seat,
        own,
        others: states.into_vec(),
        waits: false,
        checked: false,
    };
    Some((board, crew))
}

// One try of a node by its loop.
fn try_node<G: Gate>(board: &Board, state: &mut LoopState, node: u32, gate: &G) -> Tried
    requires on { IsOnBoard (layout board.now) (table_of board.now) state.old }
    ensures on { IsOnBoard (layout board.now) (table_of board.now) state.new }
{
    match state.turn_at(board, node, gate) {
        Did::Ran { .. } => Tried::Ran,
        Did::Idle => match state.found().as_slice() {
            [(_node, found)] => Tried::NotYet { found: *found },
            _ => Tried::Ended,
        },
    }
}

/// One try of a node by one of the other loops of a crew. Ended where there is no such loop, or the
/// node is not one of its followers with cycles left.
pub fn try_at<G: Gate>(board: &Board, crew: &mut Crew, which: usize, node: u32, gate: &G) -> Tried
    requires on { IsCrewOn board.now crew.old }
    ensures on { IsCrewOn board.now crew.new }
{
    if which < crew.others.len() {
        try_node(board, &mut crew.others[which], node, gate)
    } else {
        Tried::Ended
    }
}

// Gives a loop turns until none of its followers has cycles left; it may wait.
fn settle_loop<R: Wait>(rt: &R, board: &Board, state: &mut LoopState)
    requires on { IsOnBoard (layout board.now) (table_of board.now) state.old }
    ensures on { IsOnBoard (layout board.now) (table_of board.now) state.new }
{
    settle(rt, board, state, &Open::new());
}

/// Gives one of the other loops of a crew turns until none of its followers has cycles left; it may
/// wait. Nothing where there is no such loop.
pub fn settle_at<R: Wait>(rt: &R, board: &Board, crew: &mut Crew, which: usize)
    requires on { IsCrewOn board.now crew.old }
    ensures on { IsCrewOn board.now crew.new }
{
    if which < crew.others.len() {
        settle_loop(rt, board, &mut crew.others[which]);
    }
}

impl Crew {
    /// Begins the next cycle. False where one is begun, or none is left.
    pub fn begin(&mut self, board: &Board) -> bool
        requires on { IsCrewOn board.now self.old }
        ensures on { IsCrewOn board.now self.new }
    {
        if self.waits {
            return false;
        }
        self.waits = begin_next(board, &mut self.seat);
        self.checked = false;
        self.waits
    }

    /// What the last try of one of the other loops woke: bit n is node n.
    pub fn woke(&self, which: usize) -> u64 {
        match self.others.as_slice().get(which) {
            Some(state) => state.woke(),
            None => 0,
        }
    }

    /// One check of who is late: bit n is node n. None where no cycle is begun, or it has had its
    /// check.
    pub fn check(&mut self, board: &Board) -> Option<u64>
        requires on { IsCrewOn board.now self.old }
        ensures on { IsCrewOn board.now self.new }
    {
        if !self.waits || self.checked {
            return None;
        }
        let late = look(board, &mut self.seat, &mut Every::new(1));
        self.checked = late.is_some();
        late
    }

    /// One claim of the driver's node, which a gate watches: whether its turn ended the cycle.
    pub fn lead_at<G: Gate>(&mut self, board: &Board, gate: &G) -> bool
        requires on { IsCrewOn board.now self.old }
        ensures on { IsCrewOn board.now self.new }
    {
        if !self.waits {
            return false;
        }
        let ended = lead_once(
            board,
            &mut self.seat,
            &mut self.own,
            &mut self.checked,
            &mut Never::new(),
            gate,
        );
        self.waits = !ended;
        ended
    }

    /// The same with a gate that lets each node through.
    pub fn lead(&mut self, board: &Board) -> bool
        requires on { IsCrewOn board.now self.old }
        ensures on { IsCrewOn board.now self.new }
    {
        self.lead_at(board, &Open::new())
    }

    /// The end of the board. None where a cycle is left.
    pub fn close(self, board: Board) -> Option<Closed>
        requires on { IsCrewOn board self }
    {
        let driver = board.shape().driver;
        if self.waits || self.seat.ended(&board, driver) != board.shape().cycles {
            return None;
        }
        let Crew {
            seat,
            own: _,
            others: _,
            waits: _,
            checked: _,
        } = self;
        Some(board.close(seat))
    }
}
