//! One epoch of a run, by the driver's thread.
ghost use Rattle.std.specs.Prelude.{◌≡◌, ◌+◌, [], ℕ, false};
ghost use Rattle.board_rule.specs.OnBoard.{IsOn, layout};
ghost use Rattle.node_progress.specs.declared.run_model.RunModel.{RunModel};
ghost use Rattle.data_loop.specs.LoopWay.{IsDriverWay};
ghost use Rattle.driver_cycle.specs.Leading.{IsLeading, IsBetween, IsWaiting, IsDriving, HasEndedAll};
ghost use Rattle.driver_cycle.specs.Rounds.{BeginsNext, HasLooked};
ghost use Rattle.driver_cycle.specs.Asking.{IsAskedBy};
ghost use Rattle.driver_cycle.specs.Epochs.{IsThread, HasGoneOn, HasGoneRound};
ghost use Rattle.driver_cycle.specs.Waking.{SendsBegun};
ghost use Rattle.graph_run.specs.Leads.{HasLedAll};
ghost use Rattle.graph_run.specs.LoopsOnPlan.{HasPassed};
ghost use Rattle.steal_loops.specs.working.Cells.{AreCells};
ghost use Rattle.steal_loops.specs.working.Claimants.{IsScan};

use crate::ready::visit_ready;
use crate::scan::{Scan, end_round};
use crate::site::Site;
use board_rule::{BoardSeat, DriverSeat};
use data_loop::{LoopState, Way};
use driver_cycle::{begin_next, lead_once, send_woken, settle, turn_one};
use pw_outside::{Gate, Ticker};
use std::sync::Wait;

// One round: a turn of the own loop, visits of the cells that are ready, and one claim of the
// driver's node. Whether the cycle has ended.
fn go_round<R: Wait, G: Gate, K: Ticker>(
    at: &Site<'_, R, G>,
    seat: &mut DriverSeat,
    own: &mut LoopState,
    scan: &mut Scan,
    checked: &mut bool,
    ticker: &mut K,
) -> bool
    requires thread { IsThread at.now.board.now seat.old own.old [] }
    requires waits { IsWaiting (layout at.now.board.now) seat.old.knows }
    requires checked { checked.old ≡ seat.old.knows.lead.checked }
    requires cells { AreCells at.now.shared.now }
    requires scan { IsScan at.now.shared.now scan.old }
    ensures gone { HasGoneOn at.now.board.now seat.old own.old [] (K.ticks ticker.old)
        seat.new own.new [] (K.ticks ticker.new) }
    ensures round { HasGoneRound result (layout at.now.board.now) seat.old.knows checked.new
        seat.new.knows }
    ensures asked { IsAskedBy K.answers result checked.old ticker.old ticker.new }
    ensures scan { IsScan at.now.shared.now scan.new }
{
    let ways = &at.shared.ways;
    let own_ran = turn_one(at.rt, at.board, own, ways, &mut scan.claimant.way, at.gate);
    at.shared.signs.set(own.woke());
    let cell_ran = visit_ready(at.rt, at.gate, at.shared, &mut scan.claimant);
    let ended = lead_once(at.board, seat, own, checked, ticker, at.gate);
    end_round(at.rt, at.gate, at.shared, scan, own_ran | cell_ran | ended);
    ended
}

// The rounds of a cycle that is begun.
fn run_cycle<R: Wait, G: Gate, K: Ticker>(
    at: &Site<'_, R, G>,
    seat: &mut DriverSeat,
    own: &mut LoopState,
    scan: &mut Scan,
    ticker: &mut K,
)
    requires thread { IsThread at.now.board.now seat.old own.old [] }
    requires waits { IsWaiting (layout at.now.board.now) seat.old.knows }
    requires unchecked { seat.old.knows.lead.checked ≡ false }
    requires cells { AreCells at.now.shared.now }
    requires scan { IsScan at.now.shared.now scan.old }
    ensures gone { HasGoneOn at.now.board.now seat.old own.old [] (K.ticks ticker.old)
        seat.new own.new [] (K.ticks ticker.new) }
    ensures between { IsBetween (layout at.now.board.now) seat.new.knows }
    ensures cycle { seat.new.knows.lead.cycle ≡ seat.old.knows.lead.cycle + 1 }
    ensures scan { IsScan at.now.shared.now scan.new }
{
    let mut checked = false;
    for _ in at.rt.forever() {
        if go_round(at, seat, own, scan, &mut checked, ticker) {
            break;
        }
    }
}

// Begins the next cycle, if one is left, and sends what the beginning woke.
fn begin_sent<R: Wait, G>(at: &Site<'_, R, G>, seat: &mut DriverSeat, way: &mut Way) -> bool
    requires table { IsOn at.now.board.now seat.old.table }
    requires between { IsBetween (layout at.now.board.now) seat.old.knows }
    requires way { IsDriverWay at.now.shared.now.ways way.old }
    ensures begun { BeginsNext (layout at.now.board.now) seat.old.knows result seat.new.knows }
    ensures sent { SendsBegun result at.now.shared.now.ways seat.new.knows way.old way.new }
    ensures driving { IsDriving (layout at.now.board.now) seat.new.knows result }
    ensures unchecked { seat.new.knows.lead.checked ≡ false }
    ensures table { seat.new.table ≡ seat.old.table }
    ensures leads { (run_model : RunModel) (k : ℕ) → IsLeading run_model k at.now.board.now seat.old
        → IsLeading run_model k at.now.board.now seat.new }
    ensures way { IsDriverWay at.now.shared.now.ways way.new }
{
    if !begin_next(at.board, seat) {
        return false;
    }
    let woke = seat.woke();
    at.shared.signs.set(woke);
    send_woken(at.rt, &at.shared.ways, way, woke);
    true
}

// The cycles that are left of the epoch.
fn run_cycles<R: Wait, G: Gate, K: Ticker>(
    at: &Site<'_, R, G>,
    seat: &mut DriverSeat,
    own: &mut LoopState,
    scan: &mut Scan,
    ticker: &mut K,
)
    requires thread { IsThread at.now.board.now seat.old own.old [] }
    requires between { IsBetween (layout at.now.board.now) seat.old.knows }
    requires cells { AreCells at.now.shared.now }
    requires scan { IsScan at.now.shared.now scan.old }
    ensures gone { HasGoneOn at.now.board.now seat.old own.old [] (K.ticks ticker.old)
        seat.new own.new [] (K.ticks ticker.new) }
    ensures ended { HasEndedAll (layout at.now.board.now) seat.new.knows }
    ensures scan { IsScan at.now.shared.now scan.new }
{
    while begin_sent(at, seat, &mut scan.claimant.way) {
        run_cycle(at, seat, own, scan, ticker);
    }
}

/// One epoch on its board, after which the own loop is in the next. The cells go on by themselves.
pub(crate) fn run_epoch<R: Wait, G: Gate, K: Ticker>(
    at: &Site<'_, R, G>,
    seat: &mut DriverSeat,
    own: &mut LoopState,
    scan: &mut Scan,
    ticker: &mut K,
)
    requires thread { IsThread at.now.board.now seat.old own.old [] }
    requires between { IsBetween (layout at.now.board.now) seat.old.knows }
    requires cells { AreCells at.now.shared.now }
    requires scan { IsScan at.now.shared.now scan.old }
    ensures led { HasLedAll at.now.board.now seat.old seat.new }
    ensures own { HasPassed own.old own.new }
    ensures looked { HasLooked seat.old seat.new (K.ticks ticker.old) (K.ticks ticker.new) }
    ensures scan { IsScan at.now.shared.now scan.new }
{
    run_cycles(at, seat, own, scan, ticker);
    settle(at.rt, at.board, own, at.gate);
    own.next_epoch();
}
