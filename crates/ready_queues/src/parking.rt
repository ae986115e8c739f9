//! The parker of a thread under its rule.
ghost use Rattle.std.specs.Prelude.{◌≡◌};
ghost use Rattle.crossbeam_utils.specs.Token.{parker_view};
ghost use Rattle.ready_queues.specs.Lanes.{unparks};
ghost use Rattle.ready_queues.specs.ParkingRule.{given_on, taken_on};

use crossbeam_utils::rule::{Outcome, Protocol};
use crossbeam_utils::sync::parker::{Pass, RuledParker, RuledUnparker};
use std::sync::Wait;

/// How often a way has unparked a thread, and how often it has rested as that thread. No value of
/// it is made: only contracts see it.
pub struct Woken {
    pub given: u64,
    pub taken: u64,
}

/// The rule of a parker: no rest ends but by a token that some way gave.
pub struct ParkingRule;

impl Protocol<bool, Woken> for ParkingRule {
    ghost use Rattle.ready_queues.specs.ParkingRule.{IsParked, woken};

    ghost holds = { IsParked };

    ghost first = { woken 0 0 };
}

/// The parker of one thread.
pub(crate) type Parker = RuledParker<Woken, ParkingRule>;

/// What unparks that thread. It wakes it only where it sleeps.
pub(crate) type Unparker = RuledUnparker<Woken, ParkingRule>;

/// The right to unpark a thread, or to park it. It has no bytes.
pub(crate) type ParkPass = Pass<Woken>;

/// A token was given.
struct Gives;

impl Outcome<bool, Woken> for Gives {
    ghost use Rattle.std.specs.Prelude.{◌≡◌};
    ghost use Rattle.ready_queues.specs.ParkingRule.{given_on};

    ghost then = { λ v _ _ w. w ≡ given_on v 1 };
}

/// A token was taken.
struct Takes;

impl Outcome<bool, Woken> for Takes {
    ghost use Rattle.std.specs.Prelude.{◌≡◌};
    ghost use Rattle.ready_queues.specs.ParkingRule.{taken_on};

    ghost then = { λ v _ _ w. w ≡ taken_on v 1 };
}

/// Gives a thread its token. An atomic exchange, and a call of the system only where it sleeps.
#[tactic(auto, using(crate::proofs::ParkingLemmas::may_give))]
pub(crate) fn wake(unparker: &Unparker, pass: &mut ParkPass)
    requires own { pass.old.table_id ≡ unparks unparker.now }
    ensures own { pass.new.table_id ≡ pass.old.table_id }
    ensures given { parker_view pass.new ≡ given_on (parker_view pass.old) 1 }
{
    unparker.unpark_as::<Gives>(pass);
}

/// Waits for the own token, and takes it.
#[tactic(auto, using(crate::proofs::ParkingLemmas::may_take))]
pub(crate) fn park<R: Wait>(rt: &R, parker: &Parker, pass: &mut ParkPass)
    requires own { pass.old.table_id ≡ unparks parker.now.unparker }
    ensures own { pass.new.table_id ≡ pass.old.table_id }
    ensures taken { parker_view pass.new ≡ taken_on (parker_view pass.old) 1 }
{
    parker.park_as::<Takes, R>(rt, pass);
}
