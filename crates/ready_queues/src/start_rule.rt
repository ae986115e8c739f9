//! The rule of the word that says whether a loop's own thread runs it, and the steps that keep it.
use crate::start_view::StartView;
use atomic_table::{Play, Seat, Split, Table, TableRule};
use std::alloc::Global;

/// The rule of a start word: one seat is that of the loop's own way, the word says whether this way
/// was started, and no seat has seen a start that was none.
pub struct StartRule;

impl TableRule<(), StartView, ()> for StartRule {
    ghost use Rattle.ready_queues.specs.StartRule.{Holds, unstarted};

    ghost holds = { λ _. Holds };

    ghost first = { λ _. unstarted };
}

/// A table of one word.
pub(crate) type StartTable = Table<(), StartView, (), StartRule, Global>;

/// The right of one way to the start word of one loop. It has no bytes.
pub(crate) type StartSeat = Seat<(), StartView>;

/// The start, a store of 1.
pub(crate) struct Begins;

impl Play<(), StartView> for Begins {
    ghost use Rattle.ready_queues.specs.StartRule.{HasBegun};

    ghost then = { λ _ me _. HasBegun me };
}

/// A look, a load.
pub(crate) struct Looks;

impl Play<(), StartView> for Looks {
    ghost use Rattle.ready_queues.specs.StartRule.{HasLooked};

    ghost then = { λ _. HasLooked };
}

/// One seat more, for another way.
pub(crate) struct Deals;

impl Split<StartView> for Deals {
    ghost use Rattle.ready_queues.specs.StartRule.{dealt};

    ghost left = { λ v. v };

    ghost right = { dealt };
}
