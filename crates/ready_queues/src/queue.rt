//! The queue of a loop under its rule.
use crate::hand::Hand;
use crossbeam_queue::protocol::{Lesson, Outcome, Protocol, Split};
use crossbeam_queue::{Pass, RuledArrayQueue};
use std::marker::{Brand, PhantomData};

/// The rule of a ready queue: each number in it is a node of its loop, and each node was pushed as
/// often as it was received and is in the queue.
pub struct QueueRule;

impl Protocol<u32, Hand> for QueueRule {
    ghost use Rattle.ready_queues.specs.Hands.{unnamed};
    ghost use Rattle.ready_queues.specs.QueueRule.{Keeps};

    ghost holds = { Keeps };

    ghost first = { unnamed };
}

/// The queue of one loop, of 64 numbers.
pub(crate) type Queue = RuledArrayQueue<u32, Hand, QueueRule>;

/// The right of one way to push into a queue and to pop from it. It has no bytes.
pub(crate) type QueuePass = Pass<u32, Hand>;

/// Names the loop of a queue, and the loop of each node. Only contracts see it.
pub(crate) trait Named {
    ghost use Rattle.std.specs.Prelude.{ℕ, List};

    ghost owner: { List ℕ };

    ghost number: { ℕ };
}

impl Named for Brand {
    ghost use Rattle.std.specs.Prelude.{[]};

    ghost owner = { [] };

    ghost number = { 0 };
}

/// The first pass of a queue names the queue for its loop.
pub(crate) struct Naming<N> {
    name: PhantomData<N>,
}

impl<N: Named> Split<Hand> for Naming<N> {
    ghost use Rattle.std.specs.Prelude.{[]};
    ghost use Rattle.ready_queues.specs.Hands.{hand};

    ghost left = { λ _. hand N.owner N.number [] [] };

    ghost right = { λ _. hand N.owner N.number [] [] };
}

/// One pass more, which has pushed and received nothing.
pub(crate) struct Dealing;

impl Split<Hand> for Dealing {
    ghost use Rattle.std.specs.Prelude.{[]};
    ghost use Rattle.ready_queues.specs.Hands.{hand};

    ghost left = { λ h. h };

    ghost right = { λ h. hand h.owner h.number [] [] };
}

/// A number was pushed, or the queue was full: of a push that was refused no pass keeps a trace.
pub(crate) struct Pushes;

impl Outcome<u32, Hand> for Pushes {
    ghost use Rattle.std.specs.Prelude.{◌≡◌};
    ghost use Rattle.ready_queues.specs.Hands.{with_pushed};

    ghost then = { λ h x k. k ≡ with_pushed h x };
}

impl Lesson<u32, Hand> for Pushes {
    ghost use Rattle.std.specs.Prelude.{⊤};

    ghost fact = { λ _ _. ⊤ };
}

/// A number was popped, or the queue was empty: of a pop that found nothing no pass keeps a trace.
pub(crate) struct Pops;

impl Outcome<u32, Hand> for Pops {
    ghost use Rattle.std.specs.Prelude.{◌≡◌};
    ghost use Rattle.ready_queues.specs.Hands.{with_received};
    ghost use Rattle.ready_queues.specs.QueueRule.{IsNodeOf};

    ghost then = { λ h x k. (k ≡ with_received h x) × IsNodeOf h.owner h.number x };
}

impl Lesson<u32, Hand> for Pops {
    ghost use Rattle.std.specs.Prelude.{⊤};

    ghost fact = { λ _ _. ⊤ };
}
