//! What a step gives its seat to know. Each call of a step picks it.
use crate::view::View;
use atomic_table::Play;
use std::marker::{Brand, PhantomData};

/// Whether the seat is the driver's, the view after the step by the number found, and what the step
/// says of that number.
pub(crate) trait Change {
    ghost use Rattle.std.specs.Prelude.{ℕ, Bool};
    ghost use Rattle.board_rule.specs.declared.view.View.{View};

    ghost is_driver: { Bool };

    ghost after: { ℕ → View };

    ghost says: { ℕ → Type 0 };
}

impl Change for Brand {
    ghost use Rattle.std.specs.Prelude.{◌≡◌, false};
    ghost use Rattle.board_rule.specs.working.Plays.{no_view};

    ghost is_driver = { false };

    ghost after = { λ _. no_view };

    ghost says = { λ n. n ≡ n };
}

/// A step that gives the view of `C`.
pub(crate) struct Becomes<C> {
    change: PhantomData<C>,
}

impl<C: Change> Play<Option<u64>, View> for Becomes<C> {
    ghost use Rattle.board_rule.specs.working.Plays.{Leaves};

    ghost then = { λ _. Leaves C.after };
}

/// A step that also ensures what `C` says of the number found.
pub(crate) struct Learned<C> {
    change: PhantomData<C>,
}

impl<C: Change> Play<Option<u64>, View> for Learned<C> {
    ghost use Rattle.board_rule.specs.working.Plays.{Learns};

    ghost then = { λ _. Learns C.after C.says };
}
