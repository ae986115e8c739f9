//! The table of samples that all seats of a board agree on.
use std::marker::Brand;

/// Names the samples that are expected, by cycle of the epoch, pool and index in the quantum. It
/// has no call: only contracts see it. Whoever makes a board names it at the call.
pub trait Expect {
    ghost use Rattle.board_rule.specs.View.{Samples};

    ghost expect: { Samples };
}

/// For a table that depends on the arguments of the call that makes the board.
impl Expect for Brand {
    ghost use Rattle.std.specs.Prelude.{[]};

    ghost expect = { [] };
}
