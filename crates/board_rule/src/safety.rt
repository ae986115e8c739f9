//! What the rule of a board says of its buffers.
ghost use Rattle.std.specs.Prelude.{ℕ, Option};
ghost use Rattle.atomic_table.specs.Table.{State};
ghost use Rattle.board_rule.specs.declared.view.View.{View};
ghost use Rattle.board_rule.specs.Layout.{layout_of};
ghost use Rattle.board_rule.specs.BoardRule.{Holds};
ghost use Rattle.board_rule.specs.buffers.BufferSafety.{AreSafe};

use crate::board::Board;

/// A law, which does nothing: in each state of a board between any two steps no block is with two
/// writers, or with a writer and a reader, whatever the delays of its links; the block that a
/// reader has is out, with a readers word above 0.
pub fn buffers_are_safe(_board: &Board)
    ensures { (s : State (Option ℕ) View) → Holds (layout_of _board.now.board_shape) s
        → AreSafe (layout_of _board.now.board_shape) s.words s.views }
{}
