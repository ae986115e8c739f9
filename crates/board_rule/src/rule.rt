//! The rule of the table.
use crate::board_shape::BoardShape;
use crate::view::View;
use atomic_table::{Seat, Table, TableRule};
use std::alloc::Global;

/// The rule that holds of the words and the views of a board between any two steps.
pub struct BoardRule;

impl TableRule<Option<u64>, View, BoardShape> for BoardRule {
    ghost use Rattle.board_rule.specs.BoardRule.{Holds};
    ghost use Rattle.board_rule.specs.View.{first_view};
    ghost use Rattle.board_rule.specs.Layout.{layout_of};

    ghost holds = { λ board_shape. Holds (layout_of board_shape) };

    ghost first = { λ board_shape. first_view (layout_of board_shape) };
}

pub(crate) type BoardTable = Table<Option<u64>, View, BoardShape, BoardRule, Global>;

pub(crate) type BoardToken = Seat<Option<u64>, View>;
