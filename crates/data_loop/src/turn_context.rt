//! What a turn is played on.
use board_rule::Board;
use node_progress::RunModel;

/// What the turn of a node is played on: the run's model, the board of an epoch, the number of that
/// epoch, and the cycle.
#[derive(Clone, Copy, Drop)]
pub(crate) struct TurnContext<'a> {
    pub run_model: &'a RunModel,
    pub board: &'a Board,
    pub epoch: u32,
    pub cycle: u32,
}
