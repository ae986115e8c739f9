//! What a loop plays on in an epoch.
use board_rule::Board;
use node_progress::RunModel;

/// What a loop plays on in an epoch: the run's model, the board of the epoch, and its number.
#[derive(Clone, Copy, Drop)]
pub(crate) struct EpochContext<'a> {
    pub run_model: &'a RunModel,
    pub board: &'a Board,
    pub epoch: u32,
}
