//! What all threads of a run share.
use board_rule::Board;
use data_loop::{LoopState, Way, Ways};
use node_progress::RunModel;
use pw_lists::Items;

/// The boards of a run in the order of the epochs, and what its threads have of the queues.
#[derive(Drop)]
pub(crate) struct Shared {
    pub boards: Items<Board>,
    pub ways: Ways,
    pub run_model: RunModel,
}

/// A loop before the run, and its way to the queues.
#[derive(Drop)]
pub(crate) struct LoopWay {
    pub state: LoopState,
    pub way: Way,
}
