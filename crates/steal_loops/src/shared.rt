//! What all threads of a run share.
use crate::signs::Signs;
use board_rule::Board;
use data_loop::Ways;
use graph_run::Seating;
use node_progress::RunModel;
use pw_lists::Items;
use steal_shelf::Shelf;

/// The boards of a run in the order of the epochs, the queues of its workers, the signs of woken
/// nodes, the shelf with the cells, and which cell each node is in.
#[derive(Drop)]
pub(crate) struct Shared {
    pub boards: Items<Board>,
    pub ways: Ways,
    pub signs: Signs,
    pub shelf: Shelf,
    pub seating: Seating,
    pub run_model: RunModel,
}
