//! Where the rounds of an epoch are run.
use board_rule::Board;
use data_loop::Ways;

/// What the rounds of an epoch go by, and none of them changes: the runtime, the gate of the nodes'
/// turns, the board of the epoch, and the queues of the loops.
#[derive(Drop)]
pub(crate) struct Site<'a, R, G> {
    pub rt: &'a R,
    pub gate: &'a G,
    pub board: &'a Board,
    pub ways: &'a Ways,
}
