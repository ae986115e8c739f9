//! Where the rounds of an epoch are run.
use crate::shared::Shared;
use board_rule::Board;

/// What the rounds of an epoch go by, and none of them changes: the runtime, the gate of the nodes'
/// turns, what all threads of the run share, and the board of the epoch.
#[derive(Drop)]
pub(crate) struct Site<'a, R, G> {
    pub rt: &'a R,
    pub gate: &'a G,
    pub shared: &'a Shared,
    pub board: &'a Board,
}
