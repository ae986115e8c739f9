//! What the reference program knows of ports and nodes.
use pw_graph::{Epoch, PortId};
use pw_lists::Items;

/// What an output port gave in one cycle.
#[derive(Drop)]
pub(crate) struct Given {
    pub port: PortId,
    pub samples: Items<i16>,
}

/// What a node has received: for how many frames it was active, and what its inputs got.
///
/// `a` is the stream of its first input and `b` that of its second, frames interleaved, from where
/// its streams began; without such an input the list is empty. Contracts of other crates speak of
/// it: `specs/Progress.antt` has what a node has received after n cycles.
#[derive(Drop)]
pub struct Received {
    pub frames: u64,
    pub a: Items<i16>,
    pub b: Items<i16>,
}

/// The cycle that is worked: its quantum in frames, whether it is its epoch's first, its epoch, and
/// what ports gave in the cycle before.
#[derive(Clone, Copy, Drop)]
pub(crate) struct Setting<'a> {
    pub quantum: u32,
    pub first: bool,
    pub epoch: &'a Epoch,
    pub before: &'a [Given],
}
