//! A link that is there.

use pw_graph::PortId;

/// A link that is there, and how many buffers it has.
#[derive(Clone, Copy, Drop)]
pub struct Wire {
    pub from: PortId,
    pub to: PortId,
    pub buffers: u32,
}
