//! What is kept of a node and of each of its ports.

use format_filter::Format;
use pw_graph::Kind;
use pw_lists::Items;

/// A node's kind and its ports, inputs first.
#[derive(Drop)]
pub struct Node {
    pub kind: Kind,
    pub ports: Items<PortState>,
}

/// What a script has said of a port so far.
#[derive(Drop)]
pub struct PortState {
    /// What its kind offers, narrowed by the files of its `offer` lines.
    pub own: Format,
    /// The format that it has.
    pub format: Option<Format>,
    /// The number of its `buffers` line; without one it may have 1 to 8.
    pub buffers: Option<u32>,
}
