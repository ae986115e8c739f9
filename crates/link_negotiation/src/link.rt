//! A link between two ports.

use pw_graph::PortId;

/// A link from an output port to an input port.
#[derive(Clone, Copy, Debug, PartialEq, Eq, Drop)]
pub struct Link {
    pub from: PortId,
    pub to: PortId,
}
