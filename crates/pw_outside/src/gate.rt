//! A hook that a caller gives, called between a node's Start and its work.

/// Is called with each node that enters a cycle. It is shared between threads.
pub trait Gate {
    /// The node begins its work in this cycle.
    fn enter(&self, node: u32, cycle: u32);
}

/// A gate that lets each node through at once.
#[derive(Drop)]
pub struct Open;

impl Open {
    /// Takes no memory.
    pub fn new() -> Open {
        Open
    }
}

impl Gate for Open {
    fn enter(&self, _node: u32, _cycle: u32) {}
}
