//! Numbers of nodes, links and ports.
ghost use Rattle.std.specs.Prelude.{◌≡◌};
ghost use Rattle.pw_graph.specs.Pools.{is_same_port};

/// A node's number: its place among the script's nodes, from 0 to 62, or `DUMMY`.
pub type NodeId = u32;

/// A link's number: its place in the links of a shape.
pub type LinkId = u32;

/// The number of the built-in node that drives where no sink or meter does.
pub const DUMMY: u32 = 63;

/// How many numbers of nodes there are: 0 to 63.
pub const NODES: usize = 64;

/// A port of a node. A node numbers its ports from 0, inputs first.
#[derive(Clone, Copy, Debug, PartialEq, Eq, Drop)]
pub struct PortId {
    pub node: u32,
    pub port: u32,
}

/// Whether two ports are the same. Takes no memory.
pub fn is_same_port(p: PortId, q: PortId) -> bool
    ensures { result ≡ is_same_port p q }
{
    p.node == q.node && p.port == q.port
}
