//! A link that is refused for want of a common format.

use format_filter::Choice;
use pw_graph::PortId;

/// A `link` line that finds no common format.
#[derive(Drop)]
pub struct RefusedLink {
    /// The number of its line in the script, from 1.
    pub line: u32,
    /// How many `link` and `unlink` lines with an outcome are before it: in a plan of the script
    /// its place among them.
    pub place: usize,
    pub from: PortId,
    pub to: PortId,
    /// The least key at which the offers part; 65539 is the rate, 65540 the channels.
    pub key: u32,
    pub sides: Sides,
}

/// What the two ports of a link admit at the key at which they part.
#[derive(Drop)]
pub enum Sides {
    /// Both ports offer a format; `None`: an offer does not have the key.
    Both {
        from: Option<Choice>,
        to: Option<Choice>,
    },
    /// This port offers nothing: its own offer, which admits `own` at the key, does not admit the
    /// value that its node shares there, which is `shared`.
    Node {
        port: PortId,
        own: Option<Choice>,
        shared: Option<u32>,
    },
}
