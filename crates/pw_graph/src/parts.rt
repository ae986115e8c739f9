//! The parts of a graph that no link of the script joins, each with a plan of its own.

use crate::plan::{LinkLine, Plan};
use pw_lists::Items;

/// Nodes that links join, and the plan of the script's lines on them.
#[derive(Drop)]
pub struct Part {
    pub nodes: Items<u32>,
    pub plan: Plan,
}

/// All parts, and what each `link` and `unlink` line did in its part.
#[derive(Drop)]
pub struct Parts {
    pub parts: Items<Part>,
    pub lines: Items<LinkLine>,
}
