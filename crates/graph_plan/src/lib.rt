//! The plan of a script: what all its lines mean together.
//!
//! `plan` follows the lines from the graph before the first one, up to the end or to the first
//! line that passes a limit, and reads the plan off the graph at the end. `part_nodes` are the
//! nodes of the parts that no link of the script joins, and `parts` follows all of them together,
//! and reads a plan off each.
#![tactic(auto)]

mod beginning;
mod fault;
mod following;
mod member;
mod moving;
mod parting;
mod partition;
mod plan_nodes;
mod planning;
mod together;

pub use fault::PlanFault;
pub use parting::parts;
pub use partition::part_nodes;
pub use plan_nodes::copy_node;
pub use planning::plan;
