//! Plans, shapes and histories held against their definitions, by calls: `is_sound_plan`,
//! `is_sound_shape`, `is_pooled_shape` and `is_legal_history` are true exactly where the
//! definitions of pw_graph say so. They are for tests and for hosts that make a plan or a shape of
//! their own; no crate of the engine calls them.
#![tactic(auto)]

mod cycle_history;
mod dependencies;
mod fresh_entries;
mod history;
mod kind_ranges;
mod link_order;
mod plan_forms;
mod plan_fresh;
mod plan_kept;
mod plan_soundness;
mod plan_sums;
mod pooled_shapes;
mod soundness;

pub use history::is_legal_history;
pub use plan_soundness::is_sound_plan;
pub use pooled_shapes::is_pooled_shape;
pub use soundness::is_sound_shape;
