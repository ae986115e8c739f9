//! What a graph is, and what happened in it: the types and definitions that all layers share.
//!
//! `Plan`, `Shape` and `Event` say what a script asks for, what one epoch is, and what happened.
//! The definitions in `specs/` say which of them are sound and legal, what each kind of node makes,
//! and where the words of a board are; graph_checks decides the first by calls.
#![tactic(auto)]

mod event;
mod free_node;
mod ids;
mod kind;
mod parts;
mod plan;
mod pooling;
mod pools;
mod shape;
mod status;
mod words;

pub use event::Event;
pub use free_node::find_free;
pub use ids::{DUMMY, LinkId, NODES, NodeId, PortId, is_same_port};
pub use kind::{Kind, is_sink};
pub use parts::{Part, Parts};
pub use plan::{Epoch, Fresh, LineOutcome, LinkLine, Plan, PlanNode, PortForm};
pub use pooling::{asked, is_before, pools_of};
pub use pools::PoolShape;
pub use shape::{Shape, ShapeLink, ShapeNode};
pub use status::{ActivationStatus, AreaStatus};
pub use words::{
    NO_BLOCK, cycle_of, event_of, event_word, io_id_of, io_status_of, io_word, status_of,
    status_word,
};
