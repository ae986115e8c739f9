//! One loop of a run: its nodes, what they keep, and what it knows of the boards that they run on.
//!
//! A turn of a node on a board is one cycle of the cycle function: it takes what its links bring,
//! and gives in its pools what its outputs give in that cycle.
#![tactic(auto)]

mod dealing;
mod did;
mod draft;
mod driving;
mod epoch_context;
mod epoch_state;
mod epoch_states;
mod gathering;
mod giving;
mod guesses;
mod inputs;
mod loop_driver;
mod loop_epochs;
mod loop_kept;
mod loop_state;
mod loop_turn;
mod member;
mod members;
mod own_pools;
mod passes;
mod places;
mod plan_pools;
mod playing;
mod progress;
mod rooms;
mod rows;
mod running;
mod settling;
mod tables;
mod tried;
mod turn_context;

pub use dealing::{DealtLinks, links_in};
pub use did::Did;
pub use draft::LoopDraft;
pub use driving::pass_driver;
pub use loop_state::LoopState;
pub use plan_pools::pools_in;
pub use ready_queues::{Way, Ways};
pub use running::{rest_unless_called, run_all};
pub use settling::settle;
pub use tried::Tried;
