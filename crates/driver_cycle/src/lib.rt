//! The cycles of an epoch, by the driver's thread: `run_epoch`, and what it is made of.
//!
//! The thread begins a cycle with `begin_next`. Then it goes in rounds: turns of its loops, and one
//! claim of the driver's node by `lead_once`, which ends the cycle where the node is awake and else
//! looks at who is late, at most once a cycle. It sends what the beginning and each turn woke, and
//! rests where a round did nothing and other threads have loops. After the last cycle it calls
//! `settle` for each loop.
#![tactic(auto)]

mod epoch;
mod leading;
mod rounds;
mod settling;
mod site;
mod turning;
mod waking;

pub use epoch::run_epoch;
pub use leading::lead_once;
pub use rounds::{begin_next, look};
pub use settling::settle;
pub use turning::turn_one;
pub use waking::{rest_unless, send_woken};
