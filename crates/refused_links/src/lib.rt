//! The links that a script refuses for want of a common format, and what both sides admit.
//!
//! `refused_links` goes over the lines of a script as a rehearsal does. A `link` line that finds no
//! common format gives one `RefusedLink`: its ports, the key at which their offers part, and the
//! choices of both under that key. `put_choice` has a choice in words, as `44100 or 48000`.
#![tactic(auto)]

mod choices;
mod finding;
mod held;
mod lines;
mod noting;
mod refused_link;
mod sides;
mod words;

pub use lines::refused_links;
pub use refused_link::{RefusedLink, Sides};
pub use words::put_choice;
