//! The graph after each line of a script, and the epochs that its lines make.
//!
//! `Graph` is the graph as the lines so far have made it: `start` before the first line, `step` for
//! any line. A line that makes an epoch goes three steps: `epoch_of` reads the epoch off the graph,
//! `judge` says whether it passes a limit, and `take` takes it. Where several graphs share limits,
//! `next_epoch` has the epoch that a line would make, and `Sums` are added and judged apart.
//! `rehearse` follows lines only for their links, without epochs and sums.
//!
//! Beside it are the pieces of an epoch: `driver_of` and `active_nodes` by live links, `counted`
//! for required counts and target lists, `form_in`, and `drain_cycles` for the cycles of a drain.
#![tactic(auto)]

mod commands;
mod draining;
mod epoch_forms;
mod epoch_links;
mod epochs;
mod forms;
mod fresh;
mod graph;
mod limits;
mod linking;
mod rehearsing;
mod shaping;
mod standing;
mod starting;
mod stepping;
mod taking;
mod unlinking;
mod upcoming;
mod wire;

pub use draining::drain_cycles;
pub use forms::form_in;
pub use graph::{Graph, Stepped};
pub use limits::{Sums, judge};
pub use shaping::{Candidate, active_nodes, bare_nodes, counted, driver_of, live_wires};
pub use standing::Standing;
pub use wire::Wire;
