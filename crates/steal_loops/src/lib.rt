//! Runs of a plan by loops that steal: any thread runs any node that is triggered.
//!
//! Each node that never drives is a cell, a loop of its own with a seat of its own on every board.
//! The cells lie on a shelf. A worker finds a cell that is ready by its own queue and by the signs
//! of woken nodes, and else goes through all cells; it fetches the cell, makes one step of it and
//! puts it back. The driver's thread drives, and visits cells between its tries. After the last
//! cycle it joins the workers, and then takes the cells from the shelf.
#![tactic(auto)]

mod cell_steps;
mod claimant;
mod collecting;
mod counts;
mod crew;
mod epoch;
mod leading;
mod preparing;
mod ready;
mod rounds;
mod scan;
mod shared;
mod signs;
mod site;
mod stealing_run;
mod visiting;
mod workers;

pub use counts::{HintCounts, RunCounts};
pub use stealing_run::{run_stealing, run_stealing_counted, run_stealing_with};
