//! Tests of runs by loops and threads, over plans of script texts: the words of a board step by
//! step, loops in one thread, and whole runs by threads.
//!
//! `work_of` of plan_support makes a plan of a text; `crew_of` puts the driver's thread and all
//! loops of a plan of one epoch on its board, of which a test makes one step after the other.
#![tactic(auto)]

#[cfg(test)]
mod alone;
#[cfg(test)]
mod assignment;
mod crew;
#[cfg(test)]
mod cycle_table;
#[cfg(test)]
mod meeting;
#[cfg(test)]
mod queues;
#[cfg(test)]
mod refusals;
#[cfg(test)]
mod runs;
#[cfg(test)]
mod stepping;
#[cfg(test)]
mod steps;
#[cfg(test)]
mod table_lines;
#[cfg(test)]
mod threads;
#[cfg(test)]
mod waits;
#[cfg(test)]
mod words;

pub use crew::Crew;
