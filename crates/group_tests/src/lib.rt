//! Tests of the runs of several plans at once. They are a crate of their own, since a crate that
//! has tests is proved twice.
//!
//! `group_of` makes the plans of parts, each from the text of its script.
#![tactic(auto)]

mod group;
#[cfg(test)]
mod numbers;
#[cfg(test)]
mod refusals;
#[cfg(test)]
mod runs;

pub use group::{Group, GroupRow, group_of};
