//! Tests of runs by loops that steal, over plans of script texts. They are a crate of their own,
//! since a crate that has tests is proved twice.
#![tactic(auto)]

#[cfg(test)]
mod hints;
#[cfg(test)]
mod many_cells;
#[cfg(test)]
mod meeting;
#[cfg(test)]
mod runs;
#[cfg(test)]
mod stealing;
