//! Tests of the checker of traces over its public calls. They are a crate of their own, since a
//! crate that has tests is proved twice. There is nothing else here.
#![tactic(auto)]

#[cfg(test)]
mod meter;
#[cfg(test)]
mod reasons;
#[cfg(test)]
mod traces;
