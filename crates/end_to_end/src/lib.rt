//! Tests of the commands that run a graph and of `filter` and `check` by what no program shows: what
//! a call finds beside its report, calls that fail in their turn, gates and loops, over files and an
//! output in memory. There is nothing else here.
#![tactic(auto)]

#[cfg(test)]
mod clashes;
#[cfg(test)]
mod faults;
#[cfg(test)]
mod finding;
#[cfg(test)]
mod found;
#[cfg(test)]
mod offered;
#[cfg(test)]
mod plans;
#[cfg(test)]
mod reasons;
#[cfg(test)]
mod threads;
