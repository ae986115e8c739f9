//! Tests of samples: the kernels, quanta of node states, plans that are rendered whole, and node
//! states beside the cycle function: what each kind of node gives quantum after quantum is what the
//! reference program renders of whole streams; and runs of three nodes by node_progress only. They
//! are a crate of their own, since a crate that has tests is proved twice.
#![tactic(auto)]

#[cfg(test)]
mod chain;
#[cfg(test)]
mod following;
#[cfg(test)]
mod graph;
#[cfg(test)]
mod kernels;
#[cfg(test)]
mod kinds;
#[cfg(test)]
mod plans;
#[cfg(test)]
mod quanta;
#[cfg(test)]
mod rows;
#[cfg(test)]
mod runs;
#[cfg(test)]
mod widths;
