//! Tests of port_model and link_negotiation over their public calls. They are a crate of their own,
//! since a crate that has tests is proved twice. There is nothing else here.
#![tactic(auto)]

#[cfg(test)]
mod graph;
#[cfg(test)]
mod lines;
#[cfg(test)]
mod linking;
#[cfg(test)]
mod nodes;
#[cfg(test)]
mod offers;
