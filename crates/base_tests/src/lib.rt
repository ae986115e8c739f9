//! Tests of pw_lists, pw_outside, pw_graph and graph_checks over their public calls: worked shapes,
//! histories, words and lists, pieces and names, and plans that are unsound by one reason each. They
//! are apart, since a crate that has tests is proved twice.
#![tactic(auto)]

#[cfg(test)]
mod cutting;
#[cfg(test)]
mod histories;
#[cfg(test)]
mod lists;
#[cfg(test)]
mod meeting;
#[cfg(test)]
mod objects;
#[cfg(test)]
mod plans;
#[cfg(test)]
mod rows;
#[cfg(test)]
mod shapes;
#[cfg(test)]
mod words;
