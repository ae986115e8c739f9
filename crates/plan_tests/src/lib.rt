//! Tests of graph_plan over whole scripts, of script_inputs and of refused_links. They are apart, since a crate
//! that has tests is proved twice.
#![tactic(auto)]

#[cfg(test)]
mod counts;
#[cfg(test)]
mod drains;
#[cfg(test)]
mod epochs;
#[cfg(test)]
mod fresh;
#[cfg(test)]
mod limits;
#[cfg(test)]
mod offers;
#[cfg(test)]
mod parting;
#[cfg(test)]
mod plans;
#[cfg(test)]
mod refused;
#[cfg(test)]
mod showing;
