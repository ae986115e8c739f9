//! Tests of the graph that is drawn from a number: what is drawn, its text and its plan; and of its
//! whole runs: what its sink and its meter keep, beside a fold by plain loops that calls nothing of
//! the engine.
#![tactic(auto)]

#[cfg(test)]
mod drawn;
#[cfg(test)]
mod plain;
#[cfg(test)]
mod soak;
#[cfg(test)]
mod stealing;
#[cfg(test)]
mod taken;
#[cfg(test)]
mod work;
