//! Tests of what runs by loops are made of: the calls of a cycle on a board's words, the free
//! numbers of a pool, ready queues and parking, and whole epochs of a board by the driver's thread. There is nothing else here.
#![tactic(auto)]

#[cfg(test)]
mod claims;
#[cfg(test)]
mod epochs;
#[cfg(test)]
mod pools;
#[cfg(test)]
mod queues;
