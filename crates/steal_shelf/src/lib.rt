//! The shelf of a run with stealing loops: where threads leave and fetch the loops of single nodes.
//!
//! A cell is a loop that has one node. The shelf holds the cells of a run in the slots of one table
//! of atomic words, a word and a slot a cell: the word is 0 while the cell is at home, and 1 while
//! one seat has its turn. `fetch` is one compare-exchange and takes the cell out of its slot;
//! `put_back` puts it into the slot and stores 0. Between any two steps of any threads each cell is
//! at home or with just one seat, and is a loop that it may have become on its way through the
//! boards of its run.
#![tactic(auto)]

mod dealing;
mod fetching;
mod opening;
mod rule;
mod safety;
mod shelf;
mod token;
mod view;

pub use safety::{cells_are_alone, cells_are_in_reach};
pub use shelf::{Shelf, ShelfSeat};
