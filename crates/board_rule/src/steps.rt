//! Atomic steps on a board, each with the view that its seat has after it.

pub(crate) mod activation;
pub(crate) mod change;
pub(crate) mod event;
pub(crate) mod reading;
pub(crate) mod statuses;
pub(crate) mod writing;
