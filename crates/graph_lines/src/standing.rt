//! What lines have said of a node, beside its ports.

/// What lines have said of a node so far, and what epochs have done with it.
#[derive(Clone, Copy, Drop)]
pub struct Standing {
    /// A line has made it.
    pub there: bool,
    pub on: bool,
    /// Its links are asynchronous.
    pub marked: bool,
    /// The priority with which it may drive, if it may.
    pub priority: Option<u32>,
    /// The number of the loop that it asks for.
    pub k: u32,
    /// It gave its formats up since the epoch before.
    pub gave_up: bool,
    /// The channels of its first input in the epoch before, or 0.
    pub told: u32,
    /// It is a sink that was active in a cycle in which it had a form.
    pub kept: bool,
    /// How many cycles it was active in.
    pub ran: u32,
}
