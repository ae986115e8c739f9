//! What is read to make a POD.

/// What a file is, of which a POD is made.
#[derive(Clone, Copy, Debug, PartialEq, Eq, Drop)]
pub enum Source {
    /// A list of gains.
    Gains,
    /// The text of a dump.
    Dump,
}
