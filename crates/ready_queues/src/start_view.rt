//! What one way knows of the start of one loop.

/// What a way has seen of the word that says whether a loop's own thread runs it. No value of it is
/// made: only contracts see it, as the view of the way's seat of that word.
pub struct StartView {
    /// Whether the seat is that of the loop's own way.
    pub own: bool,
    /// Whether that way was started.
    pub runs: bool,
    /// Whether the seat has seen that it was.
    pub seen: bool,
    /// How often the seat looked and saw that it was not.
    pub misses: u64,
}
