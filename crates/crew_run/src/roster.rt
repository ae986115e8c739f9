//! Who runs the members of a run.

/// What a caller asks of the threads of a run: by `loops` threads beside the caller's, but for
/// those that `adopt` names, which has an entry for each in their order, and those whose start
/// `starts` refuses.
#[derive(Drop)]
pub struct Roster<'a, S> {
    pub loops: u32,
    pub adopt: &'a [bool],
    pub starts: &'a S,
}
