//! What happened in a run, one event a ticket.

/// An event of a cycle. Bit n of `late` is node n.
#[derive(Clone, Copy, PartialEq, Eq, Drop)]
pub enum Event {
    Begin { cycle: u32 },
    Start { cycle: u32, node: u32 },
    Finish { cycle: u32, node: u32 },
    Tick { cycle: u32, late: u64 },
    End { cycle: u32 },
}
