//! The causes of a script that has no plan.

use pw_lists::Which;

/// The cause of a script that has no plan.
#[derive(Clone, Copy, Debug, PartialEq, Eq, Drop)]
pub enum PlanFault {
    /// The first line that passes a limit, by its number, and which limit it is.
    Limit { line: u32, which: Which },
    Memory,
}
