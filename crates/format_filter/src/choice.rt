//! Choices: values that may vary.

use pod_codec::Pod;
use pw_lists::Items;

/// What a property admits: its members, of which the pick is the one that it prefers.
///
/// Public source: PipeWire's documentation, "SPA POD", Choice; `spa/pod/pod.h`.
#[derive(Drop)]
pub enum Choice {
    /// One value, which is no Choice itself.
    Only(Pod),
    /// The alternatives, which are all of one type that a Choice may hold.
    Enum {
        pick: Pod,
        alts: Items<Pod>,
    },
    /// The numbers from `min` to `max`.
    Range {
        wide: Wide,
        pick: i64,
        min: i64,
        max: i64,
    },
    /// The numbers `min`, `min + step`, and so on, up to `max`.
    Step {
        wide: Wide,
        pick: i64,
        min: i64,
        max: i64,
        step: i64,
    },
}

/// The type of a choice's numbers: Int is 32 bits wide, Long 64.
#[derive(Clone, Copy, PartialEq, Eq, Drop)]
pub enum Wide {
    Int,
    Long,
}
