//! The common format of two formats.
ghost use Rattle.std.specs.Prelude.{◌≡◌, IfOk};
ghost use Rattle.format_filter.specs.declared.common.Filtered.{Filtered};
ghost use Rattle.format_filter.specs.CommonFormat.{IsSoundFormat, Filters};

use crate::format::Format;
use crate::merging::{Merged, merge};
use pw_lists::Memory;
use std::alloc::Global;

/// What two formats have in common.
#[derive(Drop)]
pub enum Filtered {
    /// What both admit.
    Common(Format),
    /// They clash, first at this key.
    Clash { key: u32 },
    /// They are of different object types.
    Types,
}

/// The common format of two formats, or why there is none.
///
/// A key clashes where both have it and no value is a member of both, or where one has it with the
/// flag MANDATORY and the other lacks it; the answer is the least such key. The common format has
/// the object type and the id of a; a key that both have has the intersection of their choices and
/// the flags that both have, and a key that only one has is as it is there.
///
/// Public source: PipeWire's documentation, "SPA POD"; `spa/pod/filter.h`, `spa_pod_filter`. What a
/// key that one side lacks does is this project's.
pub fn filter(alloc: Global, a: &Format, b: &Format) -> Result<Filtered, Memory>
    requires a { IsSoundFormat a.now }
    requires b { IsSoundFormat b.now }
    ensures filters { IfOk result (Filters a.now b.now) }

    // No other answer is right.
    ensures only { (other : Filtered) → Filters a.now b.now other
        → IfOk result (λ filtered. filtered ≡ other) }
{
    common_of(alloc, a, b)
}

/// What two formats have in common, by their object types and then by their keys.
fn common_of(alloc: Global, a: &Format, b: &Format) -> Result<Filtered, Memory>
    requires a { IsSoundFormat a.now }
    requires b { IsSoundFormat b.now }
    ensures { IfOk result (Filters a.now b.now) }
{
    if a.object != b.object {
        return Ok(Filtered::Types);
    }
    match merge(alloc, a.fields.as_slice(), b.fields.as_slice())? {
        Merged::Fields(fields) => Ok(Filtered::Common(Format {
            object: a.object,
            id: a.id,
            fields,
        })),
        Merged::Clash { key } => Ok(Filtered::Clash { key }),
    }
}
