//! The intersection of two choices, by their kinds.
ghost use Rattle.std.specs.Prelude.{◌≡◌, Option, IfOk, IsOk};
ghost use Rattle.format_filter.specs.declared.choice.Choice.{Choice};
ghost use Rattle.format_filter.specs.Soundness.{IsSound};
ghost use Rattle.format_filter.specs.Intersection.{Meets};
ghost use Rattle.format_filter.specs.Members.{AreRanges};
ghost use Rattle.format_filter.specs.working.Making.{range_of, step_of, IsRange, IsStep, IsRowOf};

use crate::choice::{Choice, Wide};
use crate::numbers::{Ranged, meet_ranges, meet_rows};
use crate::progression::Row;
use crate::values::{meet_value, meet_values};
use pw_lists::Memory;
use std::alloc::Global;

/// A Range as a row of numbers in steps of 1.
fn range(wide: Wide, pick: i64, min: i64, max: i64) -> Ranged
    ensures { result ≡ range_of wide pick min max }
{
    Ranged {
        wide,
        pick,
        row: Row { min, max, step: 1 },
    }
}

/// A Step as a row of numbers.
fn steps(wide: Wide, pick: i64, min: i64, max: i64, step: i64) -> Ranged
    ensures { result ≡ step_of wide pick min max step }
{
    Ranged {
        wide,
        pick,
        row: Row { min, max, step },
    }
}

/// The intersection of two choices: a choice of just their common members, or `None` where there is
/// none.
///
/// The common members of an Only or Enum and another choice come in the order of the first's
/// values, those of two Ranges are a Range, and those of other choices of numbers are a Step; one
/// member is an Only, and two numbers are an Enum. The pick is a's where it is common, else
/// b's where it is common, else the first alternative or the least member.
///
/// Two Ranges take no memory, and never give `Memory`. Enums of n and m values take time
/// proportional to n times m, a Range and a Step constant time, and two Steps logarithmic time.
///
/// Public source: PipeWire's documentation, "SPA POD", Choice; `spa/pod/filter.h`,
/// `spa_pod_filter_prop`. The form and the pick are this project's.
pub fn meet(alloc: Global, a: &Choice, b: &Choice) -> Result<Option<Choice>, Memory>
    requires a { IsSound a.now }
    requires b { IsSound b.now }
    ensures meets { IfOk result (Meets a.now b.now) }
    ensures no_memory { AreRanges a.now b.now → IsOk result }

    // No other answer is right.
    ensures only { (other : Option Choice) → Meets a.now b.now other
        → IfOk result (λ common. common ≡ other) }
{
    intersection_of(alloc, a, b)
}

/// The intersection of two choices, by the kind of the first.
fn intersection_of(alloc: Global, a: &Choice, b: &Choice) -> Result<Option<Choice>, Memory>
    requires a { IsSound a.now }
    requires b { IsSound b.now }
    ensures meets { IfOk result (Meets a.now b.now) }
    ensures no_memory { AreRanges a.now b.now → IsOk result }
{
    match a {
        Choice::Only(value) => meet_value(alloc, value, b, a, b),
        Choice::Enum { alts, .. } => meet_values(alloc, alts.as_slice(), b, a, b),
        Choice::Range {
            wide,
            pick,
            min,
            max,
        } => meet_range(alloc, a, range(*wide, *pick, *min, *max), b),
        Choice::Step {
            wide,
            pick,
            min,
            max,
            step,
        } => meet_step(alloc, a, steps(*wide, *pick, *min, *max, *step), b),
    }
}

/// The intersection of a Range with any choice.
fn meet_range(alloc: Global, a: &Choice, own: Ranged, b: &Choice) -> Result<Option<Choice>, Memory>
    requires a { IsSound a.now }
    requires b { IsSound b.now }
    requires range { IsRange a.now own }
    requires row { IsRowOf a.now own }
    ensures meets { IfOk result (Meets a.now b.now) }
    ensures no_memory { AreRanges a.now b.now → IsOk result }
{
    match b {
        Choice::Only(value) => meet_value(alloc, value, a, a, b),
        Choice::Enum { alts, .. } => meet_values(alloc, alts.as_slice(), a, a, b),
        Choice::Range {
            wide,
            pick,
            min,
            max,
        } => Ok(meet_ranges(a, b, own, range(*wide, *pick, *min, *max))),
        Choice::Step {
            wide,
            pick,
            min,
            max,
            step,
        } => meet_rows(alloc, a, b, own, steps(*wide, *pick, *min, *max, *step)),
    }
}

/// The intersection of a Step with any choice.
fn meet_step(alloc: Global, a: &Choice, own: Ranged, b: &Choice) -> Result<Option<Choice>, Memory>
    requires a { IsSound a.now }
    requires b { IsSound b.now }
    requires step { IsStep a.now own }
    requires row { IsRowOf a.now own }
    ensures meets { IfOk result (Meets a.now b.now) }
    ensures no_memory { AreRanges a.now b.now → ⊥ }
{
    match b {
        Choice::Only(value) => meet_value(alloc, value, a, a, b),
        Choice::Enum { alts, .. } => meet_values(alloc, alts.as_slice(), a, a, b),
        Choice::Range {
            wide,
            pick,
            min,
            max,
        } => meet_rows(alloc, a, b, own, range(*wide, *pick, *min, *max)),
        Choice::Step {
            wide,
            pick,
            min,
            max,
            step,
        } => meet_rows(alloc, a, b, own, steps(*wide, *pick, *min, *max, *step)),
    }
}
