//! The intersection of two choices of numbers.
ghost use Rattle.std.specs.Prelude.{◌≡◌, ℤ, pos, ◌<ℤ◌, IfOk};
ghost use Rattle.pod_codec.specs.declared.pod.Pod.{Pod};
ghost use Rattle.format_filter.specs.declared.choice.Choice.{Choice};
ghost use Rattle.format_filter.specs.declared.choice.Choice.TheVariants.{Range};
ghost use Rattle.format_filter.specs.Members.{number_of, pick_of};
ghost use Rattle.format_filter.specs.Soundness.{FitsWide, IsSound};
ghost use Rattle.format_filter.specs.Intersection.{IsCommon, IsProgression, HasForm, Meets};
ghost use Rattle.format_filter.specs.working.Progression.{IsOneOf, AreOrdered};
ghost use Rattle.format_filter.specs.working.Making.{IsRowOf};

use crate::choice::{Choice, Wide};
use crate::picking::{number, picked_number};
use crate::progression::{Numbers, Row, common_numbers};
use pw_lists::{Items, Memory};
use std::alloc::Global;

/// A choice of numbers of a type.
#[derive(Clone, Copy, Drop)]
pub struct Ranged {
    pub wide: Wide,
    pub pick: i64,
    pub row: Row,
}

/// The choice of the numbers that two choices have in common.
fn choice_of_numbers(
    alloc: Global,
    a: &Choice,
    b: &Choice,
    wide: Wide,
    picks: (i64, i64),
    found: Numbers,
) -> Result<Option<Choice>, Memory>
    requires a { IsSound a.now }
    requires b { IsSound b.now }
    requires own { (pick_of a.now ≡ number_of wide picks.0) × FitsWide wide picks.0 }
    requires other { (pick_of b.now ≡ number_of wide picks.1) × FitsWide wide picks.1 }
    requires only { (n : ℤ) → IsOneOf found n
        → IsCommon a.now b.now (number_of wide n) × FitsWide wide n }
    requires all { (x : Pod) → IsCommon a.now b.now x
        → (n : ℤ) × (x ≡ number_of wide n) × IsOneOf found n }
    requires ordered { AreOrdered found }
    requires form { (c : Choice) → IsProgression c → HasForm a.now b.now c }
    ensures { IfOk result (Meets a.now b.now) }
{
    match found {
        Numbers::Nothing => Ok(None),
        Numbers::One(n) => Ok(Some(Choice::Only(number(wide, n)))),
        Numbers::Two(low, high) => {
            let mut alts = Items::new(alloc);
            alts.push(number(wide, low))?;
            alts.push(number(wide, high))?;
            let pick = number(wide, picked_number(a, b, wide, picks, low));
            Ok(Some(Choice::Enum { pick, alts }))
        }
        Numbers::More(row) => Ok(Some(Choice::Step {
            wide,
            pick: picked_number(a, b, wide, picks, row.min),
            min: row.min,
            max: row.max,
            step: row.step,
        })),
    }
}

/// The intersection of two choices that are rows of numbers, where one is a Step.
pub fn meet_rows(
    alloc: Global,
    a: &Choice,
    b: &Choice,
    one: Ranged,
    other: Ranged,
) -> Result<Option<Choice>, Memory>
    requires a { IsSound a.now }
    requires b { IsSound b.now }
    requires one { IsRowOf a.now one }
    requires other { IsRowOf b.now other }
    requires form { (c : Choice) → IsProgression c → HasForm a.now b.now c }
    ensures { IfOk result (Meets a.now b.now) }
{
    if one.wide != other.wide {
        return Ok(None);
    }
    let found = common_numbers(one.row, other.row);
    choice_of_numbers(alloc, a, b, one.wide, (one.pick, other.pick), found)
}

/// The intersection of two Ranges. Takes no memory.
pub fn meet_ranges(a: &Choice, b: &Choice, one: Ranged, other: Ranged) -> Option<Choice>
    requires a { IsSound a.now }
    requires b { IsSound b.now }
    requires one { a.now ≡ Range one.wide one.pick one.row.min one.row.max }
    requires other { b.now ≡ Range other.wide other.pick other.row.min other.row.max }
    ensures { Meets a.now b.now result }
{
    if one.wide != other.wide {
        return None;
    }
    let low = one.row.min.max(other.row.min);
    let high = one.row.max.min(other.row.max);
    if high < low {
        return None;
    }
    if low == high {
        return Some(Choice::Only(number(one.wide, low)));
    }
    Some(Choice::Range {
        wide: one.wide,
        pick: picked_number(a, b, one.wide, (one.pick, other.pick), low),
        min: low,
        max: high,
    })
}
