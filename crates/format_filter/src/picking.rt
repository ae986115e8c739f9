//! The pick of an intersection, and picks as values.
ghost use Rattle.std.specs.Prelude.{◌≡◌, ◌↔◌, ◌⊎◌, ℤ, pos, ◌<ℤ◌, IsTrue, IfOk};
ghost use Rattle.format_filter.specs.Members.{number_of, IsMember, pick_of};
ghost use Rattle.format_filter.specs.Soundness.{FitsWide, HasSoundParts, IsSound};
ghost use Rattle.format_filter.specs.Intersection.{IsCommon, IsPicked};
ghost use Rattle.format_filter.specs.working.Picking.{IsPreferred};

use crate::choice::{Choice, Wide};
use crate::members::is_member;
use pod_codec::Pod;
use pw_lists::Memory;
use std::alloc::Global;

/// A number as a value of its type.
pub fn number(wide: Wide, n: i64) -> Pod
    requires { FitsWide wide n }
    ensures { result ≡ number_of wide n }
{
    match wide {
        Wide::Int => Pod::Int(n as i32),
        Wide::Long => Pod::Long(n),
    }
}

/// The pick of a choice, in memory of its own.
pub fn copy_pick(alloc: Global, choice: &Choice) -> Result<Pod, Memory>
    requires { HasSoundParts choice.now }
    ensures { IfOk result (λ pick. pick ≡ pick_of choice.now) }
{
    match choice {
        Choice::Only(value) => value.copy(alloc),
        Choice::Enum { pick, .. } => pick.copy(alloc),
        Choice::Range { wide, pick, .. } => Ok(number(*wide, *pick)),
        Choice::Step { wide, pick, .. } => Ok(number(*wide, *pick)),
    }
}

/// Whether a choice admits the pick of another.
fn admits_pick(choice: &Choice, other: &Choice) -> bool
    requires choice { HasSoundParts choice.now }
    requires other { HasSoundParts other.now }
    ensures { IsTrue result ↔ IsMember choice.now (pick_of other.now) }
{
    match other {
        Choice::Only(value) => is_member(choice, value),
        Choice::Enum { pick, .. } => is_member(choice, pick),
        Choice::Range { wide, pick, .. } => is_member(choice, &number(*wide, *pick)),
        Choice::Step { wide, pick, .. } => is_member(choice, &number(*wide, *pick)),
    }
}

/// Which pick an intersection has.
#[derive(Clone, Copy, Drop)]
pub enum Preference {
    /// That of the first choice.
    Own,
    /// That of the second one.
    Other,
    /// None of both: the first member.
    First,
}

/// Which pick the intersection of two choices has.
fn preference_of(a: &Choice, b: &Choice) -> Preference
    requires a { IsSound a.now }
    requires b { IsSound b.now }
    ensures { IsPreferred a.now b.now result }
{
    if admits_pick(b, a) {
        Preference::Own
    } else if admits_pick(a, b) {
        Preference::Other
    } else {
        Preference::First
    }
}

/// The pick of the intersection of two choices, whose first member is `first`.
pub fn picked(alloc: Global, a: &Choice, b: &Choice, first: &Pod) -> Result<Pod, Memory>
    requires a { IsSound a.now }
    requires b { IsSound b.now }
    ensures pick { IfOk result (IsPicked a.now b.now first.now) }
    ensures member { IfOk result (λ pick. IsCommon a.now b.now pick ⊎ (pick ≡ first.now)) }
{
    match preference_of(a, b) {
        Preference::Own => copy_pick(alloc, a),
        Preference::Other => copy_pick(alloc, b),
        Preference::First => first.copy(alloc),
    }
}

/// The same of two choices of numbers, whose picks are given.
pub fn picked_number(a: &Choice, b: &Choice, wide: Wide, picks: (i64, i64), first: i64) -> i64
    requires a { IsSound a.now }
    requires b { IsSound b.now }
    requires own { pick_of a.now ≡ number_of wide picks.0 }
    requires other { pick_of b.now ≡ number_of wide picks.1 }
    ensures pick { IsPicked a.now b.now (number_of wide first) (number_of wide result) }
    ensures member { IsCommon a.now b.now (number_of wide result) ⊎ (result ≡ first) }
    ensures origin { (result ≡ picks.0) ⊎ ((result ≡ picks.1) ⊎ (result ≡ first)) }
{
    match preference_of(a, b) {
        Preference::Own => picks.0,
        Preference::Other => picks.1,
        Preference::First => first,
    }
}
