//! The intersection of an Only or an Enum with any choice.
ghost use Rattle.std.specs.Prelude.{◌≡◌, ◌+◌, ◌<◌, ◌≤◌, ℕ, [], ◌∷◌, length, IfOk};
ghost use Rattle.std.specs.List.{Contains};
ghost use Rattle.pod_codec.specs.SoundChoices.{IsOfType};
ghost use Rattle.pod_codec.specs.declared.pod.Pod.{Pod};
ghost use Rattle.format_filter.specs.Members.{IsMember};
ghost use Rattle.format_filter.specs.Soundness.{HasSoundParts, AreOfOneType, IsSound};
ghost use Rattle.format_filter.specs.Intersection.{IsCommon, AreThoseOf, Meets};
ghost use Rattle.format_filter.specs.working.Making.{AreListed};

use crate::choice::Choice;
use crate::members::{is_among, is_member};
use crate::picking::picked;
use pod_codec::Pod;
use pw_lists::{Items, Memory};
use std::alloc::Global;

/// Those of the values that a choice admits, in their order, no value twice.
fn common_values(alloc: Global, values: &[Pod], other: &Choice) -> Result<Items<Pod>, Memory>
    requires { HasSoundParts other.now }
    ensures { IfOk result (AreThoseOf values.now (IsMember other.now)) }
{
    let mut those = Items::new(alloc);
    for value in values {
        if is_member(other, value) && !is_among(those.as_slice(), value) {
            those.push(value.copy(alloc)?)?;
        }
    }
    Ok(those)
}

/// The intersection of two choices, of which one has only the value and `other` is the other one.
pub fn meet_value(
    alloc: Global,
    value: &Pod,
    other: &Choice,
    a: &Choice,
    b: &Choice,
) -> Result<Option<Choice>, Memory>
    requires other { HasSoundParts other.now }
    requires plain { IsOfType 19 value.now → ⊥ }
    requires listed { AreListed a.now b.now other.now (value.now ∷ []) }
    ensures { IfOk result (Meets a.now b.now) }
{
    if is_member(other, value) {
        Ok(Some(Choice::Only(value.copy(alloc)?)))
    } else {
        Ok(None)
    }
}

/// The intersection of two choices, of which one has the values and `other` is the other one. Takes
/// time proportional to the number of values times that of the alternatives of `other`.
pub fn meet_values(
    alloc: Global,
    values: &[Pod],
    other: &Choice,
    a: &Choice,
    b: &Choice,
) -> Result<Option<Choice>, Memory>
    requires a { IsSound a.now }
    requires b { IsSound b.now }
    requires other { HasSoundParts other.now }
    requires parts { AreOfOneType values.now }
    requires listed { AreListed a.now b.now other.now values.now }
    ensures { IfOk result (Meets a.now b.now) }
{
    let mut those = common_values(alloc, values, other)?;
    if those.len() > 1 {
        let pick = picked(alloc, a, b, &those.as_slice()[0])?;
        return Ok(Some(Choice::Enum { pick, alts: those }));
    }
    match those.pop() {
        Some(value) => Ok(Some(Choice::Only(value))),
        None => Ok(None),
    }
}
