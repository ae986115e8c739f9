//! The choice that a property's value is read as.
ghost use Rattle.std.specs.Prelude.{◌≡◌, ◌⊎◌, ◌<◌, ℤ, pos, ◌<ℤ◌, ◌≤ℤ◌, length, IfOk, IfErr, IfSome, IsNone};
ghost use Rattle.pod_codec.specs.declared.pod.Pod.{Pod};
ghost use Rattle.pod_codec.specs.declared.pod.Pod.TheViews.{out-Pod};
ghost use Rattle.pod_codec.specs.declared.pod.ChoiceKind.TheVariants as k;
ghost use Rattle.pod_codec.specs.SoundChoices.{IsSoundChoice};
ghost use Rattle.format_filter.specs.declared.choice.Choice.{Choice};
ghost use Rattle.format_filter.specs.declared.choice.Wide.{Wide};
ghost use Rattle.format_filter.specs.declared.fault.FormatFault.TheVariants as f;
ghost use Rattle.format_filter.specs.Members.{IsReached};
ghost use Rattle.format_filter.specs.Soundness.{AreOfOneType, IsSound};
ghost use Rattle.format_filter.specs.ChoiceReading.{IsNumber, ReadsRange, ReadsStep, ReadsEnum, ReadsValues, FaultsValues, Reads, Faults};

use crate::choice::{Choice, Wide};
use crate::fault::FormatFault;
use crate::members::{is_among, is_reached, number_in};
use pod_codec::{ChoiceKind, Pod, copy_pods};
use pw_lists::{Items, Memory};
use std::alloc::Global;

/// The type of a number.
fn wide_of(value: &Pod) -> Option<Wide>
    ensures some { IfSome result (λ wide. IsNumber wide value.now) }
    ensures none { IsNone result → (wide : Wide) → IsNumber wide value.now → ⊥ }
{
    match value {
        Pod::Int(_) => Some(Wide::Int),
        Pod::Long(_) => Some(Wide::Long),
        _ => None,
    }
}

/// A default where it is in a Range, else the min.
fn kept_in_range(min: i64, max: i64, n: i64) -> i64
    ensures { (((min ≤ℤ n) × (n ≤ℤ max)) × (result ≡ n))
        ⊎ (((min ≤ℤ n) × (n ≤ℤ max) → ⊥) × (result ≡ min)) }
{
    if min <= n && n <= max { n } else { min }
}

/// A default where it is in a Step, else the min.
fn kept_in_step(min: i64, max: i64, step: i64, n: i64) -> i64
    requires { pos 0 <ℤ step }
    ensures { ((IsReached min step n × (n ≤ℤ max)) × (result ≡ n))
        ⊎ ((IsReached min step n × (n ≤ℤ max) → ⊥) × (result ≡ min)) }
{
    if is_reached(min, step, n) && n <= max {
        n
    } else {
        min
    }
}

/// A Range from its default, its min and its max, if they are that.
fn read_range(wish: &Pod, low: &Pod, high: &Pod) -> Option<Choice>
    ensures some { IfSome result (λ c. ReadsRange wish.now low.now high.now c × IsSound c) }
    ensures none { IsNone result → (c : Choice) → ReadsRange wish.now low.now high.now c
        → ⊥ }
{
    let wide = match wide_of(wish) {
        Some(wide) => wide,
        None => return None,
    };
    let pick = number_in(wide, wish)?;
    let min = number_in(wide, low)?;
    let max = number_in(wide, high)?;
    if max < min {
        return None;
    }
    Some(Choice::Range {
        wide,
        pick: kept_in_range(min, max, pick),
        min,
        max,
    })
}

/// A Step from its default, its min, its max and its step, if they are that.
fn read_step(wish: &Pod, low: &Pod, high: &Pod, by: &Pod) -> Option<Choice>
    ensures some { IfSome result (λ c. ReadsStep wish.now low.now high.now by.now c × IsSound c) }
    ensures none { IsNone result → (c : Choice) → ReadsStep wish.now low.now high.now by.now c
        → ⊥ }
{
    let wide = match wide_of(wish) {
        Some(wide) => wide,
        None => return None,
    };
    let pick = number_in(wide, wish)?;
    let min = number_in(wide, low)?;
    let max = number_in(wide, high)?;
    let step = number_in(wide, by)?;
    if max < min {
        return None;
    }
    if step <= 0 {
        return None;
    }
    Some(Choice::Step {
        wide,
        pick: kept_in_step(min, max, step, pick),
        min,
        max,
        step,
    })
}

/// An Enum from its default and its alternatives, which are all of one type.
fn read_enum(alloc: Global, wish: &Pod, alts: &[Pod]) -> Result<Choice, Memory>
    requires types { AreOfOneType alts.now }
    requires some { 0 < length alts.now }
    ensures { IfOk result (λ c. ReadsEnum wish.now alts.now c × IsSound c) }
{
    let pick = if is_among(alts, wish) {
        wish.copy(alloc)?
    } else {
        alts[0].copy(alloc)?
    };
    Ok(Choice::Enum {
        pick,
        alts: copy_pods(alloc, alts)?,
    })
}

/// A Range from the values of a choice, if they are one.
fn range_from(values: &[Pod]) -> Option<Choice>
    ensures some { IfSome result (λ c. ReadsValues k.Range values.now c × IsSound c) }
    ensures none { IsNone result → (c : Choice) → ReadsValues k.Range values.now c → ⊥ }
{
    if values.len() < 3 {
        return None;
    }
    read_range(&values[0], &values[1], &values[2])
}

/// A Step from the values of a choice, if they are one.
fn step_from(values: &[Pod]) -> Option<Choice>
    ensures some { IfSome result (λ c. ReadsValues k.Step values.now c × IsSound c) }
    ensures none { IsNone result → (c : Choice) → ReadsValues k.Step values.now c → ⊥ }
{
    if values.len() < 4 {
        return None;
    }
    read_step(&values[0], &values[1], &values[2], &values[3])
}

/// An Enum from the values of a choice, of which there are some: the first is the default.
fn enum_from(alloc: Global, values: &[Pod]) -> Result<Choice, Memory>
    requires types { AreOfOneType values.now }
    requires some { 0 < length values.now }
    ensures { IfOk result (λ c. ReadsValues k.Enum values.now c × IsSound c) }
{
    if values.len() == 1 {
        read_enum(alloc, &values[0], values)
    } else {
        read_enum(alloc, &values[0], &values[1..])
    }
}

/// The choice of some values, by its kind.
fn choice_from(
    alloc: Global,
    key: u32,
    kind: ChoiceKind,
    values: &[Pod],
) -> Result<Choice, FormatFault>
    requires types { AreOfOneType values.now }
    requires some { 0 < length values.now }
    ensures found { IfOk result (λ c. ReadsValues kind values.now c × IsSound c) }
    ensures fault { IfErr result
        (λ fault. (fault ≡ f.Memory) ⊎ FaultsValues kind values.now key fault) }
{
    match kind {
        ChoiceKind::None => Ok(Choice::Only(values[0].copy(alloc)?)),
        ChoiceKind::Range => match range_from(values) {
            Some(choice) => Ok(choice),
            None => Err(FormatFault::BadRange { key }),
        },
        ChoiceKind::Step => match step_from(values) {
            Some(choice) => Ok(choice),
            None => Err(FormatFault::BadStep { key }),
        },
        ChoiceKind::Enum => Ok(enum_from(alloc, values)?),
        ChoiceKind::Flags => Err(FormatFault::FlagsChoice { key }),
    }
}

/// The choice of a property's value, under this key.
pub fn choice_of(alloc: Global, key: u32, value: &Pod) -> Result<Choice, FormatFault>
    requires { IsSoundChoice (out-Pod value.now) }
    ensures found { IfOk result (λ c. Reads (out-Pod value.now) value.now c × IsSound c) }
    ensures fault { IfErr result
        (λ fault. (fault ≡ f.Memory) ⊎ Faults (out-Pod value.now) key fault) }
{
    match value {
        Pod::Choice { kind, values, .. } => {
            let values = values.as_slice();
            if values.is_empty() {
                return Err(FormatFault::EmptyChoice { key });
            }
            choice_from(alloc, key, *kind, values)
        }
        _ => Ok(Choice::Only(value.copy(alloc)?)),
    }
}
