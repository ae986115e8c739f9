//! The object that spells a format.
ghost use Rattle.std.specs.Prelude.{◌≡◌, [], ◌∷◌, ◌++◌, length, IfOk};
ghost use Rattle.std.specs.List.{AllZip};
ghost use Rattle.pod_codec.specs.declared.pod.Pod.{Pod};
ghost use Rattle.pod_codec.specs.declared.pod.Pod.TheViews.{out-Pod};
ghost use Rattle.pod_codec.specs.declared.pod.ChoiceKind.TheVariants as k;
ghost use Rattle.pod_codec.specs.SoundChoices.{HasSoundChoices};
ghost use Rattle.format_filter.specs.Members.{number_of};
ghost use Rattle.format_filter.specs.Soundness.{FitsWide, IsSound};
ghost use Rattle.format_filter.specs.CommonFormat.{IsSoundFormat, AreSoundFields};
ghost use Rattle.format_filter.specs.FormatReading.{IsReadAs};
ghost use Rattle.format_filter.specs.FormatWriting.{type_of_wide, IsChoice, Writes, WritesField, IsWritten};

use crate::choice::{Choice, Wide};
use crate::format::{Field, Format};
use crate::picking::number;
use pod_codec::{ChoiceKind, Pod, Prop, type_number};
use pw_lists::{Items, Memory};
use std::alloc::Global;

/// The number of a type of numbers.
fn wide_number(wide: Wide) -> u32
    ensures { result ≡ type_of_wide wide }
{
    match wide {
        Wide::Int => 4,
        Wide::Long => 5,
    }
}

/// A Choice of these values.
fn choice_value(kind: ChoiceKind, child: u32, values: Items<Pod>) -> Pod
    ensures { IsChoice kind child values (out-Pod result) }
{
    Pod::Choice {
        kind,
        flags: 0,
        child,
        values,
    }
}

/// The values of an Enum: the pick, and then the alternatives.
fn enum_values(alloc: Global, pick: &Pod, alts: &[Pod]) -> Result<Items<Pod>, Memory>
    ensures { IfOk result (λ values. values ≡ pick.now ∷ alts.now) }
{
    let mut values = Items::new(alloc);
    values.push(pick.copy(alloc)?)?;
    for alt in alts {
        values.push(alt.copy(alloc)?)?;
    }
    Ok(values)
}

/// The first values of a Range or a Step: the pick, the min and the max.
fn range_values(
    alloc: Global,
    wide: Wide,
    pick: i64,
    min: i64,
    max: i64,
) -> Result<Items<Pod>, Memory>
    requires pick { FitsWide wide pick }
    requires min { FitsWide wide min }
    requires max { FitsWide wide max }
    ensures { IfOk result (λ values. values
        ≡ number_of wide pick ∷ number_of wide min ∷ number_of wide max ∷ []) }
{
    let mut values = Items::new(alloc);
    values.push(number(wide, pick))?;
    values.push(number(wide, min))?;
    values.push(number(wide, max))?;
    Ok(values)
}

/// The value that spells a choice.
fn value_of(alloc: Global, choice: &Choice) -> Result<Pod, Memory>
    requires { IsSound choice.now }
    ensures { IfOk result (Writes choice.now) }
{
    match choice {
        Choice::Only(value) => value.copy(alloc),
        Choice::Enum { pick, alts } => {
            let values = enum_values(alloc, pick, alts.as_slice())?;
            Ok(choice_value(ChoiceKind::Enum, type_number(pick), values))
        }
        Choice::Range {
            wide,
            pick,
            min,
            max,
        } => {
            let values = range_values(alloc, *wide, *pick, *min, *max)?;
            Ok(choice_value(ChoiceKind::Range, wide_number(*wide), values))
        }
        Choice::Step {
            wide,
            pick,
            min,
            max,
            step,
        } => {
            let mut values = range_values(alloc, *wide, *pick, *min, *max)?;
            values.push(number(*wide, *step))?;
            Ok(choice_value(ChoiceKind::Step, wide_number(*wide), values))
        }
    }
}

/// The property that spells a field.
fn prop_of(alloc: Global, field: &Field) -> Result<Prop, Memory>
    requires { IsSound field.now.choice }
    ensures { IfOk result (WritesField field.now) }
{
    let value = value_of(alloc, &field.choice)?;
    Ok(Prop {
        key: field.key,
        flags: field.flags,
        value,
    })
}

/// The properties that spell fields.
fn props_of(alloc: Global, fields: &[Field]) -> Result<Items<Prop>, Memory>
    requires { AreSoundFields fields.now }
    ensures { IfOk result (AllZip WritesField fields.now) }
{
    let mut props = Items::new(alloc);
    for field in fields {
        props.push(prop_of(alloc, field)?)?;
    }
    Ok(props)
}

/// The object of these properties.
fn object_of(format: &Format, props: Items<Prop>) -> Pod
    requires { AllZip WritesField format.now.fields props }
    ensures { IsWritten format.now result }
{
    Pod::Object {
        object: format.object,
        id: format.id,
        props,
    }
}

/// The object that spells a format: its properties ascend by key, an Only is its value, and the
/// values of another choice begin with its pick; an Enum has its pick and then all its
/// alternatives. `format_of` of it is the same format.
///
/// Public source: PipeWire's documentation, "SPA POD", Object and Choice; `spa/pod/pod.h`.
pub fn pod_of(alloc: Global, format: &Format) -> Result<Pod, Memory>
    requires { IsSoundFormat format.now }
    ensures written { IfOk result (IsWritten format.now) }
    ensures only { (other : Pod) → IsWritten format.now other
        → IfOk result (λ pod. pod ≡ other) }
    ensures law { IfOk result (λ pod. IsReadAs pod format.now) }
    ensures sound { IfOk result HasSoundChoices }
{
    let props = props_of(alloc, format.fields.as_slice())?;
    Ok(object_of(format, props))
}
