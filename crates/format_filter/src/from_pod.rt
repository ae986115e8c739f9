//! The format that an object is read as.
ghost use Rattle.std.specs.Prelude.{◌≡◌, ◌⊎◌, IfOk, IfErr, OnOk};
ghost use Rattle.std.specs.List.{All};
ghost use Rattle.std.specs.BTreeMap.{values, Updates, IsOrdered};
ghost use Rattle.std.specs.Ordering.{nat_cmp};
ghost use Rattle.pod_codec.specs.declared.pod.Pod.TheViews.{out-Pod, out-Prop};
ghost use Rattle.pod_codec.specs.SoundChoices.{IsSoundChoice, HasSoundChoices};
ghost use Rattle.format_filter.specs.declared.fault.FormatFault.{FormatFault};
ghost use Rattle.format_filter.specs.declared.fault.FormatFault.TheVariants as f;
ghost use Rattle.format_filter.specs.declared.format.Format.{Format};
ghost use Rattle.format_filter.specs.FormatReading.{AreFieldsOf, FaultsProps, IsFormatOf, IsFirstFault};
ghost use Rattle.format_filter.specs.FormatAnswer.{IsGiven, IsRefusedAs};
ghost use Rattle.format_filter.specs.working.PropReading.{AreRead};

use crate::choice::Choice;
use crate::fault::FormatFault;
use crate::format::{Field, Format};
use crate::from_value::choice_of;
use pod_codec::{Pod, Prop};
use pw_lists::{Items, Memory};
use std::alloc::Global;
use std::collections::BTreeMap;

/// Puts a field under its key.
fn put(read: &mut BTreeMap<u32, Field>, key: u32, flags: u32, choice: Choice) -> Result<(), Memory>
    ensures updates { OnOk result (Updates nat_cmp read.old read.new key
        (Some (record { key = key; flags = flags; choice = choice }))) }
    ensures ordered { IsOrdered nat_cmp read.new }
{
    match read.insert(key, Field { key, flags, choice }) {
        Ok(_nothing) => Ok(()),
        Err(_refused) => Err(Memory),
    }
}

/// The fields of properties by their keys, or the first fault.
fn read_props(alloc: Global, props: &[Prop]) -> Result<BTreeMap<u32, Field>, FormatFault>
    requires { All (λ prop. IsSoundChoice (out-Pod (out-Prop prop).value)) props.now }
    ensures found { IfOk result (AreRead props.now) }
    ensures fault { IfErr result (λ fault. (fault ≡ f.Memory) ⊎ FaultsProps props.now fault) }
{
    let mut read = BTreeMap::new(alloc);
    for prop in props {
        if read.contains_key(&prop.key) {
            return Err(FormatFault::KeyTwice { key: prop.key });
        }
        match choice_of(alloc, prop.key, &prop.value) {
            Ok(choice) => put(&mut read, prop.key, prop.flags, choice)?,
            Err(fault) => return Err(fault),
        }
    }
    Ok(read)
}

/// The fields of a map in the order of their keys.
fn in_order(alloc: Global, read: BTreeMap<u32, Field>) -> Result<Items<Field>, Memory>
    ensures { IfOk result (λ fields. fields ≡ values read) }
{
    let mut fields = Items::new(alloc);
    for field in read.into_values() {
        fields.push(field)?;
    }
    Ok(fields)
}

/// The fields of properties, ascending by key, or the first fault.
fn fields_of(alloc: Global, props: &[Prop]) -> Result<Items<Field>, FormatFault>
    requires { All (λ prop. IsSoundChoice (out-Pod (out-Prop prop).value)) props.now }
    ensures found { IfOk result (AreFieldsOf props.now) }
    ensures fault { IfErr result (λ fault. (fault ≡ f.Memory) ⊎ FaultsProps props.now fault) }
{
    let read = read_props(alloc, props)?;
    Ok(in_order(alloc, read)?)
}

/// The format of an object, or its first fault.
fn object_format(alloc: Global, pod: &Pod) -> Result<Format, FormatFault>
    requires { HasSoundChoices pod.now }
    ensures found { IfOk result (IsFormatOf pod.now) }
    ensures fault { IfErr result (λ fault. (fault ≡ f.Memory) ⊎ IsFirstFault pod.now fault) }
{
    match pod {
        Pod::Object { object, id, props } => match fields_of(alloc, props.as_slice()) {
            Ok(fields) => Ok(Format {
                object: *object,
                id: *id,
                fields,
            }),
            Err(fault) => Err(fault),
        },
        _ => Err(FormatFault::NotObject),
    }
}

/// The format of an object, or its first fault.
///
/// A value that is no Choice is the only one; a Choice becomes one of its kind, whose further
/// values are ignored, and whose pick, where it is no member, is replaced by the min or the first
/// alternative. The properties are looked at in their order; the first at fault decides, and for
/// one property `KeyTwice` comes first, then `EmptyChoice`. After a fault nothing is made. Takes
/// memory for the format and a map of its fields, and time linear in the values and in the fields
/// times the logarithm of their number.
///
/// Public source: PipeWire's documentation, "SPA POD", Object and Choice; `spa/pod/pod.h`.
pub fn format_of(alloc: Global, pod: &Pod) -> Result<Format, FormatFault>
    requires { HasSoundChoices pod.now }
    ensures found { IfOk result (IsFormatOf pod.now) }
    ensures fault { IfErr result (λ fault. (fault ≡ f.Memory) ⊎ IsFirstFault pod.now fault) }

    // No other answer is right.
    ensures only { (format : Format) → IsFormatOf pod.now format → IsGiven result format }
    ensures only_fault { (first : FormatFault) → IsFirstFault pod.now first
        → IsRefusedAs result first }
{
    object_format(alloc, pod)
}
