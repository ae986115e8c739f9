//! The bytes of a value: SPA POD, "Types".
ghost use Rattle.std.specs.Prelude.{◌≡◌, ◌+◌, ◌≤◌, ◌++◌, length, map, OnOk, OnErr, IsTrue};
ghost use Rattle.pw_lists.specs.Limits.{depth_limit};
ghost use Rattle.std.specs.List.{flat_map, AllByRecursion};
ghost use Rattle.pod_codec.specs.Framing.{are_children, framed, keyed_bytes};
ghost use Rattle.pod_codec.specs.PodValue.{form_of, keyed_of, control_keyed, struct_form, object_form, sequence_form, choice_form, canonical};
ghost use Rattle.pod_codec.specs.declared.pod.Pod.TheViews.{out-Pod};
ghost use Rattle.pod_codec.specs.Numbers.{ElementsFit, PropFits, ControlFits, ValueFits, NumbersFit};
ghost use Rattle.pod_codec.specs.Writable.{Fits, IsWritable, FitsBody, Tells};

use crate::containers::{MAX_DEPTH, end_frame, put_children};
use crate::fault::WriteFault;
use crate::pod::{Control, Pod, Prop};
use crate::pod_type::{number_of_kind, type_number};
use crate::scalars::{put_pair, put_text, put_u32, put_u64};
use pw_lists::Items;
use std::alloc::Global;

/// Appends the canonical spelling of a value with `left` levels left.
#[cycle(write)]
fn put_pod(pod: &Pod, left: u32, to: &mut Items<u8>) -> Result<(), WriteFault>
    ensures ok { OnOk result (to.new ≡ to.old ++ framed (form_of pod.now)) }
    ensures told { Tells result (Fits left (form_of pod.now)) }
    ensures numbers { OnOk result (NumbersFit left pod.now) }
{
    if left == 0 {
        return Err(WriteFault::Unwritable);
    }
    let at = to.len();
    put_pair(0, type_number(pod), to)?;
    put_body(pod, left - 1, to)?;
    end_frame(at, to)
}

/// Appends the body of a value, with `left` levels left for what it holds.
#[cycle(write)]
fn put_body(pod: &Pod, left: u32, to: &mut Items<u8>) -> Result<(), WriteFault>
    ensures ok { OnOk result (to.new ≡ to.old ++ (form_of pod.now).body) }
    ensures told { FitsBody result left (form_of pod.now) }
    ensures numbers { OnOk result (ValueFits (NumbersFit left) (out-Pod pod.now)) }
{
    match pod {
        Pod::None => Ok(()),
        Pod::Bool(set) => Ok(put_u32(u32::from(*set), to)?),
        Pod::Id(n) => Ok(put_u32(*n, to)?),
        Pod::Int(n) => Ok(put_u32(n.cast_unsigned(), to)?),
        Pod::Long(n) => Ok(put_u64(n.cast_unsigned(), to)?),
        Pod::FloatBits(bits) => Ok(put_u32(*bits, to)?),
        Pod::DoubleBits(bits) => Ok(put_u64(*bits, to)?),
        Pod::Text(text) => Ok(put_text(text, to)?),
        Pod::Bytes(bytes) => Ok(to.extend(bytes.as_slice())?),
        Pod::Rectangle { width, height } => Ok(put_pair(*width, *height, to)?),
        Pod::Fraction { num, denom } => Ok(put_pair(*num, *denom, to)?),
        Pod::Bitmap(bytes) => Ok(to.extend(bytes.as_slice())?),
        Pod::Fd(n) => Ok(put_u64(n.cast_unsigned(), to)?),
        Pod::Array { child, values } => put_children(values.as_slice(), *child, to),
        Pod::Struct(fields) => put_struct(fields.as_slice(), left, to),
        Pod::Object { object, id, props } => put_object(*object, *id, props.as_slice(), left, to),
        Pod::Choice {
            kind,
            flags,
            child,
            values,
        } => put_choice(number_of_kind(*kind), *flags, *child, values.as_slice(), to),
        Pod::Sequence { unit, controls } => put_sequence(*unit, controls.as_slice(), left, to),
    }
}

/// Appends the body of a choice.
fn put_choice(
    kind: u32,
    flags: u32,
    child: u32,
    values: &[Pod],
    to: &mut Items<u8>,
) -> Result<(), WriteFault>
    ensures ok { OnOk result (to.new
        ≡ to.old ++ (choice_form kind flags child (map form_of values.now)).body) }
    ensures told { Tells result (IsTrue (are_children child (map form_of values.now))) }
    ensures numbers { OnOk result (ElementsFit values.now) }
{
    put_pair(kind, flags, to)?;
    put_children(values, child, to)
}

/// Appends the body of a struct.
#[cycle(write)]
fn put_struct(fields: &[Pod], left: u32, to: &mut Items<u8>) -> Result<(), WriteFault>
    ensures ok { OnOk result (to.new ≡ to.old ++ flat_map framed (map form_of fields.now)) }
    ensures told { FitsBody result left (struct_form (map form_of fields.now)) }
    ensures numbers { OnOk result (AllByRecursion (NumbersFit left) fields.now) }
{
    put_pods(fields, left, to)
}

/// Appends the body of an object.
#[cycle(write)]
fn put_object(
    object: u32,
    id: u32,
    props: &[Prop],
    left: u32,
    to: &mut Items<u8>,
) -> Result<(), WriteFault>
    ensures ok { OnOk result (to.new
        ≡ to.old ++ (object_form object id (map keyed_of props.now)).body) }
    ensures told { FitsBody result left (object_form object id (map keyed_of props.now)) }
    ensures numbers { OnOk result (AllByRecursion (PropFits (NumbersFit left)) props.now) }
{
    put_pair(object, id, to)?;
    put_props(props, left, to)
}

/// Appends the body of a sequence.
#[cycle(write)]
fn put_sequence(
    unit: u32,
    controls: &[Control],
    left: u32,
    to: &mut Items<u8>,
) -> Result<(), WriteFault>
    ensures ok { OnOk result (to.new
        ≡ to.old ++ (sequence_form unit (map control_keyed controls.now)).body) }
    ensures told { FitsBody result left (sequence_form unit (map control_keyed controls.now)) }
    ensures numbers { OnOk result (AllByRecursion (ControlFits (NumbersFit left)) controls.now) }
{
    put_pair(unit, 0, to)?;
    put_controls(controls, left, to)
}

/// Appends whole PODs, one after the other.
#[cycle(write)]
fn put_pods(pods: &[Pod], left: u32, to: &mut Items<u8>) -> Result<(), WriteFault>
    ensures ok { OnOk result (to.new ≡ to.old ++ flat_map framed (map form_of pods.now)) }
    ensures told { Tells result (AllByRecursion (Fits left) (map form_of pods.now)) }
    ensures numbers { OnOk result (AllByRecursion (NumbersFit left) pods.now) }
{
    for pod in pods {
        put_pod(pod, left, to)?;
    }
    Ok(())
}

/// Appends one property: key, flags and a whole POD.
#[cycle(write)]
fn put_prop(prop: &Prop, left: u32, to: &mut Items<u8>) -> Result<(), WriteFault>
    ensures ok { OnOk result (to.new ≡ to.old ++ keyed_bytes (keyed_of prop.now)) }
    ensures told { Tells result (Fits left (keyed_of prop.now).value) }
    ensures numbers { OnOk result (PropFits (NumbersFit left) prop.now) }
{
    put_pair(prop.key, prop.flags, to)?;
    put_pod(&prop.value, left, to)
}

/// Appends properties, one after the other.
#[cycle(write)]
fn put_props(props: &[Prop], left: u32, to: &mut Items<u8>) -> Result<(), WriteFault>
    ensures ok { OnOk result (to.new ≡ to.old ++ flat_map keyed_bytes (map keyed_of props.now)) }
    ensures told { Tells result
        (AllByRecursion (λ k. Fits left k.value) (map keyed_of props.now)) }
    ensures numbers { OnOk result (AllByRecursion (PropFits (NumbersFit left)) props.now) }
{
    for prop in props {
        put_prop(prop, left, to)?;
    }
    Ok(())
}

/// Appends one control: offset, kind and a whole POD.
#[cycle(write)]
fn put_control(control: &Control, left: u32, to: &mut Items<u8>) -> Result<(), WriteFault>
    ensures ok { OnOk result (to.new ≡ to.old ++ keyed_bytes (control_keyed control.now)) }
    ensures told { Tells result (Fits left (control_keyed control.now).value) }
    ensures numbers { OnOk result (ControlFits (NumbersFit left) control.now) }
{
    put_pair(control.offset, control.kind, to)?;
    put_pod(&control.value, left, to)
}

/// Appends controls, one after the other.
#[cycle(write)]
fn put_controls(controls: &[Control], left: u32, to: &mut Items<u8>) -> Result<(), WriteFault>
    ensures ok { OnOk result (to.new
        ≡ to.old ++ flat_map keyed_bytes (map control_keyed controls.now)) }
    ensures told { Tells result
        (AllByRecursion (λ k. Fits left k.value) (map control_keyed controls.now)) }
    ensures numbers { OnOk result (AllByRecursion (ControlFits (NumbersFit left)) controls.now) }
{
    for control in controls {
        put_control(control, left, to)?;
    }
    Ok(())
}

/// Appends the canonical spelling of a value: zeros as padding, Bool 0 or 1, the sizes of the table
/// for children, and type 1 with size 0 where there are none of a type. Public source:
/// `spa/pod/pod.h`.
///
/// `Unwritable` is answered just where a value is deeper than 16, the outermost body is longer than
/// 1,048,576 bytes, or an array or choice has a child type that is not allowed there or a value of
/// another type. After a fault `to` is as before. Takes memory for the bytes twice; time linear in
/// them.
pub fn write_pod(alloc: Global, pod: &Pod, to: &mut Items<u8>) -> Result<(), WriteFault>
    ensures ok { OnOk result (to.new ≡ to.old ++ canonical pod.now) }
    ensures told { Tells result (IsWritable pod.now) }
    ensures numbers { OnOk result (NumbersFit depth_limit pod.now) }
    ensures err { OnErr result (to.new ≡ to.old) }
{
    let mut bytes = Items::new(alloc);
    put_pod(pod, MAX_DEPTH, &mut bytes)?;
    to.extend(bytes.as_slice())?;
    Ok(())
}
