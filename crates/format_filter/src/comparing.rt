//! Equality of PODs: floats by their bits, everything else by what it holds.
ghost use Rattle.std.specs.Prelude.{◌≡◌, ◌↔◌, IsTrue};
ghost use Rattle.pod_codec.specs.declared.pod.Pod.TheVariants as p;

use crate::leaves::{
    is_bitmap, is_bool, is_bytes, is_double, is_fd, is_float, is_fraction, is_id, is_int, is_long,
    is_none, is_rectangle, is_text,
};
use pod_codec::{ChoiceKind, Control, Pod, Prop};

/// Whether two values are equal: of one type, and with equal contents.
#[cycle(equal)]
pub fn is_equal(a: &Pod, b: &Pod) -> bool
    ensures { IsTrue result ↔ (a.now ≡ b.now) }
{
    match a {
        Pod::None => is_none(b),
        Pod::Bool(set) => is_bool(*set, b),
        Pod::Id(id) => is_id(*id, b),
        Pod::Int(n) => is_int(*n, b),
        Pod::Long(n) => is_long(*n, b),
        Pod::FloatBits(bits) => is_float(*bits, b),
        Pod::DoubleBits(bits) => is_double(*bits, b),
        Pod::Text(text) => is_text(text.as_slice(), b),
        Pod::Bytes(bytes) => is_bytes(bytes.as_slice(), b),
        Pod::Rectangle { width, height } => is_rectangle(*width, *height, b),
        Pod::Fraction { num, denom } => is_fraction(*num, *denom, b),
        Pod::Bitmap(bits) => is_bitmap(bits.as_slice(), b),
        Pod::Fd(fd) => is_fd(*fd, b),
        Pod::Array { child, values } => is_array(*child, values.as_slice(), b),
        Pod::Struct(fields) => is_struct(fields.as_slice(), b),
        Pod::Object { object, id, props } => is_object(*object, *id, props.as_slice(), b),
        Pod::Choice {
            kind,
            flags,
            child,
            values,
        } => is_choice(*kind, *flags, *child, values.as_slice(), b),
        Pod::Sequence { unit, controls } => is_sequence(*unit, controls.as_slice(), b),
    }
}

/// Whether a value is the array of these values, of this type.
#[cycle(equal)]
fn is_array(child: u32, values: &[Pod], value: &Pod) -> bool
    ensures { IsTrue result ↔ (value.now ≡ p.Array child values.now) }
{
    match value {
        Pod::Array {
            child: other,
            values: others,
        } => *other == child && are_equal(values, others.as_slice()),
        _ => false,
    }
}

/// Whether a value is the struct of these fields.
#[cycle(equal)]
fn is_struct(fields: &[Pod], value: &Pod) -> bool
    ensures { IsTrue result ↔ (value.now ≡ p.Struct fields.now) }
{
    match value {
        Pod::Struct(others) => are_equal(fields, others.as_slice()),
        _ => false,
    }
}

/// Whether a value is the object of this type and id, with these properties.
#[cycle(equal)]
fn is_object(object: u32, id: u32, props: &[Prop], value: &Pod) -> bool
    ensures { IsTrue result ↔ (value.now ≡ p.Object object id props.now) }
{
    match value {
        Pod::Object {
            object: other,
            id: name,
            props: others,
        } => *other == object && *name == id && are_equal_props(props, others.as_slice()),
        _ => false,
    }
}

/// Whether a value is the choice of this kind, these flags and these values, of this type.
#[cycle(equal)]
fn is_choice(kind: ChoiceKind, flags: u32, child: u32, values: &[Pod], value: &Pod) -> bool
    ensures { IsTrue result ↔ (value.now ≡ p.Choice kind flags child values.now) }
{
    match value {
        Pod::Choice {
            kind: way,
            flags: bits,
            child: other,
            values: others,
        } => {
            *way == kind
                && *bits == flags
                && *other == child
                && are_equal(values, others.as_slice())
        }
        _ => false,
    }
}

/// Whether a value is the sequence of these controls, in this unit.
#[cycle(equal)]
fn is_sequence(unit: u32, controls: &[Control], value: &Pod) -> bool
    ensures { IsTrue result ↔ (value.now ≡ p.Sequence unit controls.now) }
{
    match value {
        Pod::Sequence {
            unit: other,
            controls: others,
        } => *other == unit && are_equal_controls(controls, others.as_slice()),
        _ => false,
    }
}

/// Whether two rows of values are equal.
#[cycle(equal)]
fn are_equal(a: &[Pod], b: &[Pod]) -> bool
    ensures { IsTrue result ↔ (a.now ≡ b.now) }
{
    if a.len() != b.len() {
        return false;
    }
    for i in 0..a.len() {
        if !is_equal(&a[i], &b[i]) {
            return false;
        }
    }
    true
}

/// Whether two rows of properties are equal.
#[cycle(equal)]
fn are_equal_props(a: &[Prop], b: &[Prop]) -> bool
    ensures { IsTrue result ↔ (a.now ≡ b.now) }
{
    if a.len() != b.len() {
        return false;
    }
    for i in 0..a.len() {
        let (one, other) = (&a[i], &b[i]);
        if one.key != other.key || one.flags != other.flags || !is_equal(&one.value, &other.value) {
            return false;
        }
    }
    true
}

/// Whether two rows of controls are equal.
#[cycle(equal)]
fn are_equal_controls(a: &[Control], b: &[Control]) -> bool
    ensures { IsTrue result ↔ (a.now ≡ b.now) }
{
    if a.len() != b.len() {
        return false;
    }
    for i in 0..a.len() {
        let (one, other) = (&a[i], &b[i]);
        if one.offset != other.offset
            || one.kind != other.kind
            || !is_equal(&one.value, &other.value)
        {
            return false;
        }
    }
    true
}
