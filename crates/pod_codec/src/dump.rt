//! The text of a value.
ghost use Rattle.std.specs.Prelude.{◌≡◌, [], ◌∷◌, ◌*◌, ◌++◌, map, replicate, length, codes, OnOk, IfOk};
ghost use Rattle.std.specs.List.{flat_map};
ghost use Rattle.pod_codec.specs.DumpWords.{Lines, text_at, numbered, two_numbered, kind_word};
ghost use Rattle.pod_codec.specs.DumpText.{lines_of, prop_lines_of, control_lines_of, dump_text_of};

use crate::pod::{ChoiceKind, Control, Pod, Prop};
use crate::text::{put_hex, put_number, put_numbers, put_quoted, put_quoted_hex, put_signed};
use pw_lists::{Items, Memory, Text};
use std::alloc::Global;

/// The word of a kind of choice.
fn word_of(kind: ChoiceKind) -> &'static [u8]
    ensures { result.now ≡ kind_word kind }
{
    match kind {
        ChoiceKind::None => b"none".as_slice(),
        ChoiceKind::Range => b"range".as_slice(),
        ChoiceKind::Step => b"step".as_slice(),
        ChoiceKind::Enum => b"enum".as_slice(),
        ChoiceKind::Flags => b"flags".as_slice(),
    }
}

/// Appends the words of an object or a choice after the first: two numbers and a count.
fn put_counted(word: &[u8], n: u32, m: u32, count: usize, text: &mut Text) -> Result<(), Memory>
    ensures { OnOk result (text.new ≡ text.old ++
        (two_numbered word.now n (codes " ") m ++ numbered (codes " ") count)) }
{
    put_numbers(word, u64::from(n), b" ".as_slice(), u64::from(m), text)?;
    put_number(b" ".as_slice(), count as u64, text)
}

/// Appends the words of a rectangle.
fn put_rectangle(width: u32, height: u32, text: &mut Text) -> Result<(), Memory>
    ensures { OnOk result (text.new
        ≡ text.old ++ two_numbered (codes "rectangle ") width (codes "x") height) }
{
    put_numbers(
        b"rectangle ".as_slice(),
        u64::from(width),
        b"x".as_slice(),
        u64::from(height),
        text,
    )
}

/// Appends the words of an array.
fn put_array(child: u32, values: &[Pod], text: &mut Text) -> Result<(), Memory>
    ensures { OnOk result (text.new ≡ text.old ++ two_numbered (codes "array ") child (codes " ")
        (length (map lines_of values.now))) }
{
    put_numbers(
        b"array ".as_slice(),
        u64::from(child),
        b" ".as_slice(),
        values.len() as u64,
        text,
    )
}

/// Appends the words of a struct.
fn put_struct(fields: &[Pod], text: &mut Text) -> Result<(), Memory>
    ensures { OnOk result (text.new ≡ text.old ++ numbered (codes "struct ")
        (length (map lines_of fields.now))) }
{
    put_number(b"struct ".as_slice(), fields.len() as u64, text)
}

/// Appends the words of an object.
fn put_object(object: u32, id: u32, props: &[Prop], text: &mut Text) -> Result<(), Memory>
    ensures { OnOk result (text.new ≡ text.old ++
        (two_numbered (codes "object ") object (codes " ") id ++ numbered (codes " ")
        (length (map prop_lines_of props.now)))) }
{
    put_counted(b"object ".as_slice(), object, id, props.len(), text)
}

/// Appends the words of a choice.
fn put_choice(
    kind: ChoiceKind,
    flags: u32,
    child: u32,
    values: &[Pod],
    text: &mut Text,
) -> Result<(), Memory>
    ensures { OnOk result (text.new ≡ text.old ++
        ((codes "choice " ++ kind_word kind) ++
        (two_numbered (codes " ") flags (codes " ") child ++ numbered (codes " ")
        (length (map lines_of values.now))))) }
{
    text.extend(b"choice ".as_slice())?;
    text.extend(word_of(kind))?;
    put_counted(b" ".as_slice(), flags, child, values.len(), text)
}

/// Appends the words of a sequence.
fn put_sequence(unit: u32, controls: &[Control], text: &mut Text) -> Result<(), Memory>
    ensures { OnOk result (text.new
        ≡ text.old ++ two_numbered (codes "sequence ") unit (codes " ")
        (length (map control_lines_of controls.now))) }
{
    put_numbers(
        b"sequence ".as_slice(),
        u64::from(unit),
        b" ".as_slice(),
        controls.len() as u64,
        text,
    )
}

/// Appends the words of a value.
fn put_head(pod: &Pod, text: &mut Text) -> Result<(), Memory>
    ensures { OnOk result (text.new ≡ text.old ++ (lines_of pod.now).head) }
{
    match pod {
        Pod::None => text.extend(b"none".as_slice()),
        Pod::Bool(true) => text.extend(b"bool true".as_slice()),
        Pod::Bool(false) => text.extend(b"bool false".as_slice()),
        Pod::Id(n) => put_number(b"id ".as_slice(), u64::from(*n), text),
        Pod::Int(n) => put_signed(b"int ".as_slice(), i64::from(*n), text),
        Pod::Long(n) => put_signed(b"long ".as_slice(), *n, text),
        Pod::FloatBits(n) => put_hex(b"float ".as_slice(), &n.to_be_bytes(), text),
        Pod::DoubleBits(n) => put_hex(b"double ".as_slice(), &n.to_be_bytes(), text),
        Pod::Text(bytes) => put_quoted(b"string \"".as_slice(), bytes.as_slice(), text),
        Pod::Bytes(bytes) => put_quoted_hex(b"bytes \"".as_slice(), bytes.as_slice(), text),
        Pod::Rectangle { width, height } => put_rectangle(*width, *height, text),
        Pod::Fraction { num, denom } => put_numbers(
            b"fraction ".as_slice(),
            u64::from(*num),
            b"/".as_slice(),
            u64::from(*denom),
            text,
        ),
        Pod::Bitmap(bytes) => put_quoted_hex(b"bitmap \"".as_slice(), bytes.as_slice(), text),
        Pod::Fd(n) => put_signed(b"fd ".as_slice(), *n, text),
        Pod::Array { child, values } => put_array(*child, values.as_slice(), text),
        Pod::Struct(fields) => put_struct(fields.as_slice(), text),
        Pod::Object { object, id, props } => put_object(*object, *id, props.as_slice(), text),
        Pod::Choice {
            kind,
            flags,
            child,
            values,
        } => put_choice(*kind, *flags, *child, values.as_slice(), text),
        Pod::Sequence { unit, controls } => put_sequence(*unit, controls.as_slice(), text),
    }
}

/// Appends the indent of a level; `Memory` for a level that no text can have.
fn put_indent(level: usize, text: &mut Text) -> Result<(), Memory>
    ensures { OnOk result (text.new ≡ text.old ++ replicate (2 * level) 32) }
{
    let Some(spaces) = level.checked_mul(2) else {
        return Err(Memory);
    };
    text.extend_filled(spaces, b' ')
}

/// Appends the line of a value, and those of what it holds.
#[cycle(dump)]
fn put_pod(pod: &Pod, level: usize, text: &mut Text) -> Result<(), Memory>
    ensures { OnOk result (text.new ≡ text.old ++ text_at level (lines_of pod.now)) }
{
    let Some(deeper) = level.checked_add(1) else {
        return Err(Memory);
    };
    put_indent(level, text)?;
    put_head(pod, text)?;
    text.extend(b"\n".as_slice())?;
    match pod {
        Pod::Array { values, .. } => put_pods(values.as_slice(), deeper, text),
        Pod::Choice { values, .. } => put_pods(values.as_slice(), deeper, text),
        Pod::Struct(fields) => put_pods(fields.as_slice(), deeper, text),
        Pod::Object { props, .. } => put_props(props.as_slice(), deeper, text),
        Pod::Sequence { controls, .. } => put_controls(controls.as_slice(), deeper, text),
        _ => Ok(()),
    }
}

/// Appends the lines of values.
#[cycle(dump)]
fn put_pods(pods: &[Pod], level: usize, text: &mut Text) -> Result<(), Memory>
    ensures { OnOk result (text.new
        ≡ text.old ++ flat_map (text_at level) (map lines_of pods.now)) }
{
    for pod in pods {
        put_pod(pod, level, text)?;
    }
    Ok(())
}

/// Appends the line of a property, and the value one level deeper.
#[cycle(dump)]
fn put_prop(prop: &Prop, level: usize, text: &mut Text) -> Result<(), Memory>
    ensures { OnOk result (text.new ≡ text.old ++ text_at level (prop_lines_of prop.now)) }
{
    let Some(deeper) = level.checked_add(1) else {
        return Err(Memory);
    };
    put_indent(level, text)?;
    put_numbers(
        b"prop ".as_slice(),
        u64::from(prop.key),
        b" ".as_slice(),
        u64::from(prop.flags),
        text,
    )?;
    text.extend(b"\n".as_slice())?;
    put_pod(&prop.value, deeper, text)
}

/// Appends the lines of properties.
#[cycle(dump)]
fn put_props(props: &[Prop], level: usize, text: &mut Text) -> Result<(), Memory>
    ensures { OnOk result (text.new
        ≡ text.old ++ flat_map (text_at level) (map prop_lines_of props.now)) }
{
    for prop in props {
        put_prop(prop, level, text)?;
    }
    Ok(())
}

/// Appends the line of a control, and the value one level deeper.
#[cycle(dump)]
fn put_control(control: &Control, level: usize, text: &mut Text) -> Result<(), Memory>
    ensures { OnOk result (text.new ≡ text.old ++ text_at level (control_lines_of control.now)) }
{
    let Some(deeper) = level.checked_add(1) else {
        return Err(Memory);
    };
    put_indent(level, text)?;
    put_numbers(
        b"control ".as_slice(),
        u64::from(control.offset),
        b" ".as_slice(),
        u64::from(control.kind),
        text,
    )?;
    text.extend(b"\n".as_slice())?;
    put_pod(&control.value, deeper, text)
}

/// Appends the lines of controls.
#[cycle(dump)]
fn put_controls(controls: &[Control], level: usize, text: &mut Text) -> Result<(), Memory>
    ensures { OnOk result (text.new ≡ text.old ++ flat_map (text_at level)
        (map control_lines_of controls.now)) }
{
    for control in controls {
        put_control(control, level, text)?;
    }
    Ok(())
}

/// The text of a value: one value a line, two spaces of indent a level, each line ended by byte
/// 0x0A.
/// What a container holds is one level deeper; a property or control has a line of its own, and
/// its value is under it. Numbers are plain decimal, and bits and bytes lower-case hexadecimal
/// digits.
pub fn dump_text(alloc: Global, pod: &Pod) -> Result<Text, Memory>
    ensures { IfOk result (λ text. text ≡ dump_text_of pod.now) }
{
    let mut text = Items::new(alloc);
    put_pod(pod, 0, &mut text)?;
    Ok(text)
}
