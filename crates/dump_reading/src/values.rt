//! The value that lines say.
ghost use Rattle.std.specs.Prelude.{◌≡◌, ℕ, ◌+◌, ◌*◌, ◌≤◌, []};
ghost use Rattle.dump_reading.specs.declared.heads.Head.TheVariants as H;
ghost use Rattle.dump_reading.specs.Answers.{IsAnswer};
ghost use Rattle.dump_reading.specs.working.Keyed.{prop_said, control_said, prop_of, control_of};
ghost use Rattle.dump_reading.specs.working.Lines.{line_said, many};
ghost use Rattle.dump_reading.specs.Values.{held_said, value_line, value_said};

use crate::elements::{elements_said, may_hold};
use crate::fault::{DumpWhy, Stop};
use crate::heads::{Head, head_said};
use crate::lines::{MOST_LEVELS, keyed_said, line_said, stop_at, wrong_words};
use pod_codec::{ChoiceKind, Control, Pod, Prop};
use pw_lists::Items;
use std::alloc::Global;

/// The value at a level, with `left` levels of values left, and the lines after it.
#[cycle(read_dump)]
pub(crate) fn value_said(
    alloc: Global,
    text: &[u8],
    level: usize,
    left: u32,
) -> Result<(Pod, &[u8]), Stop>
    requires { level + 2 * left ≤ 32 }
    ensures { IsAnswer (value_said left level text.now) (λ x. (x.0, x.1.now)) result }
{
    if left == 0 {
        return Err(stop_at(text, DumpWhy::Deep));
    }
    opened_said(alloc, text, level, left - 1)
}

// The same, of a value that is not too deep: `left` levels are left in it.
#[cycle(read_dump)]
fn opened_said(alloc: Global, text: &[u8], level: usize, left: u32) -> Result<(Pod, &[u8]), Stop>
    requires { level + 2 * left ≤ 30 }
    ensures { IsAnswer (value_line (value_said left) level (line_said level text.now))
        (λ x. (x.0, x.1.now)) result }
{
    match line_said(text, level) {
        Err(why) => Err(stop_at(text, why)),
        Ok((words, rest)) => match head_said(alloc, words) {
            Err(_memory) => Err(Stop::Memory),
            Ok(None) => Err(stop_at(text, wrong_words(words))),
            Ok(Some(head)) => held_said(alloc, text.len(), head, rest, level, left),
        },
    }
}

// What a head holds; from its line on, `at` bytes of the text are left.
#[cycle(read_dump)]
fn held_said(
    alloc: Global,
    at: usize,
    head: Head,
    text: &[u8],
    level: usize,
    left: u32,
) -> Result<(Pod, &[u8]), Stop>
    requires { level + 2 * left ≤ 30 }
    ensures { IsAnswer (held_said (value_said left) level head text.now)
        (λ x. (x.0, x.1.now)) result }
{
    match head {
        Head::Leaf(pod) => Ok((pod, text)),
        Head::Array { child, count } => array_said(alloc, at, child, count, text, level),
        Head::Choice {
            kind,
            flags,
            child,
            count,
        } => choice_said(alloc, at, kind, flags, child, count, text, level),
        Head::Struct { count } => struct_said(alloc, count, text, level, left),
        Head::Object { object, id, count } => {
            object_said(alloc, object, id, count, text, level, left)
        }
        Head::Sequence { unit, count } => sequence_said(alloc, unit, count, text, level, left),
    }
}

// The array of a head.
#[tactic(auto, unfolding(crate::specs::Values::held_said))]
fn array_said(
    alloc: Global,
    at: usize,
    child: u32,
    count: u32,
    text: &[u8],
    level: usize,
) -> Result<(Pod, &[u8]), Stop>
    requires { level ≤ 30 }
    ensures { (left : ℕ) → IsAnswer
        (held_said (value_said left) level (H.Array child count) text.now)
        (λ x. (x.0, x.1.now)) result }
{
    if !may_hold(child, count) {
        return Err(Stop::Line {
            left: at,
            why: DumpWhy::Child,
        });
    }
    match elements_said(alloc, text, level + 1, child, count) {
        Err(stop) => Err(stop),
        Ok((values, rest)) => Ok((Pod::Array { child, values }, rest)),
    }
}

// The choice of a head.
#[tactic(auto, unfolding(crate::specs::Values::held_said))]
fn choice_said(
    alloc: Global,
    at: usize,
    kind: ChoiceKind,
    flags: u32,
    child: u32,
    count: u32,
    text: &[u8],
    level: usize,
) -> Result<(Pod, &[u8]), Stop>
    requires { level ≤ 30 }
    ensures { (left : ℕ) → IsAnswer
        (held_said (value_said left) level (H.Choice kind flags child count) text.now)
        (λ x. (x.0, x.1.now)) result }
{
    if !may_hold(child, count) {
        return Err(Stop::Line {
            left: at,
            why: DumpWhy::Child,
        });
    }
    match elements_said(alloc, text, level + 1, child, count) {
        Err(stop) => Err(stop),
        Ok((values, rest)) => Ok((
            Pod::Choice {
                kind,
                flags,
                child,
                values,
            },
            rest,
        )),
    }
}

// The struct of a head.
#[cycle(read_dump)]
#[tactic(auto, unfolding(crate::specs::Values::held_said))]
fn struct_said(
    alloc: Global,
    count: u32,
    text: &[u8],
    level: usize,
    left: u32,
) -> Result<(Pod, &[u8]), Stop>
    requires { level + 2 * left ≤ 30 }
    ensures { IsAnswer (held_said (value_said left) level (H.Struct count) text.now)
        (λ x. (x.0, x.1.now)) result }
{
    match values_said(alloc, count, text, level + 1, left) {
        Err(stop) => Err(stop),
        Ok((fields, rest)) => Ok((Pod::Struct(fields), rest)),
    }
}

// The object of a head.
#[cycle(read_dump)]
#[tactic(auto, unfolding(crate::specs::Values::held_said))]
fn object_said(
    alloc: Global,
    object: u32,
    id: u32,
    count: u32,
    text: &[u8],
    level: usize,
    left: u32,
) -> Result<(Pod, &[u8]), Stop>
    requires { level + 2 * left ≤ 30 }
    ensures { IsAnswer (held_said (value_said left) level (H.Object object id count) text.now)
        (λ x. (x.0, x.1.now)) result }
{
    match props_said(alloc, count, text, level + 1, left) {
        Err(stop) => Err(stop),
        Ok((props, rest)) => Ok((Pod::Object { object, id, props }, rest)),
    }
}

// The sequence of a head.
#[cycle(read_dump)]
#[tactic(auto, unfolding(crate::specs::Values::held_said))]
fn sequence_said(
    alloc: Global,
    unit: u32,
    count: u32,
    text: &[u8],
    level: usize,
    left: u32,
) -> Result<(Pod, &[u8]), Stop>
    requires { level + 2 * left ≤ 30 }
    ensures { IsAnswer (held_said (value_said left) level (H.Sequence unit count) text.now)
        (λ x. (x.0, x.1.now)) result }
{
    match controls_said(alloc, count, text, level + 1, left) {
        Err(stop) => Err(stop),
        Ok((controls, rest)) => Ok((Pod::Sequence { unit, controls }, rest)),
    }
}

// `count` values, and the lines after them.
#[cycle(read_dump)]
fn values_said(
    alloc: Global,
    count: u32,
    text: &[u8],
    level: usize,
    left: u32,
) -> Result<(Items<Pod>, &[u8]), Stop>
    requires { level + 2 * left ≤ 32 }
    ensures { IsAnswer (many (value_said left level) count [] text.now)
        (λ x. (x.0, x.1.now)) result }
{
    let mut values = Items::new(alloc);
    let mut rest = text;
    'values: for _ in 0..count {
        match value_said(alloc, rest, level, left) {
            Err(stop) => return Err(stop),
            Ok((value, after)) => {
                values.push(value)?;
                rest = after;
            }
        }
    }
    Ok((values, rest))
}

// The property of two numbers and a value.
fn prop_of(numbers: (u32, u32), value: Pod) -> Prop
    ensures { result ≡ prop_of numbers value }
{
    Prop {
        key: numbers.0,
        flags: numbers.1,
        value,
    }
}

// A property, and the lines after it.
#[cycle(read_dump)]
#[tactic(auto, unfolding(crate::specs::working::Keyed::prop_said))]
fn prop_said(alloc: Global, text: &[u8], level: usize, left: u32) -> Result<(Prop, &[u8]), Stop>
    requires { level + 2 * left ≤ 31 }
    ensures { IsAnswer (prop_said (value_said left) level text.now) (λ x. (x.0, x.1.now)) result }
{
    match keyed_said(b"prop".as_slice(), text, level) {
        Err(why) => Err(stop_at(text, why)),
        Ok((numbers, rest)) => match value_said(alloc, rest, level + 1, left) {
            Err(stop) => Err(stop),
            Ok((value, after)) => Ok((prop_of(numbers, value), after)),
        },
    }
}

// `count` properties, and the lines after them.
#[cycle(read_dump)]
fn props_said(
    alloc: Global,
    count: u32,
    text: &[u8],
    level: usize,
    left: u32,
) -> Result<(Items<Prop>, &[u8]), Stop>
    requires { level + 2 * left ≤ 31 }
    ensures { IsAnswer (many (prop_said (value_said left) level) count [] text.now)
        (λ x. (x.0, x.1.now)) result }
{
    let mut props = Items::new(alloc);
    let mut rest = text;
    'props: for _ in 0..count {
        match prop_said(alloc, rest, level, left) {
            Err(stop) => return Err(stop),
            Ok((prop, after)) => {
                props.push(prop)?;
                rest = after;
            }
        }
    }
    Ok((props, rest))
}

// The control of two numbers and a value.
fn control_of(numbers: (u32, u32), value: Pod) -> Control
    ensures { result ≡ control_of numbers value }
{
    Control {
        offset: numbers.0,
        kind: numbers.1,
        value,
    }
}

// A control, and the lines after it.
#[cycle(read_dump)]
#[tactic(auto, unfolding(crate::specs::working::Keyed::control_said))]
fn control_said(
    alloc: Global,
    text: &[u8],
    level: usize,
    left: u32,
) -> Result<(Control, &[u8]), Stop>
    requires { level + 2 * left ≤ 31 }
    ensures { IsAnswer (control_said (value_said left) level text.now)
        (λ x. (x.0, x.1.now)) result }
{
    match keyed_said(b"control".as_slice(), text, level) {
        Err(why) => Err(stop_at(text, why)),
        Ok((numbers, rest)) => match value_said(alloc, rest, level + 1, left) {
            Err(stop) => Err(stop),
            Ok((value, after)) => Ok((control_of(numbers, value), after)),
        },
    }
}

// `count` controls, and the lines after them.
#[cycle(read_dump)]
fn controls_said(
    alloc: Global,
    count: u32,
    text: &[u8],
    level: usize,
    left: u32,
) -> Result<(Items<Control>, &[u8]), Stop>
    requires { level + 2 * left ≤ 31 }
    ensures { IsAnswer (many (control_said (value_said left) level) count [] text.now)
        (λ x. (x.0, x.1.now)) result }
{
    let mut controls = Items::new(alloc);
    let mut rest = text;
    'controls: for _ in 0..count {
        match control_said(alloc, rest, level, left) {
            Err(stop) => return Err(stop),
            Ok((control, after)) => {
                controls.push(control)?;
                rest = after;
            }
        }
    }
    Ok((controls, rest))
}
