//! What pairs of choices at the edges have in common, and what is filtered and refused of formats.
ghost use Rattle.std.specs.Prelude.{◌≡◌, length, IfOk};
ghost use Rattle.std.specs.List.{All};
ghost use Rattle.pod_codec.specs.SoundChoices.{IsOfType, HasSoundChoices};
ghost use Rattle.format_filter.specs.Soundness.{IsSound};
ghost use Rattle.format_filter.specs.FormatWriting.{type_of_wide};
ghost use Rattle.format_filter.specs.CommonFormat.{IsSoundFormat};

use format_filter::{
    Choice, Filtered, Format, FormatFault, Wide, filter, fixate, format_of, meet, pod_of,
};
use pod_codec::{ChoiceKind, Pod, Prop, read_pod, write_pod};
use pw_lists::{Items, Memory};
use std::alloc::Global;
use std::test::Fail;

/// A choice by its kind, its type and its values.
type Given = (ChoiceKind, Wide, &'static [i64]);

/// A number as a value; one that is no Int is 0.
fn value(wide: Wide, n: i64) -> Pod
    ensures { IsOfType (type_of_wide wide) result }
{
    match wide {
        Wide::Int => Pod::Int(i32::try_from(n).unwrap_or(0)),
        Wide::Long => Pod::Long(n),
    }
}

/// Numbers as values.
fn values(alloc: Global, wide: Wide, numbers: &[i64]) -> Result<Items<Pod>, Memory>
    ensures { IfOk result (All (IsOfType (type_of_wide wide))) }
{
    let mut all = Items::new(alloc);
    for n in numbers {
        all.push(value(wide, *n))?;
    }
    Ok(all)
}

/// A format whose property 7 is a choice of these values.
fn one_property(alloc: Global, given: Given) -> Result<Pod, Memory>
    ensures { IfOk result HasSoundChoices }
{
    let (kind, wide, numbers) = given;
    let child = match wide {
        Wide::Int => 4,
        Wide::Long => 5,
    };
    let value = Pod::Choice {
        kind,
        flags: 0,
        child,
        values: values(alloc, wide, numbers)?,
    };
    let mut props = Items::new(alloc);
    props.push(Prop {
        key: 7,
        flags: 0,
        value,
    })?;
    Ok(Pod::Object {
        object: 262147,
        id: 3,
        props,
    })
}

/// The choice that is read from these values.
fn given(alloc: Global, given: Given) -> Result<Choice, FormatFault>
    ensures { IfOk result IsSound }
{
    let format = format_of(alloc, &one_property(alloc, given)?)?;
    match format.fields.as_slice() {
        [field] => Ok(field.choice.copy(alloc)?),
        _ => Err(FormatFault::NotObject),
    }
}

/// The number of a value.
fn number_in(value: &Pod) -> i64 {
    match value {
        Pod::Int(n) => i64::from(*n),
        Pod::Long(n) => *n,
        _ => -1,
    }
}

/// The kind of a choice, its pick, and its first number, its last one and its step, or how many
/// they are.
fn told(choice: &Choice) -> [i64; 5] {
    match choice {
        Choice::Only(value) => [1, number_in(value), 0, 0, 0],
        Choice::Range { pick, min, max, .. } => [2, *pick, *min, *max, 0],
        Choice::Step {
            pick,
            min,
            max,
            step,
            ..
        } => [3, *pick, *min, *max, *step],
        Choice::Enum { pick, alts } => match (alts.as_slice().first(), alts.as_slice().last()) {
            (Some(first), Some(last)) => [
                4,
                number_in(pick),
                number_in(first),
                number_in(last),
                alts.len() as i64,
            ],
            _ => [0; 5],
        },
    }
}

/// The intersection of two choices, of which the first is copied, as a row.
fn met(alloc: Global, a: Given, b: Given) -> Result<[i64; 5], FormatFault> {
    let a = given(alloc, a)?.copy(alloc)?;
    let b = given(alloc, b)?;
    match meet(alloc, &a, &b)? {
        Some(choice) => Ok(told(&choice)),
        None => Ok([0; 5]),
    }
}

/// Two choices, and what they have in common.
type Pair = (Given, Given, [i64; 5]);

const INT: Wide = Wide::Int;

const LONG: Wide = Wide::Long;

const ONLY: ChoiceKind = ChoiceKind::None;

const RANGE: ChoiceKind = ChoiceKind::Range;

const STEP: ChoiceKind = ChoiceKind::Step;

const ENUM: ChoiceKind = ChoiceKind::Enum;

const LEAST: i64 = i64::MIN;

const MOST: i64 = i64::MAX;

/// Steps meet in their residues.
const STEPS: [Pair; 5] = [
    (
        (STEP, INT, &[0, 0, 100, 4]),
        (STEP, INT, &[8, 2, 100, 6]),
        [3, 8, 8, 92, 12],
    ),
    (
        (STEP, INT, &[0, 0, 100, 4]),
        (STEP, INT, &[1, 1, 99, 2]),
        [0; 5],
    ),
    (
        (STEP, INT, &[-7, -7, 20, 3]),
        (STEP, INT, &[-10, -10, 20, 5]),
        [4, 5, 5, 20, 2],
    ),
    (
        (STEP, INT, &[-9, -9, 0, 2]),
        (STEP, INT, &[-8, -8, 1, 3]),
        [1, -5, 0, 0, 0],
    ),
    (
        (STEP, INT, &[3, 3, 9, 3]),
        (STEP, INT, &[7, 1, 9, 2]),
        [4, 3, 3, 9, 2],
    ),
];

/// Ranges meet in their overlap.
const RANGES: [Pair; 5] = [
    (
        (RANGE, INT, &[5, 0, 9]),
        (RANGE, INT, &[7, 4, 20]),
        [2, 5, 4, 9, 0],
    ),
    (
        (RANGE, INT, &[2, 0, 9]),
        (RANGE, INT, &[7, 4, 20]),
        [2, 7, 4, 9, 0],
    ),
    (
        (RANGE, INT, &[2, 0, 9]),
        (RANGE, INT, &[17, 4, 20]),
        [2, 4, 4, 9, 0],
    ),
    (
        (RANGE, INT, &[2, 0, 9]),
        (RANGE, INT, &[9, 9, 20]),
        [1, 9, 0, 0, 0],
    ),
    (
        (RANGE, INT, &[2, 0, 9]),
        (RANGE, INT, &[10, 10, 20]),
        [0; 5],
    ),
];

/// Ranges meet steps.
const RANGES_AND_STEPS: [Pair; 4] = [
    (
        (RANGE, INT, &[5, -5, 25]),
        (STEP, INT, &[-10, -10, 100, 10]),
        [3, 0, 0, 20, 10],
    ),
    (
        (STEP, INT, &[-10, -10, 100, 10]),
        (RANGE, INT, &[20, 11, 30]),
        [4, 20, 20, 30, 2],
    ),
    (
        (RANGE, INT, &[11, 11, 19]),
        (STEP, INT, &[-10, -10, 100, 10]),
        [0; 5],
    ),
    (
        (RANGE, INT, &[7, 0, 9]),
        (STEP, INT, &[4, 4, 20, 1]),
        [3, 7, 4, 9, 1],
    ),
];

/// Values meet in their order.
const VALUES: [Pair; 6] = [
    (
        (RANGE, INT, &[48000, 44100, 96000]),
        (ENUM, INT, &[44100, 44100, 48000]),
        [4, 48000, 44100, 48000, 2],
    ),
    ((ENUM, INT, &[5]), (RANGE, INT, &[1, 1, 9]), [1, 5, 0, 0, 0]),
    (
        (ENUM, INT, &[9, 3, 5, 3, 9, 5]),
        (RANGE, INT, &[4, 3, 9]),
        [4, 9, 3, 9, 3],
    ),
    (
        (ENUM, INT, &[8, 3, 5]),
        (ENUM, INT, &[7, 5, 3]),
        [4, 3, 3, 5, 2],
    ),
    (
        (ENUM, INT, &[1, 1, 5, 3]),
        (STEP, INT, &[3, 1, 9, 2]),
        [4, 1, 1, 3, 3],
    ),
    (
        (STEP, INT, &[3, 1, 9, 2]),
        (ENUM, INT, &[4, 4, 7, 1]),
        [4, 7, 7, 1, 2],
    ),
];

/// One value meets itself at most.
const ONE_VALUE: [Pair; 3] = [
    ((ONLY, INT, &[6]), (RANGE, INT, &[1, 1, 9]), [1, 6, 0, 0, 0]),
    ((ONLY, INT, &[6]), (STEP, INT, &[1, 1, 9, 2]), [0; 5]),
    ((ONLY, LONG, &[6]), (ONLY, LONG, &[6]), [1, 6, 0, 0, 0]),
];

/// Numbers of other types do not meet.
const OTHER_TYPES: [Pair; 3] = [
    (
        (STEP, INT, &[0, 0, 9, 3]),
        (STEP, LONG, &[0, 0, 9, 3]),
        [0; 5],
    ),
    ((RANGE, INT, &[0, 0, 9]), (RANGE, LONG, &[0, 0, 9]), [0; 5]),
    ((RANGE, LONG, &[1, 1, 9]), (ONLY, INT, &[6]), [0; 5]),
];

/// Numbers meet at the ends of their type.
const ENDS: [Pair; 5] = [
    (
        (STEP, LONG, &[LEAST, LEAST, MOST, MOST]),
        (STEP, LONG, &[LEAST, LEAST, MOST, 1]),
        [3, LEAST, LEAST, MOST - 1, MOST],
    ),
    (
        (STEP, LONG, &[LEAST, LEAST, MOST, MOST]),
        (STEP, LONG, &[0, LEAST, MOST, MOST - 1]),
        [1, LEAST, 0, 0, 0],
    ),
    (
        (STEP, LONG, &[1, 1, MOST, 2]),
        (STEP, LONG, &[0, 0, MOST, 5]),
        [3, 5, 5, MOST - 2, 10],
    ),
    (
        (RANGE, LONG, &[0, LEAST, MOST]),
        (RANGE, LONG, &[MOST, MOST, MOST]),
        [1, MOST, 0, 0, 0],
    ),
    (
        (RANGE, LONG, &[0, LEAST, MOST]),
        (STEP, LONG, &[LEAST, LEAST, MOST, MOST]),
        [3, LEAST, LEAST, MOST - 1, MOST],
    ),
];

/// The tables of pairs, and what each shows.
const PAIRS: [(&str, &[Pair]); 7] = [
    ("steps meet in their residues", &STEPS),
    ("ranges meet in their overlap", &RANGES),
    ("ranges meet steps", &RANGES_AND_STEPS),
    ("values meet in their order", &VALUES),
    ("one value meets itself at most", &ONE_VALUE),
    ("numbers of other types do not meet", &OTHER_TYPES),
    ("numbers meet at the ends of their type", &ENDS),
];

#[test]
fn choices_meet_in_what_they_have_in_common(rt: HostRuntime) -> Result<(), Fail> {
    for (title, pairs) in PAIRS {
        for (row, (a, b, want)) in pairs.iter().enumerate() {
            let found = met(rt.alloc(), *a, *b)?;
            assert_eq!(rt; found, *want, "{title}: row {row}");
        }
    }
    Ok(())
}

/// A rate from 44100 to 96000, with the default 48000.
const FROM_44100: [u8; 64] = [
    0x38, 0, 0, 0, 0x0f, 0, 0, 0, 3, 0, 4, 0, 3, 0, 0, 0, 3, 0, 1, 0, 0, 0, 0, 0, //
    0x1c, 0, 0, 0, 0x13, 0, 0, 0, 1, 0, 0, 0, 0, 0, 0, 0, 4, 0, 0, 0, 4, 0, 0, 0, //
    0x80, 0xbb, 0, 0, 0x44, 0xac, 0, 0, 0, 0x77, 1, 0, 0, 0, 0, 0,
];

/// The rates 44100 and 48000, with the default 44100.
const TWO_RATES: [u8; 64] = [
    0x38, 0, 0, 0, 0x0f, 0, 0, 0, 3, 0, 4, 0, 3, 0, 0, 0, 3, 0, 1, 0, 0, 0, 0, 0, //
    0x1c, 0, 0, 0, 0x13, 0, 0, 0, 3, 0, 0, 0, 0, 0, 0, 0, 4, 0, 0, 0, 4, 0, 0, 0, //
    0x44, 0xac, 0, 0, 0x44, 0xac, 0, 0, 0x80, 0xbb, 0, 0, 0, 0, 0, 0,
];

/// What both have in common, with the default 48000.
const COMMON: [u8; 64] = [
    0x38, 0, 0, 0, 0x0f, 0, 0, 0, 3, 0, 4, 0, 3, 0, 0, 0, 3, 0, 1, 0, 0, 0, 0, 0, //
    0x1c, 0, 0, 0, 0x13, 0, 0, 0, 3, 0, 0, 0, 0, 0, 0, 0, 4, 0, 0, 0, 4, 0, 0, 0, //
    0x80, 0xbb, 0, 0, 0x44, 0xac, 0, 0, 0x80, 0xbb, 0, 0, 0, 0, 0, 0,
];

/// The format with the rate 48000.
const FIXED: [u8; 40] = [
    0x20, 0, 0, 0, 0x0f, 0, 0, 0, 3, 0, 4, 0, 4, 0, 0, 0, 3, 0, 1, 0, 0, 0, 0, 0, //
    4, 0, 0, 0, 4, 0, 0, 0, 0x80, 0xbb, 0, 0, 0, 0, 0, 0,
];

/// Props with the rate 48000.
const PROPS: [u8; 40] = [
    0x20, 0, 0, 0, 0x0f, 0, 0, 0, 2, 0, 4, 0, 3, 0, 0, 0, 3, 0, 1, 0, 0, 0, 0, 0, //
    4, 0, 0, 0, 4, 0, 0, 0, 0x80, 0xbb, 0, 0, 0, 0, 0, 0,
];

/// A position, key 65541, that is mandatory.
const MANDATORY: [u8; 40] = [
    0x20, 0, 0, 0, 0x0f, 0, 0, 0, 3, 0, 4, 0, 3, 0, 0, 0, 5, 0, 1, 0, 8, 0, 0, 0, //
    4, 0, 0, 0, 4, 0, 0, 0, 1, 0, 0, 0, 0, 0, 0, 0,
];

/// The format that bytes spell.
fn read(alloc: Global, bytes: &[u8]) -> Result<Format, Fail>
    ensures { IfOk result IsSoundFormat }
{
    let (pod, _length) = read_pod(alloc, bytes)?;
    Ok(format_of(alloc, &pod)?)
}

/// The bytes that spell a format.
fn written(alloc: Global, format: &Format) -> Result<Items<u8>, Fail>
    requires { IsSoundFormat format.now }
{
    let mut bytes = Items::new(alloc);
    write_pod(alloc, &pod_of(alloc, format)?, &mut bytes)?;
    Ok(bytes)
}

/// The common format of two that bytes spell, of which the first is copied, spelled, and its
/// fixation; the key where they clash.
fn both(alloc: Global, a: &[u8], b: &[u8]) -> Result<(Items<u8>, Items<u8>), Fail> {
    let a = read(alloc, a)?.copy(alloc)?;
    let b = read(alloc, b)?;
    match filter(alloc, &a, &b)? {
        Filtered::Common(format) => Ok((
            written(alloc, &format)?,
            written(alloc, &fixate(alloc, &format)?)?,
        )),
        Filtered::Clash { key } => Ok((
            Items::filled(alloc, 1, (key % 256) as u8)?,
            Items::new(alloc),
        )),
        Filtered::Types => Ok((Items::new(alloc), Items::new(alloc))),
    }
}

#[test]
fn the_filter_spells_the_common_format(rt: HostRuntime) -> Result<(), Fail> {
    let (common, fixed) = both(rt.alloc(), &FROM_44100, &TWO_RATES)?;
    assert!(rt; common.as_slice() == COMMON.as_slice() && fixed.as_slice() == FIXED.as_slice());
    Ok(())
}

#[test]
fn formats_clash_at_a_key_or_by_their_type(rt: HostRuntime) -> Result<(), Fail> {
    // Two formats, and the key where they clash, nothing for other types, or what both have in common.
    for (a, b, want) in [
        (MANDATORY, FIXED, [5].as_slice()),
        (FIXED, MANDATORY, [5].as_slice()),
        (FIXED, PROPS, [].as_slice()),
        (FIXED, FIXED, FIXED.as_slice()),
    ] {
        let (common, _fixed) = both(rt.alloc(), &a, &b)?;
        assert!(rt; common.as_slice() == want, "{a:?} {b:?}");
    }
    Ok(())
}

/// The number of the fault of values, 0 where they make a choice.
fn fault_of(alloc: Global, values: Given) -> u8 {
    match given(alloc, values) {
        Ok(_choice) => 0,
        Err(fault) => fault.number(),
    }
}

#[test]
fn values_at_fault_are_refused_by_cause(rt: HostRuntime) {
    // The kind of a choice, its Ints, and the number of their fault.
    for (kind, numbers, number) in [
        (ChoiceKind::Flags, [1, 2].as_slice(), 3),
        (RANGE, [1, 2].as_slice(), 4),
        (RANGE, [1, 3, 2].as_slice(), 4),
        (STEP, [1, 1, 9].as_slice(), 5),
        (STEP, [1, 1, 9, 0].as_slice(), 5),
        (ChoiceKind::Flags, [].as_slice(), 6),
    ] {
        let found = fault_of(rt.alloc(), (kind, INT, numbers));
        assert_eq!(rt; found, number, "{numbers:?}");
    }
}
