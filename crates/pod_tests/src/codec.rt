//! What is read, written and dumped of values of each type, and each fault at its place.

use pod_codec::{ChoiceKind, Pod, PodFault, WriteFault, dump_text, read_pod, write_pod};
use pw_lists::{Items, Memory};
use std::alloc::Global;
use std::process::Abort;
use std::test::Fail;

/// The Int 5.
const INT: [u8; 16] = [4, 0, 0, 0, 4, 0, 0, 0, 5, 0, 0, 0, 0, 0, 0, 0];

/// The Int 5, with other padding.
const PADDED: [u8; 16] = [4, 0, 0, 0, 4, 0, 0, 0, 5, 0, 0, 0, 255, 255, 255, 255];

/// A format with the rate 48000.
const RATE: [u8; 40] = [
    0x20, 0, 0, 0, 0x0f, 0, 0, 0, 3, 0, 4, 0, 3, 0, 0, 0, 3, 0, 1, 0, 0, 0, 0, 0, //
    4, 0, 0, 0, 4, 0, 0, 0, 0x80, 0xbb, 0, 0, 0, 0, 0, 0,
];

/// A struct of an Int and a String.
const STRUCT: [u8; 40] = [
    0x20, 0, 0, 0, 0x0e, 0, 0, 0, 4, 0, 0, 0, 4, 0, 0, 0, 1, 0, 0, 0, 0, 0, 0, 0, //
    2, 0, 0, 0, 8, 0, 0, 0, 0x61, 0, 0, 0, 0, 0, 0, 0,
];

/// A choice of kind Range with the Longs 1 and -1.
const RANGE: [u8; 40] = [
    0x20, 0, 0, 0, 0x13, 0, 0, 0, 1, 0, 0, 0, 0, 0, 0, 0, 8, 0, 0, 0, 5, 0, 0, 0, //
    1, 0, 0, 0, 0, 0, 0, 0, 255, 255, 255, 255, 255, 255, 255, 255,
];

// Whether a value has these lines.
fn has_lines(alloc: Global, pod: &Pod, lines: &[u8]) -> bool {
    match dump_text(alloc, pod) {
        Ok(text) => text.as_slice() == lines,
        Err(_memory) => false,
    }
}

// Whether the copy of a value is written as these bytes.
fn is_written(alloc: Global, pod: &Pod, bytes: &[u8]) -> bool {
    let Ok(copied) = pod.copy(alloc) else {
        return false;
    };
    let mut written = Items::new(alloc);
    match write_pod(alloc, &copied, &mut written) {
        Ok(()) => written.as_slice() == bytes,
        Err(_fault) => false,
    }
}

// The value that all of some bytes spell.
fn whole(alloc: Global, bytes: &[u8]) -> Option<Pod> {
    match read_pod(alloc, bytes) {
        Ok((pod, length)) => {
            if length == bytes.len() {
                Some(pod)
            } else {
                None
            }
        }
        Err(_fault) => None,
    }
}

/// Bytes, as what they are written back, and their lines.
const ROUND: [(&[u8], &[u8], &[u8]); 9] = [
    (&INT, &INT, b"int 5\n"),
    (&PADDED, &INT, b"int 5\n"),
    (
        &RATE,
        &RATE,
        b"object 262147 3 1\n  prop 65539 0\n    int 48000\n",
    ),
    (&STRUCT, &STRUCT, b"struct 2\n  int 1\n  string \"a\"\n"),
    (&RANGE, &RANGE, b"choice range 0 5 2\n  long 1\n  long -1\n"),
    (&SEQUENCE, &SEQUENCE, SEQUENCE_LINES),
    (&PADDED_SEQUENCE, &SEQUENCE, SEQUENCE_LINES),
    (
        &ROWS,
        &ROWS,
        b"struct 3\n  bytes \"00ff\"\n  string \"\\x22\\x00\\x5c\"\n  bitmap \"a5\"\n",
    ),
    (&ARRAY, &ARRAY, b"array 4 2\n  int 7\n  int -1\n"),
];

#[test]
fn bytes_are_read_dumped_and_written_back(rt: HostRuntime) {
    for (row, (bytes, canonical, lines)) in ROUND.iter().enumerate() {
        match whole(rt.alloc(), bytes) {
            Some(pod) => {
                assert!(rt; has_lines(rt.alloc(), &pod, lines), "row {row}");
                assert!(rt; is_written(rt.alloc(), &pod, canonical), "row {row}");
            }
            None => panic!(rt; "row {row} is not read"),
        }
    }
}

/// 17 structs, each in the one before.
const NESTED: [u8; 136] = [
    128, 0, 0, 0, 14, 0, 0, 0, //
    120, 0, 0, 0, 14, 0, 0, 0, //
    112, 0, 0, 0, 14, 0, 0, 0, //
    104, 0, 0, 0, 14, 0, 0, 0, //
    96, 0, 0, 0, 14, 0, 0, 0, //
    88, 0, 0, 0, 14, 0, 0, 0, //
    80, 0, 0, 0, 14, 0, 0, 0, //
    72, 0, 0, 0, 14, 0, 0, 0, //
    64, 0, 0, 0, 14, 0, 0, 0, //
    56, 0, 0, 0, 14, 0, 0, 0, //
    48, 0, 0, 0, 14, 0, 0, 0, //
    40, 0, 0, 0, 14, 0, 0, 0, //
    32, 0, 0, 0, 14, 0, 0, 0, //
    24, 0, 0, 0, 14, 0, 0, 0, //
    16, 0, 0, 0, 14, 0, 0, 0, //
    8, 0, 0, 0, 14, 0, 0, 0, //
    0, 0, 0, 0, 14, 0, 0, 0, //
];

/// An array of Ints of four bytes that has seven bytes of them.
const UNEVEN: [u8; 24] = [
    15, 0, 0, 0, 13, 0, 0, 0, 4, 0, 0, 0, 4, 0, 0, 0, 0, 0, 0, 0, 0, 0, 0, 0,
];

/// A choice of kind Enum whose Ints have no byte.
const NO_BYTES: [u8; 24] = [
    16, 0, 0, 0, 19, 0, 0, 0, 3, 0, 0, 0, 0, 0, 0, 0, 0, 0, 0, 0, 4, 0, 0, 0,
];

/// A sequence that ends in the head of a control.
const NO_VALUE: [u8; 24] = [
    12, 0, 0, 0, 16, 0, 0, 0, 0, 0, 0, 0, 0, 0, 0, 0, 0, 0, 0, 0, 0, 0, 0, 0,
];

// Whether reading reports this fault.
fn is_fault(alloc: Global, bytes: &[u8], fault: PodFault) -> bool {
    match read_pod(alloc, bytes) {
        Ok(_read) => false,
        Err(found) => found == fault && found.number() == fault.number(),
    }
}

#[test]
fn the_first_fault_is_told(rt: HostRuntime) {
    for (bytes, fault) in [
        (&INT[..15], PodFault::Short { offset: 0 }),
        (&RATE[..39], PodFault::Short { offset: 0 }),
        (
            [1, 0, 0x10, 0, 8, 0, 0, 0].as_slice(),
            PodFault::Large { size: 1048577 },
        ),
        (UNEVEN.as_slice(), PodFault::Uneven { offset: 0 }),
        (NO_BYTES.as_slice(), PodFault::Size { offset: 16 }),
        (NESTED.as_slice(), PodFault::Deep { offset: 128 }),
        // A text without its last zero, and one with a zero inside.
        (
            [0, 0, 0, 0, 8, 0, 0, 0].as_slice(),
            PodFault::Nul { offset: 0 },
        ),
        (
            [2, 0, 0, 0, 8, 0, 0, 0, 0, 97, 0, 0, 0, 0, 0, 0].as_slice(),
            PodFault::Nul { offset: 0 },
        ),
        (
            [0, 0, 0, 0, 17, 0, 0, 0].as_slice(),
            PodFault::TypeUnknown {
                offset: 4,
                number: 17,
            },
        ),
        (
            [0, 0, 0, 0, 16, 0, 0, 0].as_slice(),
            PodFault::Size { offset: 0 },
        ),
        (NO_VALUE.as_slice(), PodFault::Short { offset: 16 }),
    ] {
        let number = fault.number();
        assert!(rt; is_fault(rt.alloc(), bytes, fault), "{number}: {bytes:?}");
    }
}

#[test]
fn each_proper_prefix_is_short(rt: HostRuntime) {
    for end in 0..RATE.len() {
        let short = PodFault::Short { offset: 0 };
        assert!(rt; is_fault(rt.alloc(), &RATE[..end], short), "{end} bytes");
    }
}

/// From frame 2 on, a gain of 128/256.
const SEQUENCE: [u8; 64] = [
    0x38, 0, 0, 0, 0x10, 0, 0, 0, 0, 0, 0, 0, 0, 0, 0, 0, 2, 0, 0, 0, 1, 0, 0, 0, 0x20, 0, 0, 0,
    0x0f, 0, 0, 0, 2, 0, 4, 0, 2, 0, 0, 0, 1, 0, 0, 1, 0, 0, 0, 0, 4, 0, 0, 0, 4, 0, 0, 0, 0x80, 0,
    0, 0, 0, 0, 0, 0,
];

/// The same, with other padding.
const PADDED_SEQUENCE: [u8; 64] = [
    0x38, 0, 0, 0, 0x10, 0, 0, 0, 0, 0, 0, 0, 9, 0, 0, 0, 2, 0, 0, 0, 1, 0, 0, 0, 0x20, 0, 0, 0,
    0x0f, 0, 0, 0, 2, 0, 4, 0, 2, 0, 0, 0, 1, 0, 0, 1, 0, 0, 0, 0, 4, 0, 0, 0, 4, 0, 0, 0, 0x80, 0,
    0, 0, 0, 0, 0, 0,
];

const SEQUENCE_LINES: &[u8] =
    b"sequence 0 1\n  control 2 1\n    object 262146 2 1\n      prop 16777217 0\n        int 128\n";

// An array of Ints with a Bool in it is refused, and leaves the 24 bytes of another value.
#[test]
fn a_choice_without_values_is_written(rt: HostRuntime) -> Result<(), Fail> {
    let none = Pod::Choice {
        kind: ChoiceKind::None,
        flags: 0,
        child: 1,
        values: Items::new(rt.alloc()),
    };
    let mut bytes = Items::new(rt.alloc());
    assert!(rt; write_pod(rt.alloc(), &none, &mut bytes).is_ok() && bytes.len() == 24);
    let mut values = Items::new(rt.alloc());
    values.push(Pod::Bool(true))?;
    let mixed = Pod::Array { child: 4, values };
    match write_pod(rt.alloc(), &mixed, &mut bytes) {
        Ok(()) => panic!(rt; "a Bool was written among Ints"),
        Err(fault) => assert_eq!(rt; fault.number(), WriteFault::Unwritable.number()),
    }
    assert_eq!(rt; bytes.len(), 24);
    Ok(())
}

/// Two bytes, as Bytes, with a String and a Bitmap after them in a Struct.
const ROWS: [u8; 56] = [
    0x30, 0, 0, 0, 0x0e, 0, 0, 0, 2, 0, 0, 0, 9, 0, 0, 0, 0, 0xff, 0, 0, 0, 0, 0, 0, //
    4, 0, 0, 0, 8, 0, 0, 0, 0x22, 0, 0x5c, 0, 0, 0, 0, 0, //
    1, 0, 0, 0, 0x0c, 0, 0, 0, 0xa5, 0, 0, 0, 0, 0, 0, 0,
];

/// An Array of the Ints 7 and -1.
const ARRAY: [u8; 24] = [
    0x10, 0, 0, 0, 0x0d, 0, 0, 0, 4, 0, 0, 0, 4, 0, 0, 0, 7, 0, 0, 0, 255, 255, 255, 255,
];

#[test]
fn what_stands_behind_is_not_read(rt: HostRuntime) {
    let bytes = [4u8, 0, 0, 0, 4, 0, 0, 0, 5, 0, 0, 0, 0, 0, 0, 0, 1];
    match read_pod(rt.alloc(), bytes.as_slice()) {
        Ok((_pod, length)) => assert_eq!(rt; length, 16),
        Err(_fault) => panic!(rt; "no Int was read"),
    }
}

// The choice has 36 Ints of four bytes that are 1.
#[test]
fn a_choice_of_kind_none_may_have_more_values(rt: HostRuntime) -> Result<(), Fail> {
    let mut bytes = Items::new(rt.alloc());
    for number in [160u32, 19, 0, 0, 4, 3] {
        bytes.extend(number.to_le_bytes().as_slice())?;
    }
    bytes.extend_filled(144, 1)?;
    match whole(rt.alloc(), bytes.as_slice()) {
        Some(Pod::Choice { values, .. }) => assert_eq!(rt; (bytes.len(), values.len()), (168, 36)),
        _ => panic!(rt; "no choice was read"),
    }
    Ok(())
}

#[test]
fn values_of_one_size_have_their_lines(rt: HostRuntime) {
    let table = [
        (Pod::None, b"none\n".as_slice()),
        (Pod::Bool(false), b"bool false\n".as_slice()),
        (Pod::Id(3), b"id 3\n".as_slice()),
        (Pod::Int(-4), b"int -4\n".as_slice()),
        (Pod::Long(-5), b"long -5\n".as_slice()),
        (Pod::FloatBits(0x3f800000), b"float 3f800000\n".as_slice()),
        (
            Pod::DoubleBits(0x3ff0000000000000),
            b"double 3ff0000000000000\n".as_slice(),
        ),
        (
            Pod::Rectangle {
                width: 640,
                height: 480,
            },
            b"rectangle 640x480\n".as_slice(),
        ),
        (
            Pod::Fraction { num: 30, denom: 1 },
            b"fraction 30/1\n".as_slice(),
        ),
        (Pod::Fd(-1), b"fd -1\n".as_slice()),
    ];
    for (pod, lines) in table.as_slice() {
        assert!(rt; has_lines(rt.alloc(), pod, lines), "{lines:?}");
    }
}
