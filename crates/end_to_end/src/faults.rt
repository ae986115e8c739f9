//! Each call of the outside that fails, in its turn, and what is left of two files then.

use pw_top::Status;
use row_files::{Faults, Held, RUN, Row, SURE, first_unlike, is_so};
use std::sync::Wait;
use std::thread::Threads;

/// Two sources into each of two sinks.
const TWO_SINKS: Row<'static> = Row {
    script: b"quantum 4\nsource a a.wav\nsource b b.wav\nsink o o.wav\nsink q q.wav\n\
        driver o 1\nlink a.out o.in\nlink b.out o.in\nlink a.out q.in\nlink b.out q.in\ncycles 2",
    files: &[
        (
            "a.wav",
            Held::Mono(&[100, 200, 300, 400, 500, 600, 700, 800]),
        ),
        ("b.wav", Held::Mono(&[1, -1, 2, -2, 3, -3, 4, -4])),
    ],
    text: &TEXT,
    stored: &[("o.wav", Some(SUMS)), ("q.wav", Some(SUMS))],
    ..RUN
};

/// The text of a run that nothing fails.
const TEXT: [u8; 124] = *b"link a.out o.in 48000 1 2\nlink b.out o.in 48000 1 2\n\
    link a.out q.in 48000 1 2\nlink b.out q.in 48000 1 2\nwrote o 8\nwrote q 8\n";

/// What both sinks keep.
const SUMS: Held<'static> = Held::Mono(&[101, 199, 302, 398, 503, 597, 704, 796]);

/// The same as bytes of a file.
const WHOLE: [u8; 60] = *b"RIFF\x34\0\0\0WAVEfmt \x10\0\0\0\x01\0\x01\0\x80\xbb\0\0\0\x77\x01\0\
    \x02\0\x10\0data\x10\0\0\0\x65\0\xc7\0\x2e\x01\x8e\x01\xf7\x01\x55\x02\xc0\x02\x1c\x03";

/// Each load that fails, and one whose line fails too: nothing is stored.
const LOADS: &'static [Row<'static>] = &[
    Row {
        faults: Faults { load: 1, ..SURE },
        status: Status::ReadFault { place: 0 },
        text: b"read 0\n",
        stored: &[("o.wav", None), ("q.wav", None)],
        ..TWO_SINKS
    },
    Row {
        faults: Faults { load: 2, ..SURE },
        status: Status::ReadFault { place: 2 },
        text: b"read 2\n",
        stored: &[("o.wav", None), ("q.wav", None)],
        ..TWO_SINKS
    },
    Row {
        faults: Faults { load: 3, ..SURE },
        status: Status::ReadFault { place: 3 },
        text: b"read 3\n",
        stored: &[("o.wav", None), ("q.wav", None)],
        ..TWO_SINKS
    },
    Row {
        faults: Faults {
            load: 2,
            store: (0, 0),
            put: (1, 0),
        },
        status: Status::ReadFault { place: 2 },
        text: b"",
        stored: &[("o.wav", None), ("q.wav", None)],
        ..TWO_SINKS
    },
];

/// The first store that fails.
const FIRST: Row<'static> = Row {
    status: Status::WriteFault { place: 4 },
    text: b"write 4\n",
    ..TWO_SINKS
};

// The first number of bytes after which the first store fails otherwise than wanted.
fn first_store_unlike<R: Threads + Wait + Sync + AllocGlobal>(
    rt: &R,
    base: Row<'static>,
) -> Option<usize> {
    for kept in 0..61 {
        let stored = [
            ("o.wav", Some(Held::Bytes(&WHOLE[..kept]))),
            ("q.wav", None),
        ];
        let row = Row {
            faults: Faults {
                store: (1, kept as u64),
                ..SURE
            },
            stored: stored.as_slice(),
            ..base
        };
        if !is_so(rt, row) {
            return Some(kept);
        }
    }
    None
}

/// The second store that fails.
const SECOND: Row<'static> = Row {
    status: Status::WriteFault { place: 5 },
    text: b"write 5\n",
    ..TWO_SINKS
};

// The same of the second store.
fn second_store_unlike<R: Threads + Wait + Sync + AllocGlobal>(
    rt: &R,
    base: Row<'static>,
) -> Option<usize> {
    for kept in 0..61 {
        let front = Some(Held::Bytes(&WHOLE[..kept]));
        let stored = [("o.wav", Some(Held::Bytes(&WHOLE))), ("q.wav", front)];
        let row = Row {
            faults: Faults {
                store: (2, kept as u64),
                ..SURE
            },
            stored: stored.as_slice(),
            ..base
        };
        if !is_so(rt, row) {
            return Some(kept);
        }
    }
    None
}

/// The put of the text that fails.
const PUT: Row<'static> = Row {
    status: Status::WriteFault { place: 0 },
    ..TWO_SINKS
};

// The first number of bytes after which the put fails otherwise than wanted.
fn put_unlike<R: Threads + Wait + Sync + AllocGlobal>(rt: &R, base: Row<'static>) -> Option<usize> {
    for kept in 0..124 {
        let row = Row {
            faults: Faults {
                put: (1, kept as u64),
                ..SURE
            },
            text: &TEXT[..kept],
            ..base
        };
        if !is_so(rt, row) {
            return Some(kept);
        }
    }
    None
}

#[test]
fn each_load_fails_in_its_turn(rt: HostRuntime) {
    assert_eq!(rt; first_unlike(&rt, LOADS), None);
}

#[test]
fn each_store_fails_after_each_byte(rt: HostRuntime) {
    assert_eq!(rt; first_store_unlike(&rt, FIRST), None);
    assert_eq!(rt; second_store_unlike(&rt, SECOND), None);
}

#[test]
fn the_put_fails_after_each_byte(rt: HostRuntime) {
    assert_eq!(rt; put_unlike(&rt, PUT), None);
}

/// A soak over files of which no call does what it should.
const SOAK: Row<'static> = Row {
    line: "soak 7",
    faults: Faults {
        load: 1,
        store: (1, 0),
        put: (0, 0),
    },
    text: b"soak 7 306 78336 -7763562 32768\n",
    ..RUN
};

#[test]
fn a_soak_loads_and_stores_nothing(rt: HostRuntime) {
    assert!(rt; is_so(&rt, SOAK));
}
