//! Loads and stores that fail, each told with its word, and the bytes that stand then.

use pw_top::Status;
use row_files::{Faults, Held, RUN, Row, S_WAV, SURE, first_unlike};

/// A format whose rate is 48000.
const RATE: Held<'static> = Held::Words(&[32, 15, 262147, 3, 65539, 0, 4, 4, 48000, 0]);

/// From frame 2 on, a gain of 128/256.
const HALF: Held<'static> = Held::Words(&[
    56, 16, 0, 0, 2, 1, 32, 15, 262146, 2, 16777217, 0, 4, 4, 128, 0,
]);

/// A filter of a format by itself.
const FILTER: Row<'static> = Row {
    line: "filter a.pod b.pod o.pod",
    files: &[("a.pod", RATE), ("b.pod", RATE)],
    ..RUN
};

/// A load of `dump`, of `filter` and of a trace that fails, and a store of `filter` and of `automate`
/// that fails after three bytes.
const CALLS: &'static [Row<'static>] = &[
    Row {
        line: "dump f.pod",
        files: &[("f.pod", Held::Words(&[4, 4, 5, 0]))],
        faults: Faults { load: 1, ..SURE },
        status: Status::ReadFault { place: 1 },
        text: b"read 1\n",
        ..RUN
    },
    Row {
        faults: Faults { load: 2, ..SURE },
        status: Status::ReadFault { place: 2 },
        text: b"read 2\n",
        ..FILTER
    },
    Row {
        faults: Faults {
            store: (1, 3),
            ..SURE
        },
        status: Status::WriteFault { place: 3 },
        text: b"write 3\n",
        stored: &[("o.pod", Some(Held::Bytes(b"\x20\0\0")))],
        ..FILTER
    },
    Row {
        line: "automate i.wav s.pod o.wav",
        files: &[("i.wav", Held::Mono(&[100, 100, 100, -1])), ("s.pod", HALF)],
        faults: Faults {
            store: (1, 3),
            ..SURE
        },
        status: Status::WriteFault { place: 3 },
        text: b"write 3\n",
        stored: &[("o.wav", Some(Held::Bytes(b"RIF")))],
        ..RUN
    },
    Row {
        line: "check s.graph t.txt",
        script: b"source s s.wav\ncycles 1\n",
        files: &[S_WAV, ("t.txt", Held::Bytes(b"begin 0\n"))],
        faults: Faults { load: 3, ..SURE },
        status: Status::ReadFault {
            place: 4_294_967_295,
        },
        text: b"read 4294967295\n",
        ..RUN
    },
];

#[test]
fn a_failed_load_or_store_is_told_with_its_word(rt: HostRuntime) {
    assert_eq!(rt; first_unlike(&rt, CALLS), None);
}
