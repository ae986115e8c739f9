//! Each front of a POD is short, by each command that reads one.

use pw_top::{PodWhy, Status};
use row_files::{Held, RUN, Row, front_unlike};

/// A format object whose rate is 48000.
const FORMAT: [u8; 40] = [
    0x20, 0, 0, 0, 0x0f, 0, 0, 0, 3, 0, 4, 0, 3, 0, 0, 0, 3, 0, 1, 0, 0, 0, 0, 0, 4, 0, 0, 0, 4, 0,
    0, 0, 0x80, 0xbb, 0, 0, 0, 0, 0, 0,
];

/// From frame 2 on, a gain of 128/256.
const HALF: [u8; 64] = [
    0x38, 0, 0, 0, 0x10, 0, 0, 0, 0, 0, 0, 0, 0, 0, 0, 0, 2, 0, 0, 0, 1, 0, 0, 0, 0x20, 0, 0, 0,
    0x0f, 0, 0, 0, 2, 0, 4, 0, 2, 0, 0, 0, 1, 0, 0, 1, 0, 0, 0, 0, 4, 0, 0, 0, 4, 0, 0, 0, 0x80, 0,
    0, 0, 0, 0, 0, 0,
];

/// The front of a format.
const FORMAT_FRONT: Row<'static> = Row {
    line: "dump f.pod",
    status: Status::Pod {
        place: 1,
        why: PodWhy::Short { offset: 0 },
    },
    text: b"pod 1 1 0\n",
    ..RUN
};

/// The front of a sequence.
const SEQUENCE_FRONT: Row<'static> = Row {
    line: "automate i.wav s.pod o.wav",
    files: &[("i.wav", Held::Mono(&[100, 100, 100, -1]))],
    status: Status::Pod {
        place: 2,
        why: PodWhy::Short { offset: 0 },
    },
    text: b"pod 2 1 0\n",
    ..RUN
};

#[test]
fn each_front_of_a_format_is_short(rt: HostRuntime) {
    assert_eq!(rt;
        front_unlike(&rt, FORMAT_FRONT, "f.pod", FORMAT.as_slice()),
        None
    );
}

#[test]
fn each_front_of_a_sequence_is_short(rt: HostRuntime) {
    assert_eq!(rt;
        front_unlike(&rt, SEQUENCE_FRONT, "s.pod", HALF.as_slice()),
        None
    );
}
