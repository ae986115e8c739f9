//! The table of notes by values that no run finds: sides of refused links that no offer of a node has,
//! a driver without a name, samples that another line stored, and runs of which nothing is at hand.
//! The texts that were put say other things, which no note takes over.

use crate::found_values::{Pair, RAN, Ran, Seen, Side, Stored, found_of, what_of};
use fault_messages::explain;
use pw_graph::{LineOutcome, PortId};
use pw_lists::{Memory, Text};
use pw_top::Status;
use row_files::words_of;
use std::alloc::Global;
use wav_files::Peak;

/// A command, its script, what it has found, the text that it has put, what its sinks stored, and
/// what is noted.
#[derive(Clone, Copy, Drop)]
struct Noted {
    command: &'static str,
    script: Option<&'static [u8]>,
    seen: Seen,
    told: Option<&'static [u8]>,
    stored: &'static [Stored],
    notes: &'static [u8],
}

/// A link that is made.
const MADE: LineOutcome = LineOutcome::Linked {
    rate: 48_000,
    channels: 1,
    buffers: 2,
};

/// A link of formats whose channels differ.
const CHANNELS: LineOutcome = LineOutcome::NoFormat { key: 65_540 };

/// A run of a script with a link, of which nothing is to be said, and a text that says otherwise.
const RUN: Noted = Noted {
    command: "run t.graph --trace",
    script: Some(b"# link a.out b.in\nsource s s.wav\nsink o o.wav\n\nlink s.out o.in\ncycles 1\n"),
    seen: Seen::Run(Ran {
        outcomes: &[MADE],
        ..RAN
    }),
    told: Some(b"nolink s.out o.in twice\nunused o\nunused n\npeak n 0\nline 7\nclash 2\n"),
    stored: &[(3, "o.wav", &[0])],
    notes: b"",
};

/// Sides of refused links: an entry of another line, and one of another key, say nothing.
const SIDES: Noted = Noted {
    script: Some(
        b"gain a 1\ngain b 1\nlink a.out b.in\nlink a.out b.in\nlink a.out b.in\n\
            link a.out b.in\nlink a.out b.in\nlink a.out b.in\n",
    ),
    seen: Seen::Run(Ran {
        outcomes: &[
            LineOutcome::NoFormat { key: 65_539 },
            CHANNELS,
            CHANNELS,
            CHANNELS,
            LineOutcome::NoFormat { key: 65_539 },
            LineOutcome::NoFormat { key: 1 },
        ],
        parted: &[
            (4, 65_540, Pair::Both(Side::Int(2), Side::Int(1))),
            (3, 65_540, Pair::Both(Side::Int(2), Side::Int(1))),
            (3, 65_539, Pair::Both(Side::Int(44_100), Side::None)),
            (5, 65_540, Pair::Both(Side::Id(1), Side::Int(2))),
            (6, 65_540, Pair::Both(Side::None, Side::From(2, 8))),
            (
                7,
                65_539,
                Pair::Node(PortId { node: 0, port: 1 }, Side::None, None),
            ),
        ],
        ..RAN
    }),
    notes: b"pipegraph: t.graph:3: \"a.out\" to \"b.in\" is no link: \
            no common rate (key 65539): 44100 and none; \
            no node changes a rate, but sox IN -r RATE OUT does\n\
            pipegraph: t.graph:4: \"a.out\" to \"b.in\" is no link: \
            no common channels (key 65540): 2 and 1; map NAME 1 0,0 makes two channels of one\n\
            pipegraph: t.graph:5: \"a.out\" to \"b.in\" is no link: \
            no common channels (key 65540): 1 and 2\n\
            pipegraph: t.graph:6: \"a.out\" to \"b.in\" is no link: \
            no common channels (key 65540): none and 2 to 8\n\
            pipegraph: t.graph:7: \"a.out\" to \"b.in\" is no link: \
            no common rate (key 65539): \"a.out\" admits none, and its node has none\n\
            pipegraph: t.graph:8: \"a.out\" to \"b.in\" is no link: \
            no common media type (key 1)\n",
    ..RUN
};

/// A driver without a name.
const NAMELESS: Noted = Noted {
    script: Some(b"sink o o.wav\ncycles 1\n"),
    seen: Seen::Run(Ran {
        epochs: &[(63, &[63]), (7, &[7])],
        ..RAN
    }),
    stored: &[(1, "o.wav", &[])],
    notes: b"pipegraph: t.graph:1: \"o\" has no frames, so what it writes to \"o.wav\" \
            is an empty WAV file: it was active in no cycle since it got its format; \
            in the last cycle node 7 drove, and no links of nodes that were on joined the two; \
            where no line links the two, groups gives each a driver\n",
    ..RUN
};

/// Samples at a limit that the lines of a source and of a meter stored.
const OTHERS: Noted = Noted {
    command: "groups t.graph",
    script: Some(b"sink o o.wav\nsource s o.wav\nmeter m\nsink p o.wav\n"),
    seen: Seen::Run(Ran {
        peaks: &[Peak {
            node: 2,
            value: 32_768,
        }],
        ..RAN
    }),
    stored: &[
        (2, "x.wav", &[32767]),
        (1, "o.wav", &[32767, 32767]),
        (3, "x.wav", &[32767]),
    ],
    notes: b"pipegraph: t.graph:1: \"o.wav\" is a source's file too: \
            it was read first, and written after that\n\
            pipegraph: t.graph:1: \"o\" has 2 samples at the limit of 16 bits\n\
            pipegraph: t.graph:4: \"p\" had no format at the end, \
            so it does not write \"o.wav\", which another sink writes; \
            no link line names \"p\"\n",
    ..RUN
};

/// Notes by values that no run finds.
const ROWS: &'static [Noted] = &[
    RUN,
    SIDES,
    NAMELESS,
    OTHERS,
    // A check that stored samples at a limit, and one whose text says otherwise.
    Noted {
        command: "check t.graph t.txt",
        script: Some(b"sink o o.wav\n"),
        seen: Seen::Legal,
        told: Some(b"line 12\n"),
        stored: &[(1, "o.wav", &[32767])],
        ..RUN
    },
    Noted {
        command: "check t.graph t.txt",
        seen: Seen::Legal,
        told: Some(b"illegal 3\n"),
        ..RUN
    },
    // Commands and runs of which nothing was found.
    Noted {
        command: "filter a.pod b.pod c.pod",
        script: None,
        seen: Seen::Nothing,
        told: Some(b"clash type\n"),
        ..RUN
    },
    Noted {
        command: "dump a.pod",
        seen: Seen::Nothing,
        ..RUN
    },
    Noted {
        seen: Seen::Run(Ran {
            outcomes: &[LineOutcome::Twice],
            ..RAN
        }),
        told: None,
        ..RUN
    },
    Noted {
        seen: Seen::Nothing,
        ..RUN
    },
];

// What is said of the command of a row.
fn said_of(alloc: Global, row: Noted) -> Result<Text, Memory> {
    let words = words_of(alloc, row.command)?;
    let what = what_of(alloc, row.script, row.seen)?;
    let found = found_of(alloc, row.script, row.told, row.stored, what)?;
    explain(alloc, &Status::Ok, &found, None, words.as_slice())
}

// Whether the notes of a row are as wanted.
fn is_noted(alloc: Global, row: Noted) -> bool {
    match said_of(alloc, row) {
        Ok(text) => text.as_slice() == row.notes,
        Err(_memory) => false,
    }
}

#[test]
fn values_that_no_run_finds_have_their_notes(rt: HostRuntime) {
    for row in ROWS {
        assert!(rt; is_noted(rt.alloc(), *row), "{}", row.command);
    }
}
