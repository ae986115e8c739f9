//! Scripts, and the first line at fault.
use graph_script::{Command, Line, Script, ScriptFault, ScriptWhy, parse};
use pw_graph::PortId;
use pw_lists::{Items, Memory, Text, append_decimal};
use std::alloc::Global;
use std::test::Fail;

// The script that a text is, of a length that a script may have.
fn parsed(alloc: Global, text: &[u8]) -> Result<Script, ScriptFault> {
    if text.len() > 1_048_576 {
        return Err(ScriptFault::Memory);
    }
    parse(alloc, text)
}

// Line, cause and limit number of a fault; 0 for what it lacks.
fn fault_of(alloc: Global, text: &[u8]) -> (u32, u8, u8) {
    match parsed(alloc, text) {
        Err(
            ScriptFault::At {
                line,
                why: ScriptWhy::TooMany(which),
            },
        ) => (line, 12, which.number()),
        Err(ScriptFault::At { line, why }) => (line, why.number(), 0),
        _ => (0, 0, 0),
    }
}

// The number of lines that say a command, and of the last of them; 0 and 0 where there is a fault.
fn counts(alloc: Global, text: &[u8]) -> (usize, u32) {
    let Ok(script) = parsed(alloc, text) else {
        return (0, 0);
    };
    match script.lines.as_slice() {
        [] => (0, 0),
        [.., last] => (script.lines.len(), last.line),
    }
}

// A command by the place of its name in the order of the list below, and its numbers, a port as its
// node and its own.
fn told(command: &Command) -> [i64; 6] {
    match command {
        Command::Quantum { n } => [0, i64::from(*n), 0, 0, 0, 0],
        Command::Source { node, .. } => [1, i64::from(*node), 0, 0, 0, 0],
        Command::Square {
            node,
            rate,
            channels,
            period,
            amp,
        } => [
            2,
            i64::from(*node),
            i64::from(*rate),
            i64::from(*channels),
            i64::from(*period),
            i64::from(*amp),
        ],
        Command::Gain { node, g } => [3, i64::from(*node), i64::from(*g), 0, 0, 0],
        Command::Mix2 { node, ga, gb } => {
            [4, i64::from(*node), i64::from(*ga), i64::from(*gb), 0, 0]
        }
        Command::Delay { node, frames } => [5, i64::from(*node), i64::from(*frames), 0, 0, 0],
        Command::Map { node, channels, .. } => {
            [6, i64::from(*node), i64::from(*channels), 0, 0, 0]
        }
        Command::Split { node } => [7, i64::from(*node), 0, 0, 0, 0],
        Command::Sink { node, .. } => [8, i64::from(*node), 0, 0, 0, 0],
        Command::Meter { node } => [9, i64::from(*node), 0, 0, 0, 0],
        _ => told_of_nodes(command),
    }
}

// The same of the commands that name nodes and ports.
fn told_of_nodes(command: &Command) -> [i64; 6] {
    match command {
        Command::Driver { node, priority } => {
            [10, i64::from(*node), i64::from(*priority), 0, 0, 0]
        }
        Command::Loop { node, k } => [11, i64::from(*node), i64::from(*k), 0, 0, 0],
        Command::Offer { port, .. } => [12, i64::from(port.node), i64::from(port.port), 0, 0, 0],
        Command::Buffers { port, n } => {
            [
                13,
                i64::from(port.node),
                i64::from(port.port),
                i64::from(*n),
                0,
                0,
            ]
        }
        Command::Link { from, to } => told_link(14, *from, *to),
        Command::Unlink { from, to } => told_link(15, *from, *to),
        Command::On { node } => [16, i64::from(*node), 0, 0, 0, 0],
        Command::Off { node } => [17, i64::from(*node), 0, 0, 0, 0],
        Command::Async { node } => [18, i64::from(*node), 0, 0, 0, 0],
        Command::Cycles { n } => [19, i64::from(*n), 0, 0, 0, 0],
        Command::Drain => [20, 0, 0, 0, 0, 0],
        _ => [-1, 0, 0, 0, 0, 0],
    }
}

// The same of a link.
fn told_link(place: i64, from: PortId, to: PortId) -> [i64; 6] {
    [
        place,
        i64::from(from.node),
        i64::from(from.port),
        i64::from(to.node),
        i64::from(to.port),
        0,
    ]
}

// A script of five lines.
const SHORT: &'static [u8] =
    b"quantum 2\nsource s s.wav\nsink o -a.wav\nlink s.out o.in\ncycles 1000000";

const OF_SHORT: [[i64; 6]; 5] = [
    [0, 2, 0, 0, 0, 0],
    [1, 0, 0, 0, 0, 0],
    [8, 1, 0, 0, 0, 0],
    [14, 0, 0, 1, 0, 0],
    [19, 1000000, 0, 0, 0, 0],
];

#[test]
fn the_first_path_has_its_names_and_files(rt: HostRuntime) {
    let Ok(script) = parsed(rt.alloc(), SHORT) else {
        panic!(rt; "it is a script");
    };
    let [s, o] = script.names().as_slice() else {
        panic!(rt; "it has two nodes");
    };
    assert!(rt; s.as_slice() == b"s".as_slice() && o.as_slice() == b"o".as_slice());
    let [_quantum, source, sink, ..] = script.lines.as_slice() else {
        panic!(rt; "it has five lines");
    };
    let (Command::Source { file: from, .. }, Command::Sink { file: to, .. }) = (
        &source.command,
        &sink.command,
    ) else {
        panic!(rt; "they are a source and a sink");
    };
    assert!(rt; from.as_slice() == b"s.wav".as_slice() && to.as_slice() == b"-a.wav".as_slice());
}

// Every command, in the order of its places.
const EVERY: [[i64; 6]; 21] = [
    [0, 8192, 0, 0, 0, 0],
    [1, 0, 0, 0, 0, 0],
    [2, 1, 384000, 8, 1000000, 32767],
    [3, 2, -32767, 0, 0, 0],
    [4, 3, 32767, -1, 0, 0],
    [5, 4, 65536, 0, 0, 0],
    [6, 5, 2, 0, 0, 0],
    [7, 6, 0, 0, 0, 0],
    [8, 7, 0, 0, 0, 0],
    [9, 8, 0, 0, 0, 0],
    [10, 7, 1000000, 0, 0, 0],
    [11, 2, 15, 0, 0, 0],
    [12, 2, 0, 0, 0, 0],
    [13, 3, 2, 8, 0, 0],
    [14, 3, 2, 4, 0, 0],
    [15, 6, 2, 3, 1, 0],
    [16, 2, 0, 0, 0, 0],
    [17, 2, 0, 0, 0, 0],
    [18, 2, 0, 0, 0, 0],
    [19, 1000000, 0, 0, 0, 0],
    [20, 0, 0, 0, 0, 0],
];

const EVERY_TEXT: &'static [u8] =
    b"quantum 8192\nsource s s.wav\nsquare q 384000 8 1000000 32767\ngain g -32767\n\
    mix2 m 32767 -1\ndelay d 65536\nmap p 2 1,0,1\nsplit t\nsink o o.wav\nmeter l\n\
    driver o 1000000\nloop g 15\noffer g in f.pod\nbuffers m out 8\nlink m.out d.in\n\
    unlink t.right m.b\non g\noff g\nasync g\ncycles 1000000\ndrain";

#[test]
fn every_command_is_read(rt: HostRuntime) {
    // A text, and what its lines say, from the first on.
    for (text, wanted) in [(SHORT, OF_SHORT.as_slice()), (EVERY_TEXT, EVERY.as_slice())] {
        let Ok(script) = parsed(rt.alloc(), text) else {
            panic!(rt; "{text:?} is a script");
        };
        assert_eq!(rt; script.lines.len(), wanted.len());
        for (place, (line, want)) in script.lines.as_slice().iter().zip(wanted).enumerate() {
            assert_eq!(rt; told(&line.command), *want, "at {place} of {text:?}");
            assert_eq!(rt; line.line as usize, place + 1, "of {text:?}");
            if let Command::Map { list, .. } = &line.command {
                assert_eq!(rt; list.as_slice(), [1, 0, 1].as_slice());
            }
        }
    }
}

#[test]
fn lines_keep_their_numbers(rt: HostRuntime) {
    // A text, the number of its commands and the line of the last.
    let good = [
        (b"".as_slice(), 0, 0),
        (b"\n\n", 0, 0),
        (b"# play\n\t\r \ncycles 1\n", 1, 3),
        (b"quantum 8192\r\n\n  #\n\tcycles \t 1 ", 2, 4),
        (b"sink o o.wav", 1, 1),
        (b"split a\nunlink a.left a.in\noffer a in f\nasync a", 4, 4),
        (
            b"split a\nsplit b\nlink a.left b.in\nsplit c\nasync c",
            5,
            5,
        ),
    ];
    for (text, lines, last) in good {
        assert_eq!(rt; counts(rt.alloc(), text), (lines, last), "{text:?}");
    }
}

// Texts, the line at fault and why it is.
const BAD: [(&'static [u8], u32, u8); 57] = [
    // a byte, then the command, then the count of arguments
    (b"# \x80\ncycles 1", 1, 1),
    (b"play \x01", 1, 1),
    (b"\nplay", 2, 2),
    (b"Gain a 1", 1, 2),
    (b"gain a", 1, 3),
    (b"gain A 1 2", 1, 3),
    (b"quantum 1 #", 1, 3),
    (b"square s 1 1 1", 1, 3),
    (b"drain 1", 1, 3),
    // a new node: the form of its name, whether it is taken, then the numbers
    (b"gain A 1", 1, 5),
    (b"gain a.b x", 1, 5),
    (b"split abcdefghijklmnopqrstuvwxyz_01234", 1, 5),
    (b"gain dummy 1", 1, 6),
    (b"gain dummy x", 1, 6),
    (b"gain a 1\nsink a o.wav", 2, 6),
    (b"gain a 01", 1, 4),
    (b"gain a -0", 1, 4),
    (b"gain a +1", 1, 4),
    (b"gain a #1", 1, 4),
    (b"gain a -32768", 1, 4),
    (b"mix2 a 1 32768", 1, 4),
    (b"delay a -1", 1, 4),
    (b"square a 384001 1 1 1", 1, 4),
    (b"square a 1 9 1 1", 1, 4),
    (b"square a 1 1 0 1", 1, 4),
    (b"square a 1 1 1 -1", 1, 4),
    (b"map a 0 0", 1, 4),
    (b"map a 2 0,2", 1, 4),
    (b"map a 2 0,,1", 1, 4),
    (b"map a 2 0,", 1, 4),
    (b"map a 2 0,1,0,1,0,1,0,1,0", 1, 4),
    (b"quantum 99999999999999999999999999999999", 1, 4),
    // a node that is there: the form of its name, the node, its port, then the numbers
    (b"driver A x", 1, 5),
    (b"driver a x", 1, 7),
    (b"driver dummy 1", 1, 7),
    (b"gain a 1\nbuffers a left 9", 2, 8),
    (b"gain a 1\nbuffers a out 9", 2, 4),
    (b"gain a 1\nloop a 16", 2, 4),
    (b"gain a 1\noffer b left f", 2, 7),
    (b"on a", 1, 7),
    // endpoints: the form, the node, the port, the first before the second
    (b"link a.out b.in", 1, 7),
    (b"gain a 1\nlink a a.in", 2, 5),
    (b"gain a 1\nlink a.out. b.in", 2, 5),
    (b"gain a 1\nlink A.out a.in", 2, 5),
    (b"gain a 1\nlink a.in b.in", 2, 8),
    (b"gain a 1\nlink a.out a.out", 2, 8),
    (b"gain a 1\nunlink a.out b.in", 2, 7),
    // what earlier lines forbid is found last
    (b"gain a 1\nquantum 4", 2, 9),
    (b"quantum 1\nquantum 1", 2, 9),
    (b"gain a 1\nquantum 0", 2, 4),
    (b"gain a 1\ndriver a 1", 2, 10),
    (b"gain a 1\ndriver a 1000001", 2, 4),
    (b"gain a 1\nlink a.out a.in\noffer a in f", 3, 11),
    (b"gain a 1\nlink a.out a.in\noffer a left f", 3, 8),
    (b"gain g 1\nsink o o.wav\nlink g.out o.in\nasync g", 4, 14),
    (b"gain g 1\nsink o o.wav\nlink g.out o.in\nasync o", 4, 14),
    // the first line at fault
    (b"gain a 1\n\n#\nplay\ngain A 1", 4, 2),
];

#[test]
fn each_faulty_text_is_refused_by_its_cause(rt: HostRuntime) {
    for (text, line, why) in BAD.as_slice() {
        assert_eq!(rt; fault_of(rt.alloc(), text), (*line, *why, 0), "{text:?}");
    }
}

// A front, and some words `often` times, as lines with a number each where they are numbered.
fn repeated(
    alloc: Global,
    front: &[u8],
    words: &[u8],
    often: u32,
    is_numbered: bool,
) -> Result<Text, Memory> {
    let mut text = Items::from_slice(alloc, front)?;
    for number in 0..u64::from(often) {
        text.extend(words)?;
        if is_numbered {
            append_decimal(&mut text, number)?;
            text.extend(b"\n")?;
        }
    }
    Ok(text)
}

/// A front, words, how often they come, whether as numbered lines, and what comes after them: the
/// number of commands and the last line, and the line, cause and limit number of the fault.
type LongRow = (
    &'static [u8],
    &'static [u8],
    u32,
    bool,
    &'static [u8],
    (usize, u32),
    (u32, u8, u8),
);

const LONG: [LongRow; 9] = [
    // nodes
    (b"", b"split n", 63, true, b"", (63, 63), (0, 0, 0)),
    (b"", b"split n", 63, true, b"split n0", (0, 0), (64, 6, 0)),
    (b"", b"split n", 63, true, b"split n0x", (0, 0), (64, 12, 5)),
    // epochs, which a `drain` begins as `cycles` does
    (
        b"",
        b"cycles 1\ndrain\n",
        512,
        false,
        b"",
        (1024, 1024),
        (0, 0, 0),
    ),
    (
        b"",
        b"cycles 1\ndrain\n",
        512,
        false,
        b"cycles 0",
        (0, 0),
        (1025, 4, 0),
    ),
    (
        b"",
        b"cycles 1\ndrain\n",
        512,
        false,
        b"cycles 0\ndrain",
        (0, 0),
        (1025, 4, 0),
    ),
    (
        b"",
        b"cycles 1\ndrain\n",
        512,
        false,
        b"drain",
        (0, 0),
        (1025, 12, 6),
    ),
    // bytes of a file word
    (b"source s ", b"a", 255, false, b"", (1, 1), (0, 0, 0)),
    (b"source s ", b"a", 256, false, b"", (0, 0), (1, 5, 0)),
];

#[test]
fn one_too_many_comes_last(rt: HostRuntime) -> Result<(), Fail> {
    for (row, (front, words, often, is_numbered, more, counted, fault)) in LONG.iter().enumerate() {
        let mut text = repeated(rt.alloc(), front, words, *often, *is_numbered)?;
        text.extend(more)?;
        assert_eq!(rt; counts(rt.alloc(), text.as_slice()), *counted, "row {row}");
        assert_eq!(rt; fault_of(rt.alloc(), text.as_slice()), *fault, "row {row}");
    }
    Ok(())
}
