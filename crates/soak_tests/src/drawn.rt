//! What is drawn from a number. The values are those of a Python program of ten lines, written from
//! the definition of the draws: it steps one integer, takes it modulo 2**64, and draws chain after
//! chain.

use crate::work::work_of;
use graph_script::{Command, Script};
use pw_graph::Plan;
use soak_graph::soak_text;
use std::alloc::Global;
use std::test::Fail;
use wav_files::WavIn;

/// A number, and what is drawn from it: the first and the last sample of each wave, the begin and
/// the end of its text and how long that is, and the source that goes off for a while, the first
/// node of its chain.
#[derive(Clone, Copy, Drop)]
struct Drawn {
    number: u32,
    ends: [(i16, i16); 8],
    front: &'static [u8],
    back: &'static [u8],
    length: usize,
    source: u32,
}

/// The whole text of 7. Of the others the first chain after the quantum, and the last lines.
const NUMBERS: [Drawn; 3] = [
    Drawn {
        number: 7,
        ends: [
            (5214, 12134),
            (710, -29491),
            (18970, -26875),
            (-5297, -14689),
            (-26189, -5647),
            (-3823, 22274),
            (14972, -20988),
            (18627, 31490),
        ],
        front: SEVEN,
        back: b"cycles 100\noff s5\ncycles 50\non s5\ndrain\n",
        length: 1038,
        source: 15,
    },
    Drawn {
        number: 0,
        ends: [
            (15807, 29032),
            (-28360, 9707),
            (-743, -5816),
            (16890, -32266),
            (-27657, -17689),
            (20165, 6854),
            (-23333, -17454),
            (24533, 29503),
        ],
        front: b"quantum 256\nsource s0 s0.wav\ngain g0 77\ndelay d0 176\nsource s1 s1.wav\n\
            gain g1 -115\ndelay d1 754\n",
        back: b"cycles 100\noff s6\ncycles 50\non s6\ndrain\n",
        length: 1039,
        source: 18,
    },
    Drawn {
        number: 4294967295,
        ends: [
            (831, -24727),
            (14859, -4562),
            (-22724, -25290),
            (-3861, -23782),
            (13397, -6903),
            (21764, -11436),
            (-15269, 15167),
            (22877, 12070),
        ],
        front: b"quantum 256\nsource s0 s0.wav\ngain g0 -179\ndelay d0 554\nsource s1 s1.wav\n\
            gain g1 -29\ndelay d1 301\n",
        back: b"cycles 100\noff s7\ncycles 50\non s7\ndrain\n",
        length: 1037,
        source: 21,
    },
];

const SEVEN: &[u8] =
    b"quantum 256\nsource s0 s0.wav\ngain g0 200\ndelay d0 219\nsource s1 s1.wav\ngain g1 -246\ndelay d1 481\n\
        source s2 s2.wav\ngain g2 -157\ndelay d2 786\nsource s3 s3.wav\ngain g3 191\ndelay d3 264\n\
        source s4 s4.wav\ngain g4 10\ndelay d4 970\nsource s5 s5.wav\ngain g5 90\ndelay d5 889\n\
        source s6 s6.wav\ngain g6 -80\ndelay d6 242\nsource s7 s7.wav\ngain g7 -29\ndelay d7 339\n\
        sink mix mix.wav\nmeter level\ndriver mix 1\nlink s0.out g0.in\nlink g0.out d0.in\nlink d0.out mix.in\n\
        link d0.out level.in\nlink s1.out g1.in\nlink g1.out d1.in\nlink d1.out mix.in\nlink d1.out level.in\n\
        link s2.out g2.in\nlink g2.out d2.in\nlink d2.out mix.in\nlink d2.out level.in\nlink s3.out g3.in\n\
        link g3.out d3.in\nlink d3.out mix.in\nlink d3.out level.in\nlink s4.out g4.in\nlink g4.out d4.in\n\
        link d4.out mix.in\nlink d4.out level.in\nlink s5.out g5.in\nlink g5.out d5.in\nlink d5.out mix.in\n\
        link d5.out level.in\nlink s6.out g6.in\nlink g6.out d6.in\nlink d6.out mix.in\nlink d6.out level.in\n\
        link s7.out g7.in\nlink g7.out d7.in\nlink d7.out mix.in\nlink d7.out level.in\ncycles 100\noff s5\n\
        cycles 50\non s5\ndrain\n";

// Whether a wave is that of this node, and its samples begin and end so.
fn is_wave(wave: &WavIn, node: usize, ends: (i16, i16)) -> bool {
    let wav = &wave.wav;
    match wav.samples.as_slice() {
        [first, .., last] => {
            wave.node as usize == node
                && (wav.rate, wav.channels, wav.samples.len()) == (48000, 1, 65536)
                && (*first, *last) == ends
        }
        _ => false,
    }
}

// Whether the waves are those of the eight chains.
fn are_waves(waves: &[WavIn], ends: [(i16, i16); 8]) -> bool {
    if waves.len() != 8 {
        return false;
    }
    for chain in 0..8 {
        if !is_wave(&waves[chain], 3 * chain, ends[chain]) {
            return false;
        }
    }
    true
}

// Whether a command takes a source off, or else on.
fn switches(command: &Command, source: u32, off: bool) -> bool {
    match command {
        Command::Off { node } => off && *node == source,
        Command::On { node } => !off && *node == source,
        _ => false,
    }
}

// Whether a script has its lines and names; those before the last take this source off and on
// again.
fn is_script(script: &Script, source: u32) -> bool {
    if script.lines.len() != 65 || script.names.len() != 26 {
        return false;
    }
    match script.lines.as_slice() {
        [.., off, _cycles, on, _drain] => {
            (off.line, on.line) == (62, 64)
                && switches(&off.command, source, true)
                && switches(&on.command, source, false)
        }
        _ => false,
    }
}

// Whether a plan has 306 cycles in three epochs. 100 of the 256 quanta of each wave are given in
// the first, and 50 in the second but for the source that is off then, which has 156 left. Its one
// link is not in the second epoch.
fn is_plan(plan: &Plan) -> bool {
    match plan.epochs.as_slice() {
        [first, second, third] => {
            let (first, second, third) = (&first.shape, &second.shape, &third.shape);
            (plan.quantum, plan.nodes.len()) == (256, 26)
                && (first.cycles, second.cycles, third.cycles) == (100, 50, 156)
                && (first.links.len(), second.links.len(), third.links.len()) == (32, 31, 32)
        }
        _ => false,
    }
}

// Whether the graph of a number has its waves, its script and such a plan.
fn has_graph(alloc: Global, row: &Drawn) -> bool {
    match work_of(alloc, row.number) {
        Ok(Some(work)) => {
            is_plan(&work.plan)
                && are_waves(work.waves.as_slice(), row.ends)
                && is_script(&work.script, row.source)
        }
        _ => false,
    }
}

// Whether its text is so.
fn has_text(alloc: Global, row: &Drawn) -> bool {
    match soak_text(alloc, row.number) {
        Ok(text) => {
            let text = text.as_slice();
            text.len() == row.length && text.starts_with(row.front) && text.ends_with(row.back)
        }
        Err(_memory) => false,
    }
}

// The first number from which something else is drawn.
fn first_unlike(alloc: Global, rows: &[Drawn]) -> Option<u32> {
    for row in rows {
        if !has_text(alloc, row) || !has_graph(alloc, row) {
            return Some(row.number);
        }
    }
    None
}

// The first of those above.
fn first_unlike_number(alloc: Global) -> Option<u32> {
    first_unlike(alloc, NUMBERS.as_slice())
}

#[test]
fn numbers_draw_their_graphs(rt: HostRuntime) -> Result<(), Fail> {
    assert_eq!(rt; first_unlike_number(rt.alloc()), None);
    Ok(())
}
