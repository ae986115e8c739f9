//! The commands of a script, with numbers in the place of names.

use pw_graph::PortId;
use pw_lists::{Items, Text};

/// A command. A node is its number, which for a command that makes one is the new node's; a port is
/// numbered within its node, inputs first. The ranges of the numbers are those that the grammar
/// allows.
#[derive(Drop)]
pub enum Command {
    /// Frames in a cycle, 1 to 8192.
    Quantum {
        n: u32,
    },
    /// A node that gives the frames of a WAV file.
    Source {
        node: u32,
        file: Text,
    },
    /// A square wave: frames a second, 1 to 384000; channels, 1 to 8; frames in a period, 1 to
    /// 1000000; amplitude, 0 to 32767.
    Square {
        node: u32,
        rate: u32,
        channels: u32,
        period: u32,
        amp: i32,
    },
    /// Samples times `g / 256`, with `g` from -32767 to 32767.
    Gain {
        node: u32,
        g: i32,
    },
    /// Two inputs, each by its gain, added. The gains are from -32767 to 32767.
    Mix2 {
        node: u32,
        ga: i32,
        gb: i32,
    },
    /// A delay of 0 to 65536 frames.
    Delay {
        node: u32,
        frames: u32,
    },
    /// Output channel j is the input channel at place j of the list: 1 to 8 numbers below
    /// `channels`, which is 1 to 8.
    Map {
        node: u32,
        channels: u32,
        list: Items<u32>,
    },
    /// The two channels of a stereo input, each on an output of its own.
    Split {
        node: u32,
    },
    /// A node that keeps its input for a WAV file.
    Sink {
        node: u32,
        file: Text,
    },
    /// A node that keeps the greatest absolute value of its input.
    Meter {
        node: u32,
    },
    /// The sink or meter may drive, with a priority of 0 to 1000000.
    Driver {
        node: u32,
        priority: u32,
    },
    /// The node asks for the data loop of this number, 0 to 15.
    Loop {
        node: u32,
        k: u32,
    },
    /// The port offers no more than the format in a file.
    Offer {
        port: PortId,
        file: Text,
    },
    /// The port asks for 1 to 8 buffers in later links.
    Buffers {
        port: PortId,
        n: u32,
    },
    /// From an output to an input.
    Link {
        from: PortId,
        to: PortId,
    },
    Unlink {
        from: PortId,
        to: PortId,
    },
    On {
        node: u32,
    },
    Off {
        node: u32,
    },
    /// `n` cycles, 1 to 1000000.
    Cycles {
        n: u32,
    },
    /// Cycles until the active sources have given all their frames.
    Drain,
    /// Links at the node are late: they carry what was made one cycle earlier.
    Async {
        node: u32,
    },
}
