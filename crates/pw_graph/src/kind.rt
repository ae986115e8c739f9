//! What a node does, and which ports it has.
ghost use Rattle.std.specs.Prelude.{◌≡◌, ℕ, ◌+◌, ◌<◌, IfOk};
ghost use Rattle.pw_graph.specs.PlanSums.{is_sink};

use pw_lists::{Items, Memory};
use std::alloc::Global;

/// The kind of a node, with its numbers.
#[derive(Debug, Drop)]
pub enum Kind {
    /// Gives the frames of a WAV file, then zeros.
    Source,
    /// A square wave of `period` frames: `amp` in its first half, `-amp` in its second.
    Square {
        rate: u32,
        channels: u32,
        period: u32,
        amp: i32,
    },
    /// Each sample times `g / 256`.
    Gain {
        g: i32,
    },
    /// Each pair of samples, `(a * ga + b * gb) / 256`.
    Mix2 {
        ga: i32,
        gb: i32,
    },
    /// `frames` frames of zeros, then the input.
    Delay {
        frames: u32,
    },
    /// Output channel j is the input channel at place j of the list.
    Map {
        channels: u32,
        list: Items<u32>,
    },
    /// Channels 0 and 1 of a stereo input, each on a port of its own.
    Split,
    /// Keeps its input for a WAV file.
    Sink,
    /// Keeps the greatest absolute value of its input.
    Meter,
    /// The built-in driver: no port, no samples.
    Dummy,
}

impl Kind {
    ghost use Rattle.pw_graph.specs.KindPorts.{input_count, output_count, port_count, port_name};

    /// How many inputs it has. They are its first ports.
    pub fn inputs(&self) -> u32
        ensures { result ≡ input_count self.now }
    {
        match self {
            Kind::Source | Kind::Square { .. } | Kind::Dummy => 0,
            Kind::Mix2 { .. } => 2,
            _ => 1,
        }
    }

    /// How many outputs it has. They are the ports after its inputs.
    pub fn outputs(&self) -> u32
        ensures { result ≡ output_count self.now }
    {
        match self {
            Kind::Sink | Kind::Meter | Kind::Dummy => 0,
            Kind::Split => 2,
            _ => 1,
        }
    }

    /// The name of a port.
    pub fn port_name(&self, port: u32) -> &'static [u8]
        requires { port < port_count self.now }
        ensures { result.now ≡ port_name self.now port }
    {
        match self {
            Kind::Source | Kind::Square { .. } => b"out".as_slice(),
            Kind::Sink | Kind::Meter => b"in".as_slice(),
            Kind::Mix2 { .. } => match port {
                0 => b"a".as_slice(),
                1 => b"b".as_slice(),
                _ => b"out".as_slice(),
            },
            Kind::Split => match port {
                0 => b"in".as_slice(),
                1 => b"left".as_slice(),
                _ => b"right".as_slice(),
            },
            _ => match port {
                0 => b"in".as_slice(),
                _ => b"out".as_slice(),
            },
        }
    }

    /// An equal kind. Takes memory for the list of a `map`.
    pub fn copy(&self, alloc: Global) -> Result<Kind, Memory>
        ensures { IfOk result (λ copied. copied ≡ self.now) }
    {
        Ok(match self {
            Kind::Source => Kind::Source,
            Kind::Square {
                rate,
                channels,
                period,
                amp,
            } => Kind::Square {
                rate: *rate,
                channels: *channels,
                period: *period,
                amp: *amp,
            },
            Kind::Gain { g } => Kind::Gain { g: *g },
            Kind::Mix2 { ga, gb } => Kind::Mix2 { ga: *ga, gb: *gb },
            Kind::Delay { frames } => Kind::Delay { frames: *frames },
            Kind::Map { channels, list } => Kind::Map {
                channels: *channels,
                list: list.copy(alloc)?,
            },
            Kind::Split => Kind::Split,
            Kind::Sink => Kind::Sink,
            Kind::Meter => Kind::Meter,
            Kind::Dummy => Kind::Dummy,
        })
    }
}

/// Whether it is a sink. Takes no memory.
pub fn is_sink(kind: &Kind) -> bool
    ensures { result ≡ is_sink kind.now }
{
    matches!(kind, Kind::Sink)
}
