//! A plan with a node of each kind, whose inputs and outputs all go into sinks, and what the
//! reference program renders of it.

ghost use Rattle.std.specs.Prelude.{◌≡◌, pos, [], ◌∷◌, IfOk};
ghost use Rattle.pw_graph.specs.declared.kind.Kind.TheVariants as K;

use crate::rows::{EpochRow, PlanRow, Sort, outcome_of};
use pw_graph::{DUMMY, Kind};
use pw_lists::{Items, Memory};
use std::alloc::Global;
use wav_files::{Outcome, Wav};

/// The file of the source: stereo frames, the least sample and the greatest among them.
const FILE: [i16; 16] = [
    1, 10, 2, 20, -32768, 30, 4, 32767, 5, 50, -6, -60, 700, 70, 8, -8000,
];

/// The cycles of the plan.
pub const CYCLES: u32 = 16;

/// The nodes: one of each kind, and sinks for what each gives.
pub const SOURCE: u32 = 0;

pub const SQUARE: u32 = 1;

pub const GAIN: u32 = 2;

pub const MIX2: u32 = 3;

pub const DELAY: u32 = 4;

pub const MAP: u32 = 5;

pub const SPLIT: u32 = 6;

pub const METER: u32 = 7;

/// The sinks, by what goes into them.
pub const OF_SOURCE: u32 = 8;

pub const OF_SQUARE: u32 = 9;

pub const OF_GAIN: u32 = 10;

pub const OF_MIX2: u32 = 11;

pub const OF_DELAY: u32 = 12;

pub const OF_MAP: u32 = 13;

pub const OF_LEFT: u32 = 14;

pub const OF_RIGHT: u32 = 15;

/// A square of amplitude 100 and period 5.
pub fn square() -> Kind
    ensures { result ≡ K.Square 48000 1 5 (pos 100) }
{
    Kind::Square {
        rate: 48000,
        channels: 1,
        period: 5,
        amp: 100,
    }
}

/// A map from two channels to three.
pub fn map(alloc: Global) -> Result<Kind, Memory>
    ensures { IfOk result (λ kind. kind ≡ K.Map 2 (1 ∷ 0 ∷ 1 ∷ [])) }
{
    let list = Items::from_slice(alloc, [1u32, 0, 1].as_slice())?;
    Ok(Kind::Map { channels: 2, list })
}

/// The wave of the source.
pub fn wave(alloc: Global) -> Result<Wav, Memory>
    ensures { IfOk result (λ wav. wav.channels ≡ 2) }
{
    Ok(Wav {
        rate: 48000,
        channels: 2,
        samples: Items::from_slice(alloc, FILE.as_slice())?,
    })
}

/// The source goes to all that take stereo; each output goes to a sink. The built-in driver drives.
const GRAPH: PlanRow<'static> = PlanRow {
    quantum: 1,
    nodes: &[
        Sort::Source,
        Sort::Square(5, 100),
        Sort::Gain(300),
        Sort::Mix2(200, -300),
        Sort::Delay(10),
        Sort::Map(&[1, 0, 1]),
        Sort::Split,
        Sort::Meter(2),
        Sort::Sink(2),
        Sort::Sink(1),
        Sort::Sink(2),
        Sort::Sink(2),
        Sort::Sink(2),
        Sort::Sink(3),
        Sort::Sink(1),
        Sort::Sink(1),
    ],
    epochs: &[EpochRow {
        first: 0,
        cycles: CYCLES,
        nodes: &[0, 1, 2, 3, 4, 5, 6, 7, 8, 9, 10, 11, 12, 13, 14, 15, DUMMY],
        driver: DUMMY,
        links: &[
            ((SOURCE, 0), (OF_SOURCE, 0), 2, false),
            ((SOURCE, 0), (GAIN, 0), 2, false),
            ((SOURCE, 0), (MIX2, 0), 2, false),
            ((GAIN, 1), (MIX2, 1), 2, false),
            ((SOURCE, 0), (DELAY, 0), 2, false),
            ((SOURCE, 0), (MAP, 0), 2, false),
            ((SOURCE, 0), (SPLIT, 0), 2, false),
            ((SOURCE, 0), (METER, 0), 2, false),
            ((SQUARE, 0), (OF_SQUARE, 0), 1, false),
            ((GAIN, 1), (OF_GAIN, 0), 2, false),
            ((MIX2, 2), (OF_MIX2, 0), 2, false),
            ((DELAY, 1), (OF_DELAY, 0), 2, false),
            ((MAP, 1), (OF_MAP, 0), 3, false),
            ((SPLIT, 1), (OF_LEFT, 0), 1, false),
            ((SPLIT, 2), (OF_RIGHT, 0), 1, false),
        ],
        forms: &[
            (SOURCE, 0, 2),
            (SQUARE, 0, 1),
            (GAIN, 0, 2),
            (GAIN, 1, 2),
            (MIX2, 0, 2),
            (MIX2, 1, 2),
            (MIX2, 2, 2),
            (DELAY, 0, 2),
            (DELAY, 1, 2),
            (MAP, 0, 2),
            (MAP, 1, 3),
            (SPLIT, 0, 2),
            (SPLIT, 1, 1),
            (SPLIT, 2, 1),
            (METER, 0, 2),
            (OF_SOURCE, 0, 2),
            (OF_SQUARE, 0, 1),
            (OF_GAIN, 0, 2),
            (OF_MIX2, 0, 2),
            (OF_DELAY, 0, 2),
            (OF_MAP, 0, 3),
            (OF_LEFT, 0, 1),
            (OF_RIGHT, 0, 1),
        ],
        fresh: &[
            (GAIN, 2),
            (MIX2, 2),
            (DELAY, 2),
            (MAP, 2),
            (SPLIT, 2),
            (METER, 2),
            (OF_SOURCE, 2),
            (OF_SQUARE, 1),
            (OF_GAIN, 2),
            (OF_MIX2, 2),
            (OF_DELAY, 2),
            (OF_MAP, 3),
            (OF_LEFT, 1),
            (OF_RIGHT, 1),
        ],
    }],
    channels: 2,
    samples: &FILE,
};

/// What the reference program renders, where the plan is sound and the wave fits.
pub fn rendered(alloc: Global, quantum: u32) -> Result<Option<Outcome>, Memory> {
    outcome_of(alloc, PlanRow { quantum, ..GRAPH })
}

/// The stream that a sink keeps, none where it is not there.
pub fn stream(outcome: &Outcome, sink: u32) -> &[i16] {
    for kept in outcome.sinks.as_slice() {
        if kept.node == sink {
            return kept.wav.samples.as_slice();
        }
    }
    &[]
}
