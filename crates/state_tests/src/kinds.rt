//! A node of each kind, in quanta of 1, 3, 8 and 64 frames.
ghost use Rattle.pw_graph.specs.SoundShape.{IsBetween};

use crate::following::Streams;
use crate::graph::{
    CYCLES, OF_DELAY, OF_GAIN, OF_LEFT, OF_MAP, OF_MIX2, OF_RIGHT, OF_SOURCE, OF_SQUARE, map,
    rendered, square, stream, wave,
};
use crate::widths::{followed, gives, one_way};
use pw_graph::Kind;
use pw_lists::Memory;
use std::alloc::Global;
use std::test::Fail;
use wav_files::Outcome;

fn source_follows(alloc: Global, quantum: u32, outcome: &Outcome) -> Result<bool, Memory>
    requires { IsBetween 1 64 quantum }
{
    let wav = wave(alloc)?;
    let streams = one_way(&[], stream(outcome, OF_SOURCE));
    match followed(
        alloc,
        &Kind::Source,
        Some(&wav),
        0,
        quantum,
        CYCLES,
        streams,
    )? {
        Some(_state) => Ok(true),
        None => Ok(false),
    }
}

fn square_follows(alloc: Global, quantum: u32, outcome: &Outcome) -> Result<bool, Memory>
    requires { IsBetween 1 64 quantum }
{
    let streams = one_way(&[], stream(outcome, OF_SQUARE));
    gives(alloc, &square(), 0, quantum, CYCLES, streams)
}

fn gain_follows(alloc: Global, quantum: u32, outcome: &Outcome) -> Result<bool, Memory>
    requires { IsBetween 1 64 quantum }
{
    let streams = one_way(stream(outcome, OF_SOURCE), stream(outcome, OF_GAIN));
    gives(alloc, &Kind::Gain { g: 300 }, 2, quantum, CYCLES, streams)
}

fn mix2_follows(alloc: Global, quantum: u32, outcome: &Outcome) -> Result<bool, Memory>
    requires { IsBetween 1 64 quantum }
{
    let streams = Streams {
        a: stream(outcome, OF_SOURCE),
        b: stream(outcome, OF_GAIN),
        left: stream(outcome, OF_MIX2),
        right: &[],
    };
    gives(
        alloc,
        &Kind::Mix2 { ga: 200, gb: -300 },
        2,
        quantum,
        CYCLES,
        streams,
    )
}

fn delay_follows(alloc: Global, quantum: u32, outcome: &Outcome) -> Result<bool, Memory>
    requires { IsBetween 1 64 quantum }
{
    let streams = one_way(stream(outcome, OF_SOURCE), stream(outcome, OF_DELAY));
    gives(
        alloc,
        &Kind::Delay { frames: 10 },
        2,
        quantum,
        CYCLES,
        streams,
    )
}

fn map_follows(alloc: Global, quantum: u32, outcome: &Outcome) -> Result<bool, Memory>
    requires { IsBetween 1 64 quantum }
{
    let streams = one_way(stream(outcome, OF_SOURCE), stream(outcome, OF_MAP));
    gives(alloc, &map(alloc)?, 2, quantum, CYCLES, streams)
}

fn split_follows(alloc: Global, quantum: u32, outcome: &Outcome) -> Result<bool, Memory>
    requires { IsBetween 1 64 quantum }
{
    let streams = Streams {
        a: stream(outcome, OF_SOURCE),
        b: &[],
        left: stream(outcome, OF_LEFT),
        right: stream(outcome, OF_RIGHT),
    };
    gives(alloc, &Kind::Split, 2, quantum, CYCLES, streams)
}

fn sink_follows(alloc: Global, quantum: u32, outcome: &Outcome) -> Result<bool, Memory>
    requires { IsBetween 1 64 quantum }
{
    let whole = stream(outcome, OF_SOURCE);
    match followed(
        alloc,
        &Kind::Sink,
        None,
        2,
        quantum,
        CYCLES,
        one_way(whole, &[]),
    )? {
        Some(state) => Ok(state.kept() == whole),
        None => Ok(false),
    }
}

fn meter_follows(alloc: Global, quantum: u32, outcome: &Outcome) -> Result<bool, Memory>
    requires { IsBetween 1 64 quantum }
{
    let [peak] = outcome.peaks.as_slice() else {
        return Ok(false);
    };
    let streams = one_way(stream(outcome, OF_SOURCE), &[]);
    match followed(alloc, &Kind::Meter, None, 2, quantum, CYCLES, streams)? {
        Some(state) => Ok(state.greatest() == peak.value),
        None => Ok(false),
    }
}

// Whether nodes of all kinds follow what is rendered.
fn kinds_follow(alloc: Global, quantum: u32, outcome: &Outcome) -> Result<bool, Memory>
    requires { IsBetween 1 64 quantum }
{
    Ok(
        source_follows(alloc, quantum, outcome)?
            && square_follows(alloc, quantum, outcome)?
            && gain_follows(alloc, quantum, outcome)?
            && mix2_follows(alloc, quantum, outcome)?
            && delay_follows(alloc, quantum, outcome)?
            && map_follows(alloc, quantum, outcome)?
            && split_follows(alloc, quantum, outcome)?
            && sink_follows(alloc, quantum, outcome)?
            && meter_follows(alloc, quantum, outcome)?,
    )
}

// Whether they do in quanta of `quantum` frames.
fn all_follow(alloc: Global, quantum: u32) -> Result<bool, Memory>
    requires { IsBetween 1 64 quantum }
{
    match rendered(alloc, quantum)? {
        Some(outcome) => kinds_follow(alloc, quantum, &outcome),
        None => Ok(false),
    }
}

#[test]
fn quanta_join_to_what_is_rendered(rt: HostRuntime) -> Result<(), Fail> {
    assert!(rt; all_follow(rt.alloc(), 1)?);
    assert!(rt; all_follow(rt.alloc(), 3)?);
    assert!(rt; all_follow(rt.alloc(), 8)?);
    assert!(rt; all_follow(rt.alloc(), 64)?);
    Ok(())
}
