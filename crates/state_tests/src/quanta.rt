//! Single quanta of node states, with their samples written out.
use crate::following::Streams;
use crate::widths::{gives, one_way};
use node_state::NodeState;
use pw_graph::Kind;
use pw_lists::Items;
use std::test::Fail;
use wav_files::Wav;

/// A square of period 4 and amplitude 100.
const SQUARE: Kind = Kind::Square {
    rate: 48000,
    channels: 1,
    period: 4,
    amp: 100,
};

/// Two quanta of two periods each.
const OF_SQUARE: [i16; 16] = [
    100, 100, -100, -100, 100, 100, -100, -100, 100, 100, -100, -100, 100, 100, -100, -100,
];

#[test]
fn a_square_changes_and_a_map_swaps(rt: HostRuntime) -> Result<(), Fail> {
    let streams = one_way(&[], OF_SQUARE.as_slice());
    assert!(rt; gives(rt.alloc(), &SQUARE, 0, 8, 2, streams)?);
    let list = Items::from_slice(rt.alloc(), [1u32, 0].as_slice())?;
    let streams = one_way(&[1, 10, 2, 20], &[10, 1, 20, 2]);
    assert!(rt;
        gives(
            rt.alloc(),
            &Kind::Map { channels: 2, list },
            2,
            2,
            1,
            streams
        )?
    );
    Ok(())
}

#[test]
fn a_delay_is_longer_or_shorter_than_a_quantum(rt: HostRuntime) -> Result<(), Fail> {
    let streams = one_way(
        &[1, 2, 3, 4, 5, 6, 7, 8, 9, 9, 9, 9],
        &[0, 0, 0, 0, 0, 0, 0, 0, 0, 0, 1, 2],
    );
    assert!(rt; gives(rt.alloc(), &Kind::Delay { frames: 10 }, 1, 4, 3, streams)?);
    let streams = one_way(&[1, 2, 3, 4, 5, 6, 7, 8], &[0, 0, 0, 1, 2, 3, 4, 5]);
    assert!(rt; gives(rt.alloc(), &Kind::Delay { frames: 3 }, 1, 2, 4, streams)?);
    Ok(())
}

#[test]
fn gains_are_rounded_once(rt: HostRuntime) -> Result<(), Fail> {
    let streams = one_way(&[3, -1], &[1, -1]);
    assert!(rt; gives(rt.alloc(), &Kind::Gain { g: 128 }, 1, 2, 1, streams)?);
    let streams = Streams {
        a: &[3, -1],
        b: &[3, -2],
        left: &[3, -2],
        right: &[],
    };
    assert!(rt;
        gives(
            rt.alloc(),
            &Kind::Mix2 { ga: 128, gb: 128 },
            1,
            2,
            1,
            streams
        )?
    );
    Ok(())
}

#[test]
fn a_restarted_delay_begins_anew(rt: HostRuntime) -> Result<(), Fail> {
    let kind = Kind::Delay { frames: 1 };
    let mut node = NodeState::prepare(rt.alloc(), &kind, None, 2, 2, 4)?;
    node.restart(1);
    let mut left = [9i16; 2];
    node.process([1i16, 2].as_slice(), &[], left.as_mut_slice(), &mut []);
    assert!(rt; left.as_slice() == [0i16, 1].as_slice());
    node.restart(1);
    node.process([3i16, 4].as_slice(), &[], left.as_mut_slice(), &mut []);
    assert!(rt; left.as_slice() == [0i16, 3].as_slice());
    Ok(())
}

#[test]
fn a_source_goes_on_with_zeros(rt: HostRuntime) -> Result<(), Fail> {
    let wav = Wav {
        rate: 48000,
        channels: 1,
        samples: Items::from_slice(rt.alloc(), [7i16, 8, 9].as_slice())?,
    };
    let mut node = NodeState::prepare(rt.alloc(), &Kind::Source, Some(&wav), 0, 2, 6)?;
    let mut left = [1i16; 2];
    node.process(&[], &[], left.as_mut_slice(), &mut []);
    assert!(rt; left.as_slice() == [7i16, 8].as_slice());
    node.restart(0);
    node.process(&[], &[], left.as_mut_slice(), &mut []);
    assert!(rt; left.as_slice() == [9i16, 0].as_slice());
    node.process(&[], &[], left.as_mut_slice(), &mut []);
    assert!(rt; left.as_slice() == [0i16, 0].as_slice());
    Ok(())
}

#[test]
fn a_meter_keeps_the_greatest(rt: HostRuntime) -> Result<(), Fail> {
    let mut node = NodeState::prepare(rt.alloc(), &Kind::Meter, None, 1, 2, 4)?;
    node.process([5i16, -32768].as_slice(), &[], &mut [], &mut []);
    node.process([7i16, 32767].as_slice(), &[], &mut [], &mut []);
    assert_eq!(rt; node.greatest(), 32768);
    node.restart(1);
    assert_eq!(rt; node.greatest(), 0);
    Ok(())
}

#[test]
fn a_sink_keeps_its_stream_from_its_first_form_on(rt: HostRuntime) -> Result<(), Fail> {
    let mut node = NodeState::prepare(rt.alloc(), &Kind::Sink, None, 2, 1, 3)?;
    node.process(&[], &[], &mut [], &mut []);
    node.process([1i16, 2].as_slice(), &[], &mut [], &mut []);
    node.process([3i16, 4].as_slice(), &[], &mut [], &mut []);
    assert!(rt; node.kept() == [1i16, 2, 3, 4].as_slice());
    Ok(())
}

#[test]
fn a_split_writes_the_outputs_that_have_a_form(rt: HostRuntime) -> Result<(), Fail> {
    let mut node = NodeState::prepare(rt.alloc(), &Kind::Split, None, 2, 2, 4)?;
    let (mut left, mut right) = ([9i16; 2], [9i16; 2]);
    let frames = [1i16, 10, 2, 20];
    node.process(
        frames.as_slice(),
        &[],
        left.as_mut_slice(),
        right.as_mut_slice(),
    );
    assert!(rt; left.as_slice() == [1i16, 2].as_slice());
    assert!(rt; right.as_slice() == [10i16, 20].as_slice());
    let mut alone = [9i16; 2];
    node.process(frames.as_slice(), &[], &mut [], alone.as_mut_slice());
    assert!(rt; alone.as_slice() == [10i16, 20].as_slice());
    Ok(())
}
