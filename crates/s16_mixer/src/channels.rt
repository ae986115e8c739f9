//! Channels of interleaved samples, picked a lane at a time.
ghost use Rattle.std.specs.Prelude.{◌≡◌, ◌*◌, ◌/◌, ◌%◌, ◌<◌, length, All, [], ◌∷◌};
ghost use Rattle.pw_lists.specs.Samples.{picked};

use crate::plain;

/// Stereo frames in a lane.
const FRAMES: usize = 64;

/// Samples in a lane.
const LANE: usize = 128;

/// Writes channel 0 of each stereo frame of `s` to `left` and channel 1 to `right`. Takes no
/// memory; one pass.
pub fn split(s: &[i16], left: &mut [i16], right: &mut [i16])
    requires length_left { length s.now ≡ 2 * length left.old }
    requires length_right { length s.now ≡ 2 * length right.old }
    ensures left { left.new ≡ picked 2 (0 ∷ []) s.now }
    ensures right { right.new ≡ picked 2 (1 ∷ []) s.now }
{
    let (lanes, rest) = s.as_chunks::<LANE>();
    for k in 0..lanes.len() {
        let (start, end) = (k * FRAMES, (k + 1) * FRAMES);
        plain::split(
            lanes[k].as_slice(),
            &mut left[start..end],
            &mut right[start..end],
        );
    }
    let done = lanes.len() * FRAMES;
    plain::split(rest, &mut left[done..], &mut right[done..]);
}

// Writes two channels of each stereo frame.
fn map_pairs(list: &[u32], s: &[i16], to: &mut [i16])
    requires two { length list.now ≡ 2 }
    requires within { All (λ c. c < 2) list.now }
    requires whole { length s.now % 2 ≡ 0 }
    requires lengths { length to.old ≡ length s.now }
    ensures { to.new ≡ picked 2 list.now s.now }
{
    let (lanes, rest) = s.as_chunks::<LANE>();
    for k in 0..lanes.len() {
        plain::map_channels(
            2,
            list,
            lanes[k].as_slice(),
            &mut to[k * LANE..(k + 1) * LANE],
        );
    }
    plain::map_channels(2, list, rest, &mut to[lanes.len() * LANE..]);
}

/// Writes, of each whole frame of `s`, the channels that the list names, in the list's order.
/// Frames are interleaved: `s` has `channels` samples a frame and `to` as many as the list is long.
/// Takes no memory; one pass, over lanes from stereo to stereo.
pub fn map_channels(channels: usize, list: &[u32], s: &[i16], to: &mut [i16])
    requires within { All (λ c. c < channels) list.now }
    requires whole { length s.now % channels ≡ 0 }
    requires lengths { length to.old ≡ length s.now / channels * length list.now }
    ensures { to.new ≡ picked channels list.now s.now }
{
    if channels == 2 && list.len() == 2 {
        map_pairs(list, s, to);
    } else {
        plain::map_channels(channels, list, s, to);
    }
}
