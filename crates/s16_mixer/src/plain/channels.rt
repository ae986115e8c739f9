//! Channels of interleaved samples, picked.
ghost use Rattle.std.specs.Prelude.{◌≡◌, ◌+◌, ◌*◌, ◌/◌, ◌%◌, ◌<◌, ◌≤◌, ◌++◌, length, take, drop, map, All, [], ◌∷◌};
ghost use Rattle.pw_lists.specs.Samples.{picked, sample_at};

/// Writes to frame `i` of `to` the channels of frame `i` of `s` that the list names.
fn pick_frame(channels: usize, list: &[u32], i: usize, s: &[i16], to: &mut [i16])
    requires within { All (λ c. c < channels) list.now }
    requires from { (i + 1) * channels ≤ length s.now }
    requires into { (i + 1) * length list.now ≤ length to.old }
    ensures { to.new
        ≡ take (i * length list.now) to.old
        ++ map (λ c. sample_at channels s.now i c) list.now
        ++ drop ((i + 1) * length list.now) to.old }
{
    let start = i * list.len();
    for j in 0..list.len() {
        to[start + j] = s[i * channels + list[j] as usize];
    }
}

/// Writes channels `first` and `second` of each frame of `s`.
fn pick_pairs(channels: usize, first: u32, second: u32, s: &[i16], to: &mut [i16])
    requires first { first < channels }
    requires second { second < channels }
    requires lengths { length to.old ≡ length s.now / channels * 2 }
    ensures { to.new ≡ picked channels (first ∷ second ∷ []) s.now }
{
    for i in 0..s.len() / channels {
        to[2 * i] = s[i * channels + first as usize];
        to[2 * i + 1] = s[i * channels + second as usize];
    }
}

/// Writes, of each whole frame of `s`, the channels that the list names, in the list's order.
/// Frames are interleaved: `s` has `channels` samples a frame and `to` as many as the list is long.
/// Takes no memory; one pass.
pub fn map_channels(channels: usize, list: &[u32], s: &[i16], to: &mut [i16])
    requires within { All (λ c. c < channels) list.now }
    requires whole { length s.now % channels ≡ 0 }
    requires lengths { length to.old ≡ length s.now / channels * length list.now }
    ensures { to.new ≡ picked channels list.now s.now }
{
    if list.is_empty() {
        return;
    }
    if list.len() == 2 {
        return pick_pairs(channels, list[0], list[1], s, to);
    }
    for i in 0..s.len() / channels {
        pick_frame(channels, list, i, s, to);
    }
}

/// Writes channel 0 of each stereo frame of `s` to `left` and channel 1 to `right`. Takes no
/// memory; one pass.
#[inline(always)]
pub fn split(s: &[i16], left: &mut [i16], right: &mut [i16])
    requires length_left { length s.now ≡ 2 * length left.old }
    requires length_right { length s.now ≡ 2 * length right.old }
    ensures left { left.new ≡ picked 2 (0 ∷ []) s.now }
    ensures right { right.new ≡ picked 2 (1 ∷ []) s.now }
{
    for i in 0..left.len() {
        left[i] = s[2 * i];
        right[i] = s[2 * i + 1];
    }
}
