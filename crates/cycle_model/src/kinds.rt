//! What a node gives: a case for each kind, by index into all that the node has received.
ghost use Rattle.std.specs.Prelude.{◌≡◌, ℕ, ◌+◌, ◌-◌, ◌<◌, ◌≤◌, ◌^◌, List, length, map, ℤ, pos, ◌≤ℤ◌, ◌*ℤ◌};
ghost use Rattle.std.specs.Prelude.{unsigned_abs, nat_lt, if◌then◌else◌, slice_index_or, IfSome, IfOk};
ghost use Rattle.std.specs.Int.{int_shr};
ghost use Rattle.std.specs.List.{range_with_len};
ghost use Rattle.pw_lists.specs.Samples.{clamped, scaled, mixed, sample_at};
ghost use Rattle.pw_graph.specs.KindFunction.{kind_output, square_at};
ghost use Rattle.pw_graph.specs.KindRanges.{IsInRange};
ghost use Rattle.cycle_model.specs.Cycle.{last_of};
ghost use Rattle.cycle_model.specs.KindSamples.{kind_inputs_of, kind_sample, kind_length};

use crate::received::Received;
use pw_graph::Kind;
use pw_lists::{Items, Memory};
use std::alloc::Global;

/// A sample of a row: 0 past its end.
fn sample_in(row: &[i16], i: usize) -> i16
    ensures { result ≡ slice_index_or row.now i (pos 0) }
{
    match row.get(i) {
        Some(sample) => *sample,
        None => 0,
    }
}

/// The sample of a frame in a channel: 0 past the end.
fn sample_at(channels: u32, row: &[i16], frame: usize, channel: u32) -> i16
    ensures { result ≡ sample_at channels row.now frame channel }
{
    let Some(start) = frame.checked_mul(channels as usize) else {
        return 0;
    };
    match start.checked_add(channel as usize) {
        Some(i) => sample_in(row, i),
        None => 0,
    }
}

/// A sample by a gain, before the rounding.
fn product(g: i32, x: i16) -> i64
    ensures value { result ≡ x *ℤ g }
    ensures limit { unsigned_abs result ≤ 0x4000_0000_0000 }
{
    i64::from(x) * i64::from(g)
}

/// What products add up to, in samples: rounded towards minus infinity, then clamped.
fn rounded(wide: i64) -> i16
    ensures { result ≡ clamped (int_shr wide 8) }
{
    (wide >> 8).clamp(-32768, 32767) as i16
}

/// A sample by a gain.
fn scaled(g: i32, x: i16) -> i16
    ensures { result ≡ scaled g x }
{
    rounded(product(g, x))
}

/// A pair of samples, each by its gain, added and then rounded.
fn mixed(ga: i32, gb: i32, a: i16, b: i16) -> i16
    ensures { result ≡ mixed ga gb a b }
{
    rounded(product(ga, a) + product(gb, b))
}

/// A frame of a square wave.
fn square_at(period: u32, amp: i32, frame: usize) -> i16
    requires period { 0 < period }
    requires low { pos 0 ≤ℤ amp }
    requires high { amp ≤ℤ pos 32767 }
    ensures { result ≡ square_at period amp frame }
{
    let place = frame % period as usize;
    if 2 * place < period as usize {
        amp as i16
    } else {
        (-amp) as i16
    }
}

/// A sample of a delayed row.
fn delayed(zeros: u64, row: &[i16], i: usize) -> i16
    ensures { result ≡ (if nat_lt i zeros then pos 0
        else slice_index_or row.now (i - zeros) (pos 0)) }
{
    if (i as u64) < zeros {
        0
    } else {
        sample_in(row, i - zeros as usize)
    }
}

/// Sample `i` of all that a node gives at an output.
fn sample_of(
    kind: &Kind,
    wave: &[i16],
    received: &Received,
    channels: u32,
    output: u32,
    i: usize,
) -> i16
    requires range { IsInRange kind.now }
    requires within { i < kind_length kind.now (kind_inputs_of wave.now channels received.now) }
    ensures { result
        ≡ kind_sample kind.now (kind_inputs_of wave.now channels received.now) output i }
{
    let a = received.a.as_slice();
    match kind {
        Kind::Source => sample_in(wave, i),
        Kind::Square { period, amp, .. } => square_at(*period, *amp, i / channels as usize),
        Kind::Gain { g } => scaled(*g, sample_in(a, i)),
        Kind::Mix2 { ga, gb } => {
            mixed(
                *ga,
                *gb,
                sample_in(a, i),
                sample_in(received.b.as_slice(), i),
            )
        }
        Kind::Delay { frames } => delayed(u64::from(*frames) * u64::from(channels), a, i),
        Kind::Map { channels, list } => {
            let list = list.as_slice();
            sample_at(*channels, a, i / list.len(), list[i % list.len()])
        }
        Kind::Split => sample_at(2, a, i, output),
        Kind::Sink | Kind::Meter | Kind::Dummy => 0,
    }
}

/// How many samples a node gives in all, at each output; nothing where the number does not fit.
fn length_of(kind: &Kind, received: &Received, channels: u32) -> Option<usize>
    requires range { IsInRange kind.now }
    ensures { (wave : List ℤ) → IfSome result
        (λ n. n ≡ kind_length kind.now (kind_inputs_of wave channels received.now)) }
{
    let a = received.a.len();
    match kind {
        Kind::Source | Kind::Square { .. } => {
            (received.frames as usize).checked_mul(channels as usize)
        }
        Kind::Gain { .. } | Kind::Delay { .. } => Some(a),
        Kind::Mix2 { .. } => Some(a.min(received.b.len())),
        Kind::Map { channels, list } => (a / *channels as usize).checked_mul(list.len()),
        Kind::Split => Some(a / 2),
        Kind::Sink | Kind::Meter | Kind::Dummy => Some(0),
    }
}

/// Writes samples of all that a node gives at an output, from sample `from` on.
fn fill(
    kind: &Kind,
    wave: &[i16],
    received: &Received,
    channels: u32,
    output: u32,
    from: usize,
    to: &mut [i16],
)
    requires range { IsInRange kind.now }
    requires within { from + length to.old
        ≤ kind_length kind.now (kind_inputs_of wave.now channels received.now) }
    requires fits { from + length to.old < 2 ^ 64 }
    ensures { to.new
        ≡ map (λ r. kind_sample kind.now (kind_inputs_of wave.now channels received.now) output
        (from + r)) (range_with_len 0 (length to.old)) }
{
    for r in 0..to.len() {
        to[r] = sample_of(kind, wave, received, channels, output, from + r);
    }
}

/// The last `n` samples, or all if there are fewer, that a node gives at an output, outputs counted
/// from 0.
pub(crate) fn last_given(
    alloc: Global,
    kind: &Kind,
    wave: &[i16],
    received: &Received,
    channels: u32,
    output: u32,
    n: usize,
) -> Result<Items<i16>, Memory>
    requires range { IsInRange kind.now }
    ensures { IfOk result (λ row. row ≡ last_of n
        (kind_output kind.now (kind_inputs_of wave.now channels received.now) output)) }
{
    let Some(len) = length_of(kind, received, channels) else {
        return Err(Memory);
    };
    let from = len.saturating_sub(n);
    let mut row = Items::filled(alloc, len - from, 0)?;
    fill(
        kind,
        wave,
        received,
        channels,
        output,
        from,
        row.as_mut_slice(),
    );
    Ok(row)
}
