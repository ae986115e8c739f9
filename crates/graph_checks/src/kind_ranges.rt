//! Whether the numbers of a kind are in range, and what its ports may have.
ghost use Rattle.std.specs.Prelude.{◌≡◌, ◌<◌, ◌≤◌, IsTrue, ◌↔◌, All, length};
ghost use Rattle.pw_graph.specs.KindRanges.{IsRate, IsChannels, IsGain, IsInRange, MayHaveRate, MayHaveChannels, SharesChannels};
ghost use Rattle.pw_graph.specs.KindRanges.{IsSinkOrMeter};

use crate::soundness::is_between;
use pw_graph::Kind;
use pw_lists::{AMP_LIMIT, CHANNELS_LIMIT, DELAY_LIMIT, GAIN_LIMIT, PERIOD_LIMIT, RATE_LIMIT};

/// Whether it is a rate.
pub(crate) fn is_rate(rate: u32) -> bool
    ensures { IsTrue result ↔ IsRate rate }
{
    is_between(1, RATE_LIMIT, rate)
}

/// Whether it is a number of channels.
pub(crate) fn is_channels(channels: u32) -> bool
    ensures { IsTrue result ↔ IsChannels channels }
{
    is_between(1, CHANNELS_LIMIT, channels)
}

// Whether it is a gain.
fn is_gain(g: i32) -> bool
    ensures { IsTrue result ↔ IsGain g }
{
    g.unsigned_abs() <= GAIN_LIMIT
}

// Whether each number is that of a channel.
fn are_below(channels: u32, list: &[u32]) -> bool
    ensures { IsTrue result ↔ All (λ c. c < channels) list.now }
{
    list.iter().all(|c| *c < channels)
}

// Whether it is a list of a map of `channels` channels.
fn is_map(channels: u32, list: &[u32]) -> bool
    ensures { IsTrue result ↔ (IsChannels channels
        × ((1 ≤ length list.now) × (length list.now ≤ 8))
        × All (λ c. c < channels) list.now) }
{
    is_channels(channels) && 1 <= list.len() && list.len() <= 8 && are_below(channels, list)
}

/// Whether the numbers of a kind are in the ranges of the script.
pub(crate) fn is_in_range(kind: &Kind) -> bool
    ensures { IsTrue result ↔ IsInRange kind.now }
{
    match kind {
        Kind::Square {
            rate,
            channels,
            period,
            amp,
        } => is_rate(*rate)
            && is_channels(*channels)
            && is_between(1, PERIOD_LIMIT, *period)
            && 0 <= *amp
            && *amp <= AMP_LIMIT as i32,
        Kind::Gain { g } => is_gain(*g),
        Kind::Mix2 { ga, gb } => is_gain(*ga) && is_gain(*gb),
        Kind::Delay { frames } => *frames <= DELAY_LIMIT,
        Kind::Map { channels, list } => is_map(*channels, list.as_slice()),
        Kind::Dummy => false,
        _ => true,
    }
}

/// Whether a port may have a rate.
pub(crate) fn may_have_rate(kind: &Kind, n: u32) -> bool
    ensures { IsTrue result ↔ MayHaveRate kind.now n }
{
    match kind {
        Kind::Square { rate, .. } => n == *rate,
        _ => is_rate(n),
    }
}

/// Whether a port may have `n` channels.
pub(crate) fn may_have_channels(kind: &Kind, port: u32, n: u32) -> bool
    ensures { IsTrue result ↔ MayHaveChannels kind.now port n }
{
    match kind {
        Kind::Square { channels, .. } => n == *channels,
        Kind::Map { channels, list } => {
            if port == 0 {
                n == *channels
            } else {
                n as usize == list.len()
            }
        }
        Kind::Split => { if port == 0 { n == 2 } else { n == 1 } }
        _ => is_channels(n),
    }
}

/// Whether all ports have the same channels.
pub(crate) fn shares_channels(kind: &Kind) -> bool
    ensures { IsTrue result ↔ SharesChannels kind.now }
{
    matches!(
        kind,
        Kind::Gain { .. } | Kind::Mix2 { .. } | Kind::Delay { .. }
    )
}

/// Whether it is a sink or a meter.
pub(crate) fn is_sink_or_meter(kind: &Kind) -> bool
    ensures { IsTrue result ↔ IsSinkOrMeter kind.now }
{
    matches!(kind, Kind::Sink | Kind::Meter)
}
