//! The frames of a stream, from one point to the next.
ghost use Rattle.std.specs.Prelude.{◌≡◌, ◌+◌, ◌/◌, ◌%◌, ◌<◌, ◌≤◌, ◌^◌, length};
ghost use Rattle.pw_graph.specs.KindRanges.{IsChannels};
ghost use Rattle.control_sequence.specs.Automation.{ArePoints, AreBehind, IsBefore, automated};

use crate::points::Point;
use s16_mixer::gain;

/// How far a stream is along its points: those before `next` are passed, and it has this
/// gain.
#[derive(Clone, Copy, Drop)]
pub(crate) struct Reached {
    pub next: usize,
    pub gain: i32,
}

// Passes the points that are at or before a frame.
fn reach(points: &[Point], reached: Reached, frame: u64) -> Reached
    requires sound { ArePoints points.now }
    requires behind { AreBehind points.now frame reached.next reached.gain }
    ensures behind { AreBehind points.now frame result.next result.gain }
    ensures before { IsBefore points.now result.next (frame + 1) }
{
    let mut reached = reached;
    while reached.next < points.len() && u64::from(points[reached.next].offset) <= frame {
        reached = Reached {
            next: reached.next + 1,
            gain: points[reached.next].g,
        };
    }
    reached
}

// How many of the frames that are left, from this frame on, are before the next point.
fn stretch(points: &[Point], next: usize, frame: u64, left: usize) -> usize
    requires before { IsBefore points.now next (frame + 1) }
    requires some { 0 < left }
    ensures some { 0 < result }
    ensures within { result ≤ left }
    ensures before { IsBefore points.now next (frame + result) }
{
    match points.get(next) {
        Some(point) => left.min((u64::from(point.offset) - frame) as usize),
        None => left,
    }
}

/// Writes the samples of a stream, whose first frame has the number `first`, to `to`, each by its
/// frame's gain.
pub(crate) fn apply_from(
    points: &[Point],
    channels: u32,
    first: u64,
    start: Reached,
    s: &[i16],
    to: &mut [i16],
) -> Reached
    requires sound { ArePoints points.now × IsChannels channels }
    requires behind { AreBehind points.now first start.next start.gain }
    requires lengths { length s.now ≡ length to.old }
    requires whole { length s.now % channels ≡ 0 }
    requires room { first + length s.now / channels < 2 ^ 64 }
    ensures samples { to.new ≡ automated points.now channels first s.now }
    ensures behind { AreBehind points.now
        (first + length s.now / channels) result.next result.gain }
{
    let width = channels as usize;
    let frames = s.len() / width;
    let mut reached = start;
    let mut done = 0;
    while done < frames {
        let frame = first + done as u64;
        reached = reach(points, reached, frame);
        let n = stretch(points, reached.next, frame, frames - done);
        let (from, end) = (done * width, (done + n) * width);
        gain(reached.gain, &s[from..end], &mut to[from..end]);
        done += n;
    }
    reached
}
