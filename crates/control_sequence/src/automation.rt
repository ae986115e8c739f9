//! A stream that goes along points.
ghost use Rattle.std.specs.Prelude.{◌≡◌, ◌+◌, ◌/◌, ◌%◌, ◌<◌, ◌≤◌, ◌^◌, length};
ghost use Rattle.pw_graph.specs.KindRanges.{IsChannels};
ghost use Rattle.control_sequence.specs.Automation.{ArePoints, automated};

use crate::applying::{Reached, apply_from};
use crate::points::Points;
use std::marker::Model;

/// How many samples of a row are copied at once, at most.
const PIECE: usize = 840;

/// A stream of S16 samples, each frame of which gets the gain of the last point at or before it;
/// before the first point it stays as it is.
#[derive(Drop)]
pub struct Automation {
    points: Points,
    channels: u32,
    frames: u64,
    reached: Reached,
}

impl Model for Automation {
    ghost use Rattle.pw_graph.specs.KindRanges.{IsChannels};
    ghost use Rattle.control_sequence.specs.Automation.{Stream, coded_stream, ArePoints, AreBehind};

    ghost Value = { Stream };

    ghost coded = { coded_stream };

    ghost view = { λ a. record {
      points = a.points.items;
      channels = a.channels;
      frames = a.frames;
    } };

    ghost invariant = { λ a. ArePoints a.points.items × IsChannels a.channels
        × AreBehind a.points.items a.frames a.reached.next a.reached.gain };
}

impl Automation {
    /// A stream of `channels` channels, 1 to 8, that has had no frame. Takes no memory.
    pub fn new(points: Points, channels: u32) -> Automation
        requires points { ArePoints points.items }
        requires channels { IsChannels channels }
        ensures { result ≡ record { points = points.items; channels = channels; frames = 0 } }
    {
        Automation {
            points,
            channels,
            frames: 0,
            reached: Reached { next: 0, gain: 256 },
        }
    }

    /// Writes the next samples of the stream to `to`, each by its frame's gain: `s * g / 256`,
    /// rounded towards minus infinity and clamped. Frames are interleaved. Takes no memory; one
    /// pass over the samples, and over the points once in all calls.
    pub fn apply(&mut self, s: &[i16], to: &mut [i16])
        requires lengths { length s.now ≡ length to.old }
        requires whole { length s.now % self.old.channels ≡ 0 }
        requires room { self.old.frames + length s.now / self.old.channels < 2 ^ 64 }
        ensures samples { to.new ≡ automated self.old.points self.old.channels self.old.frames
            s.now }
        ensures moved { self.new
            ≡ record self.old { frames = self.old.frames + length s.now / self.old.channels } }
    {
        let frames = (s.len() / self.channels as usize) as u64;
        let points = self.points.items.as_slice();
        self.reached = apply_from(points, self.channels, self.frames, self.reached, s, to);
        self.frames += frames;
    }

    /// Writes the next samples of the stream over those of `row`, as `apply` would from another row
    /// of them. Whole frames, interleaved. Takes no memory but 840 samples of the stack; one pass
    /// over the samples, in pieces of at most 840, and over the points once in all calls.
    pub fn apply_in_place(&mut self, row: &mut [i16])
        requires whole { length row.old % self.old.channels ≡ 0 }
        requires room { self.old.frames + length row.old / self.old.channels < 2 ^ 64 }
        ensures samples { row.new ≡ automated self.old.points self.old.channels self.old.frames
            row.old }
        ensures moved { self.new
            ≡ record self.old { frames = self.old.frames + length row.old / self.old.channels } }
    {
        let width = self.channels as usize;
        let frames = row.len() / width;
        let most = PIECE / width;
        let mut copy = [0; PIECE];
        let mut done = 0;
        while done < frames {
            let n = most.min(frames - done);
            self.apply_piece(&mut copy, &mut row[done * width..(done + n) * width]);
            done += n;
        }
    }

    // Writes the next samples of the stream over those of a piece, which it copies first.
    fn apply_piece(&mut self, copy: &mut [i16; PIECE], piece: &mut [i16])
        requires short { length piece.old ≤ 840 }
        requires whole { length piece.old % self.old.channels ≡ 0 }
        requires room { self.old.frames + length piece.old / self.old.channels < 2 ^ 64 }
        ensures samples { piece.new ≡ automated self.old.points self.old.channels self.old.frames
            piece.old }
        ensures moved { self.new ≡ record self.old {
          frames = self.old.frames + length piece.old / self.old.channels;
        } }
    {
        let n = piece.len();
        copy[..n].copy_from_slice(piece);
        self.apply(&copy[..n], piece);
    }
}
