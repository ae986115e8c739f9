//! A delay keeps its line, the samples that it has received and not yet given, in a ring.
ghost use Rattle.std.specs.Prelude.{◌≡◌, ◌+◌, ◌*◌, ◌<◌, ◌≤◌, ◌++◌, min, length, take, drop, IfOk};
ghost use Rattle.pw_lists.specs.Samples.{silence};
ghost use Rattle.node_state.specs.Slices.{IsNoneOr};
ghost use Rattle.node_state.specs.working.Line.{turned};

use crate::rows::copy_front;
use pw_lists::{Items, Memory};
use std::alloc::Global;
use std::marker::Model;

/// A line of `long` frames: the first `size` samples of the ring, from `oldest` round to it. It is
/// as long as the delay, or as all the frames that are ever received where these are fewer: in
/// those a longer line gives nothing but silence either.
#[derive(Drop)]
pub(crate) struct DelayState {
    frames: u32,
    long: u32,
    ring: Items<i16>,
    size: usize,
    oldest: usize,
}

impl Model for DelayState {
    ghost use Rattle.std.specs.Prelude.{◌≤◌, length, take};
    ghost use Rattle.node_state.specs.working.Line.{Line, line_code, turned};

    ghost Value = { Line };

    ghost coded = { line_code };

    ghost view = { λ d. record {
      frames = d.frames;
      long = d.long;
      samples = turned d.oldest (take d.size d.ring);
      room = length d.ring;
    } };

    ghost invariant = { λ d. (d.size ≤ length d.ring) × (d.oldest ≤ d.size) };
}

// Writes the first samples of a ring, from the oldest on, and then those of the input, as many as
// there is place for.
fn read_ring(ring: &[i16], oldest: usize, a: &[i16], to: &mut [i16])
    requires within { oldest ≤ length ring.now }
    requires lengths { length to.old ≡ length a.now }
    ensures { to.new ≡ take (length to.old) (turned oldest ring.now ++ a.now) }
{
    let first = copy_front(&ring[oldest..], to);
    let second = copy_front(&ring[..oldest], &mut to[first..]);
    copy_front(a, &mut to[first + second..]);
}

// Puts an input that reaches over the end of a ring after its newest sample, over the oldest.
// Answers the place of the oldest then.
fn write_ring(ring: &mut [i16], oldest: usize, a: &[i16]) -> usize
    requires within { oldest ≤ length ring.old }
    requires over { length ring.old < oldest + length a.now }
    ensures within { result ≤ length ring.old }
    ensures line { turned result ring.new
        ≡ drop (length a.now) (turned oldest ring.old ++ a.now) }
{
    let size = ring.len();
    if a.len() >= size {
        ring.copy_from_slice(&a[a.len() - size..]);
        return 0;
    }
    let first = copy_front(a, &mut ring[oldest..]);
    copy_front(&a[first..], &mut ring[..oldest])
}

// One quantum that reaches over the end of a ring: the oldest samples to the output where it has a
// form, then the input into the ring. Answers the place of the oldest then.
#[inline(never)]
fn pass_round(ring: &mut [i16], oldest: usize, a: &[i16], to: &mut [i16]) -> usize
    requires within { oldest ≤ length ring.old }
    requires over { length ring.old < oldest + length a.now }
    requires output { IsNoneOr (length a.now) to.old }
    ensures within { result ≤ length ring.old }
    ensures output { to.new ≡ take (length to.old) (turned oldest ring.old ++ a.now) }
    ensures line { turned result ring.new
        ≡ drop (length a.now) (turned oldest ring.old ++ a.now) }
{
    if !to.is_empty() {
        read_ring(ring, oldest, a, to);
    }
    write_ring(ring, oldest, a)
}

// One quantum that ends before the end of a ring or at it: the input takes the place of the
// oldest samples.
fn pass(ring: &mut [i16], oldest: usize, a: &[i16], to: &mut [i16]) -> usize
    requires within { oldest + length a.now ≤ length ring.old }
    requires output { IsNoneOr (length a.now) to.old }
    ensures within { result ≤ length ring.old }
    ensures output { to.new ≡ take (length to.old) (turned oldest ring.old ++ a.now) }
    ensures line { turned result ring.new
        ≡ drop (length a.now) (turned oldest ring.old ++ a.now) }
{
    let end = oldest + a.len();
    let place = &mut ring[oldest..end];
    if !to.is_empty() {
        to.copy_from_slice(place);
    }
    place.copy_from_slice(a);
    end
}

// One quantum of the ring that the first `size` samples of a row are; the rest of the row stays.
fn pass_line(row: &mut [i16], size: usize, oldest: usize, a: &[i16], to: &mut [i16]) -> usize
    requires size { size ≤ length row.old }
    requires within { oldest ≤ size }
    requires output { IsNoneOr (length a.now) to.old }
    ensures within { result ≤ size }
    ensures output { to.new ≡ take (length to.old) (turned oldest (take size row.old) ++ a.now) }
    ensures line { turned result (take size row.new)
        ≡ drop (length a.now) (turned oldest (take size row.old) ++ a.now) }
{
    let ring = &mut row[..size];
    if a.len() <= size - oldest {
        pass(ring, oldest, a, to)
    } else {
        pass_round(ring, oldest, a, to)
    }
}

// Makes zeros of the first `size` samples of a row.
fn clear_line(row: &mut [i16], size: usize)
    requires { size ≤ length row.old }
    ensures { take size row.new ≡ silence size }
{
    row[..size].fill(0);
}

impl DelayState {
    /// A line of zeros for a delay of `frames` frames, of `channels` channels, to which `prepared`
    /// frames are given in all.
    pub(crate) fn new(
        alloc: Global,
        frames: u32,
        channels: u32,
        prepared: u64,
    ) -> Result<DelayState, Memory>
        requires channels { channels ≤ 8 }
        ensures { IfOk result (λ d. let long = min frames prepared in d ≡ record {
          frames = frames;
          long = long;
          samples = silence (long * channels);
          room = long * channels;
        }) }
    {
        let long = u64::from(frames).min(prepared) as u32;
        let size = long as usize * channels as usize;
        match Items::filled(alloc, size, 0) {
            Ok(ring) => Ok(DelayState {
                frames,
                long,
                ring,
                size,
                oldest: 0,
            }),
            Err(memory) => Err(memory),
        }
    }

    /// The oldest samples, as many as the input has, to the output where it has a form; then the
    /// input after the rest.
    #[inline(never)]
    pub(crate) fn process(&mut self, a: &[i16], left: &mut [i16])
        requires { IsNoneOr (length a.now) left.old }
        ensures left { left.new ≡ take (length left.old) (self.old.samples ++ a.now) }
        ensures line { self.new ≡ record self.old
            { samples = drop (length a.now) (self.old.samples ++ a.now) } }
    {
        self.oldest = pass_line(self.ring.as_mut_slice(), self.size, self.oldest, a, left);
    }

    /// A line of zeros again, of `channels` channels.
    pub(crate) fn clear(&mut self, channels: u32)
        requires { self.old.long * channels ≤ self.old.room }
        ensures { self.new ≡ record self.old { samples = silence (self.old.long * channels) } }
    {
        self.size = self.long as usize * channels as usize;
        self.oldest = 0;
        clear_line(self.ring.as_mut_slice(), self.size);
    }
}
