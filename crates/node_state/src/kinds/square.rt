//! A square wave keeps its place in its period.
ghost use Rattle.std.specs.Prelude.{◌≡◌, ◌+◌, ◌*◌, ◌%◌, ◌<◌, ◌≤◌, ℕ, length, take, pos, ◌≤ℤ◌};
ghost use Rattle.pw_lists.specs.Samples.{of_frames};
ghost use Rattle.pw_graph.specs.KindFunction.{square_at};
ghost use Rattle.pw_graph.specs.SoundShape.{IsBetween};
ghost use Rattle.pw_graph.specs.KindRanges.{IsChannels};
ghost use Rattle.pw_lists.specs.Limits.{quantum_limit};
ghost use Rattle.node_state.specs.Slices.{IsNoneOr};

/// The numbers of a square wave. The rate says when a frame is played; no sample depends on it.
#[derive(Drop)]
pub(crate) struct SquareWave {
    pub(crate) rate: u32,
    pub(crate) channels: u32,
    pub(crate) period: u32,
    pub(crate) amp: i32,
    ghost channels_range: { IsChannels channels },
    ghost period_range: { IsBetween 1 1000000 period },
    ghost least: { pos 0 ≤ℤ amp },
    ghost greatest: { amp ≤ℤ pos 32767 },
}

/// The wave, and the place in its period of the next frame.
#[derive(Drop)]
pub(crate) struct SquareState {
    pub(crate) wave: SquareWave,
    pub(crate) phase: u32,
    ghost within: { phase < wave.period },
}

impl SquareWave {
    // The sample of a frame by its place in the period, and the place at which the next run of
    // equal samples begins.
    fn run_at(&self, phase: u32) -> (i16, u32)
        requires { phase < self.now.period }
        ensures value { (i : ℕ) → phase ≤ i → i < result.1
            → square_at self.now.period self.now.amp i ≡ result.0 }
        ensures some { phase < result.1 }
        ensures within { result.1 ≤ self.now.period }
    {
        let half = self.period.div_ceil(2);
        if phase < half {
            (self.amp as i16, half)
        } else {
            (-self.amp as i16, self.period)
        }
    }

    // A place at most at the end of the period, counted anew from there.
    fn wrapped(&self, place: u32) -> u32
        requires { place ≤ self.now.period }
        ensures { result ≡ place % self.now.period }
    {
        if place == self.period { 0 } else { place }
    }

    // Writes `frames` frames from a place in the period on, run by run.
    fn write(&self, phase: u32, frames: usize, to: &mut [i16])
        requires phase { phase < self.now.period }
        requires lengths { length to.old ≡ frames * self.now.channels }
        ensures { to.new ≡ of_frames frames self.now.channels
            (λ i j. square_at self.now.period self.now.amp (phase + i)) }
    {
        let channels = self.channels as usize;
        let mut place = phase;
        let mut done = 0;
        while done < frames {
            let (sample, end) = self.run_at(place);
            let run = (frames - done).min((end - place) as usize);
            to[done * channels..(done + run) * channels].fill(sample);
            done += run;
            place = self.wrapped(end);
        }
    }
}

impl SquareState {
    /// A wave before its first frame.
    pub(crate) fn new(rate: u32, channels: u32, period: u32, amp: i32) -> SquareState
        requires channels { IsChannels channels }
        requires period { IsBetween 1 1000000 period }
        requires least { pos 0 ≤ℤ amp }
        requires greatest { amp ≤ℤ pos 32767 }
        ensures wave { (result.wave.rate ≡ rate) × (result.wave.channels ≡ channels) }
        ensures shape { (result.wave.period ≡ period) × (result.wave.amp ≡ amp) }
        ensures start { result.phase ≡ 0 }
    {
        let wave = SquareWave {
            rate,
            channels,
            period,
            amp,
        };
        SquareState { wave, phase: 0 }
    }

    /// The next frames of the wave, where the output has a form. Those of one quantum pass in any
    /// case.
    pub(crate) fn process(&mut self, quantum: u32, left: &mut [i16])
        requires quantum { quantum ≤ quantum_limit }
        requires output { IsNoneOr (quantum * self.old.wave.channels) left.old }
        ensures left { left.new
            ≡ take (length left.old)
            (of_frames quantum self.old.wave.channels
            (λ i j. square_at self.old.wave.period self.old.wave.amp (self.old.phase + i))) }
        ensures phase { self.new.phase ≡ (self.old.phase + quantum) % self.old.wave.period }
        ensures same { self.new.wave ≡ self.old.wave }
    {
        if !left.is_empty() {
            self.wave.write(self.phase, quantum as usize, left);
        }
        self.phase = (self.phase + quantum) % self.wave.period;
    }
}
