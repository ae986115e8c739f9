//! A meter keeps the greatest absolute value of its stream.
ghost use Rattle.std.specs.Prelude.{◌≡◌, max};
ghost use Rattle.pw_lists.specs.Samples.{peak_of};

/// The greatest absolute value so far, 0 to 32768.
#[derive(Drop)]
pub(crate) struct MeterState {
    pub(crate) peak: u32,
}

impl MeterState {
    /// No sample so far.
    pub(crate) fn new() -> MeterState
        ensures { result ≡ record { peak = 0 } }
    {
        MeterState { peak: 0 }
    }

    /// Raises the peak to that of the input.
    pub(crate) fn process(&mut self, a: &[i16])
        ensures { self.new.peak ≡ max self.old.peak (peak_of a.now) }
    {
        self.peak = self.peak.max(s16_mixer::peak(a));
    }
}
