//! The ticker that words ask for.
ghost use Rattle.std.specs.Prelude.{◌≡◌, ℕ, ◌≤◌};

use pw_outside::{Every, Ticker};
use std::marker::{Brand, PhantomData};

/// The ticker of a run, as the run left it.
#[derive(Drop)]
pub enum Asked {
    /// The words ask for none.
    Never,
    Every(Every),
}

/// The asks from one late check to the next. Only contracts see it.
pub(crate) trait Asks {
    ghost period: { ℕ };
}

impl Asks for Brand {
    ghost period = { 0 };
}

/// A ticker that keeps its period, whoever asks it.
pub(crate) struct Nth<P: Asks> {
    every: Every,
    at: PhantomData<P>,
    ghost tied: { ∥ every.period ≡ P.period ∥₁ },
}

impl<P: Asks> Nth<P> {
    /// Due at each nth ask.
    pub(crate) fn new(n: u64) -> Nth<P>
        requires some { 1 ≤ n }
        requires period { P.period ≡ n }
        ensures { result.every.ticks ≡ 0 }
    {
        Nth {
            every: Every::new(n),
            at: PhantomData,
        }
    }

    /// The ticker, after all asks.
    pub(crate) fn into_every(self) -> Every
        ensures every { result ≡ self.every }
        ensures period { result.period ≡ P.period }
    {
        let Nth { every, at: _at } = self;
        every
    }
}

impl<P: Asks> Ticker for Nth<P> {
    ghost ticks = { λ nth. nth.every.ticks };

    fn due(&mut self) -> bool {
        self.every.due()
    }
}
