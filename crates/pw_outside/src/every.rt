//! A ticker that is due again and again.
ghost use Rattle.std.specs.Prelude.{◌≡◌, ℕ, ◌<◌, ◌≤◌, IsTrue, ◌↔◌};

use crate::ticker::Ticker;

/// Is due at each nth ask, as long as its count of checks is below 2^64 - 1.
#[derive(Debug, Drop)]
pub struct Every {
    period: u64,
    left: u64,
    ticks: u64,
}

impl Every {
    ghost use Rattle.pw_outside.specs.Every.{IsNewEvery};

    /// Due at each nth ask. Takes no memory.
    pub fn new(n: u64) -> Every
        requires { 1 ≤ n }
        ensures { IsNewEvery n result }
    {
        Every {
            period: n,
            left: n,
            ticks: 0,
        }
    }
}

impl Ticker for Every {
    ghost use Rattle.pw_outside.specs.Every.{asked};

    ghost ticks = { λ every. every.ticks };

    fn due(&mut self) -> bool
        ensures later { self.old.ticks ≤ self.new.ticks }
        ensures due { IsTrue result ↔ (self.old.ticks < self.new.ticks) }
        ensures next { self.new ≡ asked self.old }
    {
        if self.ticks == u64::MAX {
            return false;
        }
        if self.left > 1 {
            self.left -= 1;
            return false;
        }
        self.left = self.period;
        self.ticks += 1;
        true
    }
}
