//! When a late check is due.
ghost use Rattle.std.specs.Prelude.{◌≡◌, ℕ, ◌<◌, ◌≤◌, Bool, IsTrue, ◌↔◌, ⊤};

/// Answers, when asked, whether a late check is due. Its count of checks never falls.
pub trait Ticker {
    ghost ticks: { Self → ℕ };

    /// What an answer says of the ticker before and after it. A caller that is generic in the ticker
    /// has it from a call of `due` alone: so a clause with it says that the ticker was asked.
    ghost answers: { Self → Bool → Self → Type 0 } = { λ _ _ _. ⊤ };

    /// Whether a check is due: exactly where the count grew in this call.
    fn due(&mut self) -> bool
        ensures answers { answers self.old result self.new }
        ensures later { ticks self.old ≤ ticks self.new }
        ensures due { IsTrue result ↔ (ticks self.old < ticks self.new) };
}

/// A ticker that is never due.
#[derive(Drop)]
pub struct Never;

impl Never {
    /// Takes no memory.
    pub fn new() -> Never {
        Never
    }
}

impl Ticker for Never {
    ghost ticks = { λ _. 0 };

    fn due(&mut self) -> bool {
        false
    }
}
