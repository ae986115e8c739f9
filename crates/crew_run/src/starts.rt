//! Whose start is refused, beside those that the system refuses.

/// Says of each member that is to be started whether its start is refused, as by a system that can
/// make no thread more. So a run can be tried with refused starts.
pub trait Starts {
    ghost use Rattle.std.specs.Prelude.{◌≡◌, ℕ, Bool};

    ghost refused: { Self → ℕ → Bool };

    /// Whether the start of the member of this number is refused.
    fn refuses(&self, number: u32) -> bool
        ensures { result ≡ refused self.now number };
}

/// No start is refused but by the system.
#[derive(Drop)]
pub struct AnyStarts;

impl AnyStarts {
    /// Takes no memory.
    pub fn new() -> AnyStarts {
        AnyStarts
    }
}

impl Starts for AnyStarts {
    ghost use Rattle.std.specs.Prelude.{false};

    ghost refused = { λ _ _. false };

    fn refuses(&self, _number: u32) -> bool {
        false
    }
}
