//! What a run by several threads is made of.
use pw_lists::Items;
use pw_outside::{Gate, Ticker};
use std::sync::Wait;

/// What a thread does with a member `M` of a run: it gives back `B`. All threads share the value.
pub trait Work<M, B> {
    ghost use Rattle.std.specs.Prelude.{◌≡◌, ℕ};

    ghost number_of: { M → ℕ };

    ghost can_start: { Self → M → Type 0 };

    ghost has_run: { M → B → Type 0 };

    /// The number of a member, by which its start may be refused.
    fn number(member: &M) -> u32
        ensures { result ≡ number_of member.now };

    /// All that a member does. It may wait.
    fn work<R: Wait, G: Gate>(&self, rt: &R, gate: &G, member: M) -> B
        requires { can_start self.now member }
        ensures { has_run member result };
}

/// A run by several threads. Each member runs in a thread of its own, unless it is held: it is
/// named, or its start was refused. The caller's thread leads, with those that are held.
pub trait Crew<M, B>: Work<M, B> {
    ghost use Rattle.std.specs.Prelude.{◌≡◌, ◌≤◌, ℕ, Bool, List, All, length};
    ghost use Rattle.crew_run.specs.Dealt.{AreDealt};

    /// What the caller's thread leads with, what it has then, and what the run ends with.
    type Lead: Drop;

    type Led: Drop;

    type Ended: Drop;

    ghost can_lead: { Self → Self.Lead → List M → Type 0 };

    ghost has_led: { Self → Self.Lead → List M → Self.Led → ℕ → ℕ → Type 0 };

    ghost has_ended: { Self → Self.Lead → List M → Self.Ended → ℕ → ℕ → Type 0 };

    /// What the caller's thread does, with the members that it holds, in their order. It may wait.
    fn lead<R: Wait, G: Gate, K: Ticker>(
        &self,
        rt: &R,
        gate: &G,
        lead: Self::Lead,
        held: Items<M>,
        ticker: &mut K,
    ) -> Self::Led
        requires leads { (members : List M) × can_lead self.now lead members
            × (length held ≤ length members) }
        requires held { All (Self.can_start self.now) held }
        ensures { has_led self.now lead held result (K.ticks ticker.old) (K.ticks ticker.new) };

    /// The end of the run, once all threads are joined: with what these gave back, in the order of
    /// their members, and for each member whether it was held. It may wait.
    fn collect<R: Wait, G: Gate>(
        &self,
        rt: &R,
        gate: &G,
        led: Self::Led,
        kept: Items<bool>,
        backs: Items<B>,
    ) -> Self::Ended
        requires { (lead : Self.Lead) × (members : List M) × (held : List M)
            × (m : ℕ) × (n : ℕ) × can_lead self.now lead members
            × has_led self.now lead held led m n
            × AreDealt Self.has_run members kept held backs }
        ensures { (lead : Self.Lead) (members held : List M) (m n : ℕ)
            → can_lead self.now lead members → has_led self.now lead held led m n
            → AreDealt Self.has_run members kept held backs
            → has_ended self.now lead members result m n };
}
