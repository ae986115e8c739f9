//! Draws from a linear congruential generator modulo 2^64, with the constants of Knuth's MMIX.
ghost use Rattle.std.specs.Prelude.{◌≡◌, ◌<◌, ℤ, pos, ◌-ℤ◌, IfOk};
ghost use Rattle.soak_graph.specs.Draws.{stepped, state_after, draw, samples};

use pw_lists::{Items, Memory};
use std::alloc::Global;

const MULTIPLIER: u64 = 6364136223846793005;

const INCREMENT: u64 = 1442695040888963407;

/// The generator: the state after the draws so far.
#[derive(Drop)]
pub(crate) struct Draws {
    state: u64,
}

// The state after one more step.
fn stepped(x: u64) -> u64
    ensures { result ≡ stepped x }
{
    x.wrapping_mul(MULTIPLIER).wrapping_add(INCREMENT)
}

// A number below 65536 as a sample.
fn sample_of(n: u32) -> i16
    requires { n < 65536 }
    ensures { result ≡ pos n -ℤ pos 32768 }
{
    (n as i32 - 32768) as i16
}

impl Draws {
    /// Before the first draw of a number.
    pub(crate) fn new(number: u32) -> Draws
        ensures { result.state ≡ number }
    {
        Draws {
            state: u64::from(number),
        }
    }

    /// The next draw: a number below `n`.
    #[tactic(auto, using(crate::proofs::DrawLemmas::one_step))]
    pub(crate) fn draw(&mut self, n: u32) -> u32
        requires { 0 < n }
        ensures value { result ≡ draw self.old.state 0 n }
        ensures below { result < n }
        ensures state { self.new.state ≡ state_after 1 self.old.state }
    {
        self.state = stepped(self.state);
        ((self.state >> 33) % u64::from(n)) as u32
    }

    /// The next `count` draws as samples.
    pub(crate) fn samples(&mut self, alloc: Global, count: usize) -> Result<Items<i16>, Memory>
        ensures list { IfOk result (λ list. list ≡ samples self.old.state 0 count) }
        ensures state { IfOk result (λ list. self.new.state ≡ state_after count self.old.state) }
    {
        let mut room = Items::new(alloc).into_room(count)?;
        for _ in 0..count {
            room.push_spare(sample_of(self.draw(65536)));
        }
        Ok(room.into_items())
    }
}
