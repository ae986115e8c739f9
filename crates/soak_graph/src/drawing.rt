//! All that is drawn for a number, chain after chain.
ghost use Rattle.std.specs.Prelude.{◌≡◌, ◌<◌, IfOk};
ghost use Rattle.soak_graph.specs.working.Drawing.{chain, HasDrawn};
ghost use Rattle.soak_graph.specs.Draws.{state_after, samples};
ghost use Rattle.soak_graph.specs.SoakChains.{chains, frames, chain_draws, wave_with};

use crate::draws::Draws;
use pw_lists::{Items, Memory};
use std::alloc::Global;
use wav_files::{Wav, WavIn};

/// The chains of the graph.
pub(crate) const CHAINS: u32 = 8;

/// The frames of a source.
const FRAMES: usize = 65536;

/// The numbers of a chain.
#[derive(Drop)]
pub(crate) struct Chain {
    /// In 1/256, -256 to 256.
    pub gain: i32,
    /// Frames, 0 to 1024.
    pub delay: u32,
}

/// What is drawn for a number.
#[derive(Drop)]
pub(crate) struct Drawn {
    pub number: u32,
    pub chains: Items<Chain>,
    /// The chain whose source goes off.
    pub off: u32,
    /// One for the source of each chain.
    pub waves: Items<WavIn>,
}

// The wave of a chain with these samples.
fn wave_with(i: u32, samples: Items<i16>) -> WavIn
    requires { i < chains }
    ensures { result ≡ wave_with i samples }
{
    WavIn {
        node: 3 * i,
        wav: Wav {
            rate: 48000,
            channels: 1,
            samples,
        },
    }
}

// The wave and the numbers of the next chain, which is this one.
#[tactic(auto, using(crate::proofs::DrawLemmas::steps_join, crate::proofs::DrawLemmas::draw_later))]
fn draw_chain(alloc: Global, draws: &mut Draws, i: u32) -> Result<(WavIn, Chain), Memory>
    requires { i < chains }
    ensures wave { IfOk result (λ r. r.0 ≡ wave_with i (samples draws.old.state 0 frames)) }
    ensures chain { IfOk result (λ r. r.1 ≡ chain draws.old.state 0) }
    ensures draws { IfOk result
        (λ r. draws.new.state ≡ state_after chain_draws draws.old.state) }
{
    let samples = draws.samples(alloc, FRAMES)?;
    let gain = draws.draw(513) as i32 - 256;
    let delay = draws.draw(1025);
    Ok((wave_with(i, samples), Chain { gain, delay }))
}

/// Draws all for a number. Takes memory for 1048576 bytes of samples, and time in proportion.
#[tactic(auto, using(crate::proofs::DrawLemmas::no_step, crate::proofs::DrawLemmas::draw_later))]
pub(crate) fn draw_graph(alloc: Global, number: u32) -> Result<Drawn, Memory>
    ensures number { IfOk result (λ drawn. drawn.number ≡ number) }
    ensures drawn { IfOk result HasDrawn }
{
    let mut draws = Draws::new(number);
    let mut chains = Items::new(alloc);
    let mut waves = Items::new(alloc);
    for i in 0..CHAINS {
        let (wave, chain) = draw_chain(alloc, &mut draws, i)?;
        waves.push(wave)?;
        chains.push(chain)?;
    }
    let off = draws.draw(CHAINS);
    Ok(Drawn {
        number,
        chains,
        off,
        waves,
    })
}
