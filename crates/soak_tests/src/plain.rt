//! What the sink of a number's graph keeps, by plain loops from the definition of the graph. No
//! call of the engine is in it.
ghost use Rattle.std.specs.Prelude.{◌<◌};

use pw_lists::{Items, Memory};
use std::alloc::Global;

const MULTIPLIER: u64 = 6364136223846793005;

const INCREMENT: u64 = 1442695040888963407;

// The frames of a source's file, and those of the run: 306 cycles of 256.
const FILE: usize = 65536;

const RUN: usize = 78336;

// The frames in which one of the sources is off: 50 cycles from the 100th on.
const OFF: usize = 25600;

const ON: usize = 38400;

/// What the sink keeps, the sum of its samples, and the greatest absolute value of them.
#[derive(Drop)]
pub(crate) struct Played {
    pub samples: Items<i32>,
    pub sum: i64,
    pub peak: u32,
}

// The next draw: a number below `n`.
fn draw(state: &mut u64, n: u32) -> u32
    requires { 0 < n }
    ensures { result < n }
{
    *state = state.wrapping_mul(MULTIPLIER).wrapping_add(INCREMENT);
    ((*state >> 33) % u64::from(n)) as u32
}

// The chain whose source is off for a while: the draw after all those of the eight chains.
fn off_chain(number: u32) -> u32 {
    let mut state = u64::from(number);
    for _ in 0..8 * (FILE + 2) {
        draw(&mut state, 1);
    }
    draw(&mut state, 8)
}

// The file of a source.
fn drawn_file(alloc: Global, state: &mut u64) -> Result<Items<i32>, Memory> {
    let mut file = Items::new(alloc);
    for _ in 0..FILE {
        file.push(draw(state, 65536) as i32 - 32768)?;
    }
    Ok(file)
}

// What a source gives in a frame of the run.
fn given(file: &[i32], frame: usize, goes_off: bool) -> i32 {
    let mut at = frame;
    if goes_off && frame >= OFF {
        if frame < ON {
            return 0;
        }
        at = frame - (ON - OFF);
    }
    match file.get(at) {
        Some(sample) => *sample,
        None => 0,
    }
}

// A sample of 16 bits, or the nearest.
fn clamped(sample: i32) -> i32 {
    sample.clamp(-32768, 32767)
}

// A chain is added: its source, times the gain in 1/256, `delay` frames later.
fn add_chain(sum: &mut [i32], file: &[i32], gain: i32, delay: u32, goes_off: bool) {
    for frame in 0..sum.len() {
        if let Some(before) = frame.checked_sub(delay as usize) {
            let sample = given(file, before, goes_off).wrapping_mul(gain) >> 8;
            sum[frame] = sum[frame].wrapping_add(clamped(sample));
        }
    }
}

// The sum of all chains, before it is clamped.
fn added(alloc: Global, number: u32) -> Result<Items<i32>, Memory> {
    let off = off_chain(number);
    let mut state = u64::from(number);
    let mut sum = Items::filled(alloc, RUN, 0)?;
    for chain in 0..8 {
        let file = drawn_file(alloc, &mut state)?;
        let gain = draw(&mut state, 513) as i32 - 256;
        let delay = draw(&mut state, 1025);
        add_chain(
            sum.as_mut_slice(),
            file.as_slice(),
            gain,
            delay,
            chain == off,
        );
    }
    Ok(sum)
}

/// What the sink of a number's graph keeps: the chains' sum, clamped.
pub(crate) fn fold_of(alloc: Global, number: u32) -> Result<Played, Memory> {
    let mut samples = added(alloc, number)?;
    let mut sum = 0i64;
    let mut peak = 0;
    for sample in samples.as_mut_slice() {
        *sample = clamped(*sample);
        sum = sum.wrapping_add(i64::from(*sample));
        peak = sample.unsigned_abs().max(peak);
    }
    Ok(Played { samples, sum, peak })
}
