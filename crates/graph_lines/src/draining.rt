//! How many cycles a `drain` line has.
ghost use Rattle.std.specs.Prelude.{◌≡◌, ◌≤◌, max, All};
ghost use Rattle.graph_lines.specs.Activity.{standing};
ghost use Rattle.graph_lines.specs.Draining.{frames_of, rest_cycles, drain_cycles};

use crate::shaping::is_in;
use crate::standing::Standing;
use pw_lists::Items;
use wav_files::WavIn;

// The frames of a wave.
fn frames_of(wave: &WavIn) -> u64
    requires { 1 ≤ wave.now.wav.channels }
    ensures { result ≡ frames_of wave.now }
{
    (wave.wav.samples.len() / wave.wav.channels as usize) as u64
}

// How many cycles a node was active in.
fn cycles_of(nodes: &[Standing], node: u32) -> u32
    ensures { result ≡ (standing nodes.now node).ran }
{
    match nodes.get(node as usize) {
        Some(standing) => standing.ran,
        None => 0,
    }
}

// How many more cycles a source needs.
fn rest_cycles(quantum: u32, nodes: &[Standing], wave: &WavIn) -> u64
    requires quantum { 1 ≤ quantum }
    requires channels { 1 ≤ wave.now.wav.channels }
    ensures { result ≡ rest_cycles quantum nodes.now wave.now }
{
    let given = u64::from(quantum) * u64::from(cycles_of(nodes, wave.node));
    frames_of(wave)
        .saturating_sub(given)
        .div_ceil(u64::from(quantum))
}

// The greater of two numbers.
fn greater(a: u64, b: u64) -> u64
    ensures { result ≡ max a b }
{
    a.max(b)
}

/// How many cycles it takes until each active source has given all its frames, a quantum in each
/// cycle; 0 without one.
/// Of each number `active` says whether that node is active. Takes no memory; cost: one look at
/// each wave.
pub fn drain_cycles(quantum: u32, nodes: &[Standing], active: &[bool], waves: &Items<WavIn>) -> u64
    requires quantum { 1 ≤ quantum }
    requires channels { All (λ w. 1 ≤ w.wav.channels) waves.now }
    ensures { result ≡ drain_cycles quantum nodes.now active.now waves.now }
{
    let mut most = 0;
    for wave in waves.as_slice() {
        if is_in(active, wave.node) {
            most = greater(most, rest_cycles(quantum, nodes, wave));
        }
    }
    most
}
