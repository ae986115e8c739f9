//! The samples that a sink stored, and how many of them are at a limit.
ghost use Rattle.std.specs.Prelude.{◌≡◌, ◌<◌, ◌^◌, length, option_copied};
ghost use Rattle.fault_messages.specs.SinkWaves.{samples_in, samples_at, is_at_limit, at_limit};

use run_results::{Content, Store};

/// So many samples are counted at once.
const FEW_SAMPLES: usize = 32_768;

// The samples of what was stored, where it is a wave.
fn samples_in(content: &Content) -> Option<&[i16]>
    ensures { option_copied result ≡ samples_in content.now }
{
    match content {
        Content::Bytes(_bytes) => None,
        Content::Wave(wav) => Some(wav.samples.as_slice()),
    }
}

/// The samples that the sink of the line of this number stored; none where it had no format.
pub fn samples_at(stores: &[Store], number: u32) -> Option<&[i16]>
    ensures { option_copied result ≡ samples_at stores.now number }
{
    let mut rest = stores;
    while let [store, more @ ..] = rest {
        if store.place == number {
            return samples_in(&store.content);
        }
        rest = more;
    }
    None
}

// Whether a sample is at a limit of 16 bits.
fn is_at_limit(sample: i16) -> bool
    ensures { result ≡ is_at_limit sample }
{
    i16::MAX <= sample || sample <= i16::MIN
}

// How many of few samples are at a limit, counted in as many bits as a sample has.
fn few_at_limit(samples: &[i16]) -> u16
    requires { length samples.now < 2 ^ 16 }
    ensures { result ≡ at_limit samples.now }
{
    let mut count: u16 = 0;
    for sample in samples {
        count += u16::from(is_at_limit(*sample));
    }
    count
}

/// How many samples are at a limit of 16 bits. Cost: one look at each.
#[tactic(auto, using(crate::proofs::WaveLemmas::in_parts, crate::proofs::WaveLemmas::not_more))]
pub fn at_limit(samples: &[i16]) -> u64
    ensures { result ≡ at_limit samples.now }
{
    let mut count: u64 = 0;
    let mut rest = samples;
    while FEW_SAMPLES < rest.len() {
        let (few, more) = rest.split_at(FEW_SAMPLES);
        count += u64::from(few_at_limit(few));
        rest = more;
    }
    count + u64::from(few_at_limit(rest))
}
