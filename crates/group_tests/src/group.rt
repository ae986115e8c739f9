//! Parts with their plans, made of the texts of their scripts.
ghost use Rattle.std.specs.Prelude.{All, IfSome};
ghost use Rattle.pw_graph.specs.SoundPlan.{IsSoundPlan};
ghost use Rattle.cycle_model.specs.WavesFit.{WavesFit};
ghost use Rattle.group_tests.specs.Groups.{CanRunAll};

use cycle_model::waves_fit;
use plan_support::{Silence, plan_text};
use pw_graph::{Part, Plan};
use pw_lists::{Items, Memory};
use std::alloc::Global;
use wav_files::{Wav, WavIn};

/// The script of each part, and the samples of its sources, which are mono: nodes 0, 1 and so on.
#[derive(Clone, Copy, Drop)]
pub struct GroupRow<'a> {
    pub texts: &'a [&'a str],
    pub sources: &'a [&'a [i16]],
}

/// Parts, and a wave for each source.
#[derive(Drop)]
pub struct Group {
    pub parts: Items<Part>,
    pub waves: Items<WavIn>,
}

// The waves of the first nodes.
fn waves_of(alloc: Global, sources: &[&[i16]]) -> Result<Items<WavIn>, Memory> {
    let mut waves = Items::new(alloc);
    for source in sources {
        let wav = Wav {
            rate: 48000,
            channels: 1,
            samples: Items::from_slice(alloc, source)?,
        };
        waves.push(WavIn {
            node: u32::try_from(waves.len()).unwrap_or(u32::MAX),
            wav,
        })?;
    }
    Ok(waves)
}

// How long they are.
fn lengths_of(alloc: Global, sources: &[&[i16]]) -> Result<Items<Silence>, Memory> {
    let mut lengths = Items::new(alloc);
    for source in sources {
        lengths.push(Silence::Mono {
            frames: u32::try_from(source.len()).unwrap_or(u32::MAX),
        })?;
    }
    Ok(lengths)
}

// The plan of a part, if it has one that the waves fit.
fn plan_of(alloc: Global, text: &str, lengths: &[Silence], waves: &Items<WavIn>) -> Option<Plan>
    ensures sound { IfSome result IsSoundPlan }
    ensures fit { IfSome result (λ plan. WavesFit plan waves.now) }
{
    let Ok(plan) = plan_text(alloc, text, lengths) else {
        return None;
    };
    if waves_fit(&plan, waves) {
        Some(plan)
    } else {
        None
    }
}

// The parts of all texts, if each has a plan.
fn parts_of(
    alloc: Global,
    texts: &[&str],
    lengths: &[Silence],
    waves: &Items<WavIn>,
) -> Option<Items<Part>>
    ensures { IfSome result (λ parts. CanRunAll parts waves.now) }
{
    let mut parts = Items::new(alloc);
    for text in texts {
        let plan = plan_of(alloc, text, lengths, waves)?;
        let part = Part {
            nodes: Items::new(alloc),
            plan,
        };
        match parts.push(part) {
            Ok(()) => (),
            Err(_memory) => return None,
        }
    }
    Some(parts)
}

/// The parts of a row. None where a text has no plan, or the waves do not fit it.
pub fn group_of(alloc: Global, row: GroupRow<'_>) -> Option<Group>
    ensures { IfSome result (λ group. CanRunAll group.parts group.waves) }
{
    let Ok(waves) = waves_of(alloc, row.sources) else {
        return None;
    };
    let Ok(lengths) = lengths_of(alloc, row.sources) else {
        return None;
    };
    let parts = parts_of(alloc, row.texts, lengths.as_slice(), &waves)?;
    Some(Group { parts, waves })
}
