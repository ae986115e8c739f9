//! A plan of a script's text, with the waves of its sources.
ghost use Rattle.std.specs.Prelude.{All, IfOk, IfSome};
ghost use Rattle.script_inputs.specs.Inputs.{HasForm};
ghost use Rattle.plan_support.specs.Work.{CanRun};

use crate::ready::{Ready, TextFault, ready_of};
use graph_plan::plan;
use pw_graph::Plan;
use pw_lists::{Items, Memory};
use script_inputs::Inputs;
use std::alloc::Global;
use wav_files::{Wav, WavIn};

/// A script, and the samples of its source, of one channel or two at 48000 frames a second. With 0
/// channels there is no source.
#[derive(Clone, Copy, Drop)]
pub struct WorkRow<'a> {
    pub text: &'a str,
    pub channels: u32,
    pub samples: &'a [i16],
}

/// A plan, and a wave for each of its sources.
#[derive(Drop)]
pub struct Work {
    pub plan: Plan,
    pub waves: Items<WavIn>,
}

// The wave of the source, or none where it has no channels.
fn waves_of(alloc: Global, row: WorkRow<'_>) -> Result<Items<Wav>, Memory>
    ensures { IfOk result (All HasForm) }
{
    let mut waves = Items::new(alloc);
    if row.channels == 1 || row.channels == 2 {
        waves.push(Wav {
            rate: 48_000,
            channels: row.channels,
            samples: Items::from_slice(alloc, row.samples)?,
        })?;
    }
    Ok(waves)
}

// The plan of a row with its wave, or the cause that there is none.
fn planned(alloc: Global, row: WorkRow<'_>) -> Result<Work, TextFault>
    ensures { IfOk result (λ work. CanRun work.plan work.waves) }
{
    let waves = waves_of(alloc, row)?;
    let Ready { script, inputs } = ready_of(alloc, row.text, waves)?;
    let Inputs { ports, waves } = inputs;
    let plan = plan(alloc, &script, &waves, ports)?;
    Ok(Work { plan, waves })
}

/// The plan of a row with its wave. None where its text has no plan with it.
pub fn work_of(alloc: Global, row: WorkRow<'_>) -> Option<Work>
    ensures { IfSome result (λ work. CanRun work.plan work.waves) }
{
    planned(alloc, row).ok()
}
