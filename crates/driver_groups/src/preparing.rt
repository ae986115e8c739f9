//! All that the runs of parts take, before the first cycle.
ghost use Rattle.std.specs.Prelude.{◌≡◌, ◌≤◌, ◌^◌, All, IfOk, IfSome, IfNone};
ghost use Rattle.pw_graph.specs.SoundPlan.{IsSoundPlan};
ghost use Rattle.cycle_model.specs.WavesFit.{WavesFit};
ghost use Rattle.driver_groups.specs.working.Groups.{ArePrepared, IsRunOfPart, epochs_of};

use crate::crew::PlacedRun;
use graph_run::prepare_alone;
use pw_graph::Part;
use pw_lists::{Items, Memory};
use std::alloc::Global;
use wav_files::WavIn;

// The run of a part, before the first cycle, with its place.
fn prepare_one(
    alloc: Global,
    part: &Part,
    waves: &Items<WavIn>,
    place: u32,
) -> Result<PlacedRun, Memory>
    requires sound { IsSoundPlan part.now.plan }
    requires fit { WavesFit part.now.plan waves.now }
    ensures run { IfOk result (λ r. IsRunOfPart waves.now part.now r.run) }
    ensures place { IfOk result (λ r. r.place ≡ place) }
{
    let run = prepare_alone(alloc, &part.plan, waves)?;
    Ok(PlacedRun { place, run })
}

/// The runs of all parts but the first, before the first cycle, with their places from 1 on.
/// `Memory` also where a place does not fit.
pub(crate) fn prepare_all(
    alloc: Global,
    parts: &[Part],
    waves: &Items<WavIn>,
) -> Result<Items<PlacedRun>, Memory>
    requires sound { All (λ p. IsSoundPlan p.plan) parts.now }
    requires fit { All (λ p. WavesFit p.plan waves.now) parts.now }
    ensures { IfOk result (ArePrepared waves.now parts.now) }
{
    let mut runs = Items::new(alloc);
    let mut place = 0u32;
    for part in parts {
        place = place.checked_add(1).ok_or(Memory)?;
        runs.push(prepare_one(alloc, part, waves, place)?)?;
    }
    Ok(runs)
}

/// How many epochs all parts have, where their number fits.
pub(crate) fn count_epochs(parts: &[Part]) -> Option<usize>
    ensures some { IfSome result (λ n. n ≡ epochs_of parts.now) }
    ensures none { IfNone result (2 ^ 64 ≤ epochs_of parts.now) }
{
    let mut sum = 0usize;
    for part in parts {
        sum = sum.checked_add(part.plan.epochs.len())?;
    }
    Some(sum)
}
