//! What a run is of.
ghost use Rattle.std.specs.Prelude.{◌≡◌};

use pw_graph::Plan;
use pw_lists::Items;
use std::snapshot::Snapshot;
use wav_files::WavIn;

/// The plan and the waves that a loop runs, as contracts know it by. It has no bytes.
#[derive(Drop)]
pub struct RunModel {
    pub plan: Snapshot<Plan>,
    pub waves: Snapshot<Items<WavIn>>,
}

impl RunModel {
    /// The model of a run of a plan with its waves.
    pub fn of(plan: &Plan, waves: &Items<WavIn>) -> RunModel
        ensures plan { result.plan.value ≡ plan.now }
        ensures waves { result.waves.value ≡ waves.now }
    {
        RunModel {
            plan: Snapshot::of(plan),
            waves: Snapshot::of(waves),
        }
    }
}
