//! What a script is whose parts have plans of their own: the script, its waves and its parts.
#![tactic(auto, using(crate::proofs::AllowedLemmas::parts))]

ghost use Rattle.std.specs.Prelude.{◌≡◌, None};
ghost use Rattle.graph_script.specs.Kinds.{HasKinds};
ghost use Rattle.graph_script.specs.Making.{NamesMade};
ghost use Rattle.graph_script.specs.Ranges.{HasRanges};
ghost use Rattle.command_frame.specs.Preparing.{LoadsOnly};
ghost use Rattle.pw_top.specs.working.Ending.{Ends, CommandCause, Tells};
ghost use Rattle.pw_top.specs.Groups.{PartsInputs, PartsFile, CanBeGrouped};
ghost use Rattle.pw_top.specs.PlanInputs.{AreInputsOf};
ghost use Rattle.pw_top.specs.ScriptFound.{end_of, IsScriptUnder};

use crate::inputs::PlanInputs;
use crate::loaded_script::{LoadedScript, load_script};
use graph_plan::{PlanFault, parts};
use graph_script::Script;
use pw_graph::Parts;
use pw_lists::{Items, Text};
use pw_outside::Files;
use run_results::Status;
use std::alloc::Global;
use wav_files::WavIn;

/// A script with the waves of its sources, and its parts with their plans.
#[derive(Drop)]
pub struct Parted {
    pub script: Script,
    pub waves: Items<WavIn>,
    pub parts: Parts,
}

// Plans the parts of a script, whose files are loaded.
fn parts_inputs(alloc: Global, script: Script, inputs: PlanInputs) -> Result<Parted, Status>
    requires ranges { HasRanges script }
    requires kinds { HasKinds script }
    requires made { NamesMade 0 script.lines }
    requires inputs { AreInputsOf script.lines inputs }
    ensures done { Ends (PartsInputs script inputs) result }
    ensures cause { CommandCause CanBeGrouped 0 0 result }
{
    let PlanInputs { ports, waves, .. } = inputs;
    match parts(alloc, &script, &waves, ports) {
        Err(PlanFault::Limit { line, which }) => Err(Status::Limit { place: line, which }),
        Err(PlanFault::Memory) => Err(Status::Memory),
        Ok(parts) => Ok(Parted {
            script,
            waves,
            parts,
        }),
    }
}

/// The parts of the script of a file, whose lines' files are loaded. The bytes of the script are
/// left in `source`.
pub fn parts_file<F: Files>(
    alloc: Global,
    files: &mut F,
    script: &Text,
    source: &mut Option<Text>,
) -> Result<Parted, Status>
    requires none { source.old ≡ None }
    ensures files { LoadsOnly (F.held files.old) (F.held files.new) (F.load_faults files.old)
        (F.load_faults files.new) (F.store_faults files.old) (F.store_faults files.new) }
    ensures told { Tells (F.held files.old) (λ names. PartsFile names script.now) result }
    ensures source { IsScriptUnder (F.held files.old) script.now (end_of result) source.new }
    ensures cause { CommandCause CanBeGrouped (F.load_faults files.old)
        (F.load_faults files.new) result }
{
    match load_script(alloc, files, script, source) {
        Err(status) => Err(status),
        Ok(LoadedScript { script, inputs }) => parts_inputs(alloc, script, inputs),
    }
}
