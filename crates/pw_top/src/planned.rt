//! What a script is once all its files are loaded: the script, its waves and its plan.
#![tactic(auto, using(crate::proofs::AllowedLemmas::parts))]

ghost use Rattle.std.specs.Prelude.{◌≡◌, ◌≤◌, None, IfOk};
ghost use Rattle.cycle_trace.specs.TraceReading.{AreNames};
ghost use Rattle.graph_script.specs.Kinds.{HasKinds};
ghost use Rattle.graph_script.specs.Making.{NamesMade};
ghost use Rattle.graph_script.specs.Ranges.{HasRanges};
ghost use Rattle.graph_plan.specs.Conditions.{AreScriptPorts, HaveWaves};
ghost use Rattle.command_frame.specs.Preparing.{LoadsOnly};
ghost use Rattle.pw_top.specs.working.Ending.{Ends, CommandCause, Tells};
ghost use Rattle.pw_top.specs.ScriptFile.{PlansFile};
ghost use Rattle.pw_top.specs.ScriptFound.{end_of, IsScriptUnder};
ghost use Rattle.pw_top.specs.PlanInputs.{AreInputsOf};
ghost use Rattle.pw_top.specs.working.Playable.{IsPlayable};
ghost use Rattle.pw_top.specs.PlannedWork.{PlansPorts, PlansInputs};

use crate::inputs::PlanInputs;
use crate::loaded_script::{LoadedScript, load_script};
use graph_plan::{PlanFault, plan};
use graph_script::Script;
use port_model::Ports;
use pw_graph::Plan;
use pw_lists::{Items, Text};
use pw_outside::Files;
use run_results::Status;
use std::alloc::Global;
use wav_files::WavIn;

/// A script with its ports as they were before its first line, the waves of its sources, and its
/// plan.
#[derive(Drop)]
pub struct Planned {
    pub script: Script,
    pub ports: Ports,
    pub waves: Items<WavIn>,
    pub plan: Plan,
}

/// The plan of a script from its ports and waves. The ports are copied: a plan takes them.
pub fn plan_ports(
    alloc: Global,
    script: Script,
    waves: Items<WavIn>,
    ports: Ports,
) -> Result<Planned, Status>
    requires ranges { HasRanges script }
    requires kinds { HasKinds script }
    requires made { NamesMade 0 script.lines }
    requires ports { AreScriptPorts script.lines ports }
    requires waves { HaveWaves ports waves }
    ensures done { Ends (PlansPorts script ports waves) result }
    ensures cause { CommandCause IsPlayable 0 0 result }
    ensures script { IfOk result (λ planned. planned.script ≡ script) }
{
    match ports.copy(alloc) {
        Err(_memory) => Err(Status::Memory),
        Ok(kept) => match plan(alloc, &script, &waves, ports) {
            Err(PlanFault::Limit { line, which }) => Err(Status::Limit { place: line, which }),
            Err(PlanFault::Memory) => Err(Status::Memory),
            Ok(plan) => Ok(Planned {
                script,
                ports: kept,
                waves,
                plan,
            }),
        },
    }
}

/// Plans the script, whose files are loaded.
pub fn plan_inputs(alloc: Global, script: Script, inputs: PlanInputs) -> Result<Planned, Status>
    requires ranges { HasRanges script }
    requires kinds { HasKinds script }
    requires made { NamesMade 0 script.lines }
    requires inputs { AreInputsOf script.lines inputs }
    ensures done { Ends (PlansInputs script inputs) result }
    ensures cause { CommandCause IsPlayable 0 0 result }
    ensures script { IfOk result (λ planned. planned.script ≡ script) }
{
    let PlanInputs { ports, waves, .. } = inputs;
    plan_ports(alloc, script, waves, ports)
}

/// The plan of the script of a file, whose lines' files are loaded. The bytes of the script are
/// left in `source`.
pub fn plan_file<F: Files>(
    alloc: Global,
    files: &mut F,
    script: &Text,
    source: &mut Option<Text>,
) -> Result<Planned, Status>
    requires none { source.old ≡ None }
    ensures files { LoadsOnly (F.held files.old) (F.held files.new) (F.load_faults files.old)
        (F.load_faults files.new) (F.store_faults files.old) (F.store_faults files.new) }
    ensures told { Tells (F.held files.old) (λ names. PlansFile names script.now) result }
    ensures source { IsScriptUnder (F.held files.old) script.now (end_of result) source.new }
    ensures cause { CommandCause IsPlayable (F.load_faults files.old)
        (F.load_faults files.new) result }
    ensures names { IfOk result (λ planned. AreNames planned.script.names) }
{
    match load_script(alloc, files, script, source) {
        Err(status) => Err(status),
        Ok(LoadedScript { script, inputs }) => plan_inputs(alloc, script, inputs),
    }
}
