//! The script of a file, with all that its lines load.
#![tactic(auto, using(crate::proofs::AllowedLemmas::parts))]

ghost use Rattle.std.specs.Prelude.{◌≡◌, ◌≤◌, length, None, IfOk};
ghost use Rattle.pw_lists.specs.Limits.{script_bytes_limit};
ghost use Rattle.graph_script.specs.Grammar.{script_of};
ghost use Rattle.graph_script.specs.Kinds.{HasKinds};
ghost use Rattle.graph_script.specs.Order.{HasOrder};
ghost use Rattle.graph_script.specs.Ranges.{HasRanges};
ghost use Rattle.command_frame.specs.Preparing.{LoadsOnly};
ghost use Rattle.pw_top.specs.Allowed.{Reads};
ghost use Rattle.pw_top.specs.working.Ending.{Ends, CommandCause, Tells};
ghost use Rattle.pw_top.specs.Refusals.{script_outcome};
ghost use Rattle.pw_top.specs.ScriptFile.{LoadsInputs, ReadsScript, LoadsScript, IsLoadedScript};
ghost use Rattle.pw_top.specs.ScriptFound.{end_of, IsScriptUnder};

use crate::inputs::PlanInputs;
use crate::script_loads::load_all;
use command_frame::load_step;
use graph_script::{Script, ScriptFault, parse};
use pw_lists::{Items, SCRIPT_BYTES_LIMIT, Text, Which};
use pw_outside::Files;
use run_results::Status;
use std::alloc::Global;

/// A script, and what its lines have loaded.
#[derive(Drop)]
pub struct LoadedScript {
    pub script: Script,
    pub inputs: PlanInputs,
}

/// The script of a file, and what its lines load, in order. The bytes of the script are left in
/// `source`, whatever is wrong with them.
pub fn load_script<F: Files>(
    alloc: Global,
    files: &mut F,
    script: &Text,
    source: &mut Option<Text>,
) -> Result<LoadedScript, Status>
    requires none { source.old ≡ None }
    ensures files { LoadsOnly (F.held files.old) (F.held files.new) (F.load_faults files.old)
        (F.load_faults files.new) (F.store_faults files.old) (F.store_faults files.new) }
    ensures told { Tells (F.held files.old) (λ names. LoadsScript names script.now) result }
    ensures source { IsScriptUnder (F.held files.old) script.now (end_of result) source.new }
    ensures cause { CommandCause IsLoadedScript (F.load_faults files.old)
        (F.load_faults files.new) result }
{
    let long = Status::Limit {
        place: 0,
        which: Which::ScriptBytes,
    };
    match load_step(alloc, files, 0, script, SCRIPT_BYTES_LIMIT, long) {
        Err(status) => Err(status),
        Ok(bytes) => {
            let loaded = load_read(alloc, files, &bytes);
            *source = Some(bytes);
            loaded
        }
    }
}

// What the bytes of a script give, with its lines' loads.
fn load_read<F: Files>(
    alloc: Global,
    files: &mut F,
    bytes: &Items<u8>,
) -> Result<LoadedScript, Status>
    requires small { length bytes.now ≤ script_bytes_limit }
    ensures files { LoadsOnly (F.held files.old) (F.held files.new) (F.load_faults files.old)
        (F.load_faults files.new) (F.store_faults files.old) (F.store_faults files.new) }
    ensures told { Tells (F.held files.old) (λ names. ReadsScript names bytes.now) result }
    ensures cause { CommandCause IsLoadedScript (F.load_faults files.old)
        (F.load_faults files.new) result }
{
    match read_script(alloc, bytes) {
        Err(status) => Err(status),
        Ok(script) => load_lines_of(alloc, files, script),
    }
}

// The script that the bytes are, or its first fault.
fn read_script(alloc: Global, bytes: &Items<u8>) -> Result<Script, Status>
    requires small { length bytes.now ≤ script_bytes_limit }
    ensures told { Ends (Reads (λ outcome. outcome ≡ script_outcome (script_of bytes.now)))
        result }
    ensures cause { CommandCause (λ script. Unit {0}) 0 0 result }
    ensures ranges { IfOk result HasRanges }
    ensures kinds { IfOk result HasKinds }
    ensures order { IfOk result HasOrder }
{
    match parse(alloc, bytes.as_slice()) {
        Err(ScriptFault::Memory) => Err(Status::Memory),
        Err(ScriptFault::At { line, why }) => Err(Status::Script { line, why }),
        Ok(script) => Ok(script),
    }
}

// A script with its lines' loads.
fn load_lines_of<F: Files>(
    alloc: Global,
    files: &mut F,
    script: Script,
) -> Result<LoadedScript, Status>
    requires ranges { HasRanges script }
    requires kinds { HasKinds script }
    requires order { HasOrder script }
    ensures files { LoadsOnly (F.held files.old) (F.held files.new) (F.load_faults files.old)
        (F.load_faults files.new) (F.store_faults files.old) (F.store_faults files.new) }
    ensures told { Tells (F.held files.old) (λ names. LoadsInputs names script) result }
    ensures cause { CommandCause IsLoadedScript (F.load_faults files.old)
        (F.load_faults files.new) result }
{
    match load_all(alloc, files, script.lines.as_slice()) {
        Err(status) => Err(status),
        Ok(inputs) => Ok(LoadedScript { script, inputs }),
    }
}
