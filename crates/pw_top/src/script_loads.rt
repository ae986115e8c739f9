//! All loads of a script.
#![tactic(auto, using(crate::proofs::AllowedLemmas::parts))]

ghost use Rattle.std.specs.Prelude.{◌≡◌, ◌≤◌, length};
ghost use Rattle.pw_lists.specs.Limits.{nodes_limit};
ghost use Rattle.graph_script.specs.Making.{NamesMade};
ghost use Rattle.graph_lines.specs.Start.{kinds_of};
ghost use Rattle.graph_plan.specs.Conditions.{AreLinesOf};
ghost use Rattle.command_frame.specs.Preparing.{LoadsOnly};
ghost use Rattle.pw_top.specs.working.Ending.{CommandCause, Tells};
ghost use Rattle.pw_top.specs.PlanInputs.{nothing_loaded, AreInputsOf};
ghost use Rattle.pw_top.specs.Loads.{LoadsAll};

use crate::inputs::PlanInputs;
use crate::loads::load_line;
use graph_script::Line;
use port_model::Ports;
use pw_lists::Items;
use pw_outside::Files;
use run_results::Status;
use std::alloc::Global;

// What lines load, from the first on.
fn load_lines<F: Files>(
    alloc: Global,
    files: &mut F,
    lines: &[Line],
    nothing: PlanInputs,
) -> Result<PlanInputs, Status>
    requires lines { AreLinesOf (kinds_of lines.now) lines.now }
    requires made { NamesMade 0 lines.now }
    requires few { length (kinds_of lines.now) ≤ nodes_limit }
    requires nothing { nothing ≡ nothing_loaded }
    ensures files { LoadsOnly (F.held files.old) (F.held files.new) (F.load_faults files.old)
        (F.load_faults files.new) (F.store_faults files.old) (F.store_faults files.new) }
    ensures told { Tells (F.held files.old)
        (λ names. LoadsAll names lines.now nothing_loaded) result }
    ensures cause { CommandCause (AreInputsOf lines.now) (F.load_faults files.old)
        (F.load_faults files.new) result }
{
    let mut inputs = nothing;
    for line in lines {
        match load_line(alloc, files, line, inputs) {
            Err(status) => return Err(status),
            Ok(after) => inputs = after,
        }
    }
    Ok(inputs)
}

/// What the lines of a script load, in order, up to the first that is refused or fails.
pub fn load_all<F: Files>(
    alloc: Global,
    files: &mut F,
    lines: &[Line],
) -> Result<PlanInputs, Status>
    requires lines { AreLinesOf (kinds_of lines.now) lines.now }
    requires made { NamesMade 0 lines.now }
    requires few { length (kinds_of lines.now) ≤ nodes_limit }
    ensures files { LoadsOnly (F.held files.old) (F.held files.new) (F.load_faults files.old)
        (F.load_faults files.new) (F.store_faults files.old) (F.store_faults files.new) }
    ensures told { Tells (F.held files.old)
        (λ names. LoadsAll names lines.now nothing_loaded) result }
    ensures cause { CommandCause (AreInputsOf lines.now) (F.load_faults files.old)
        (F.load_faults files.new) result }
{
    match Ports::new(alloc) {
        Err(_memory) => Err(Status::Memory),
        Ok(ports) => load_lines(
            alloc,
            files,
            lines,
            PlanInputs {
                ports,
                waves: Items::new(alloc),
                used: 0,
            },
        ),
    }
}
