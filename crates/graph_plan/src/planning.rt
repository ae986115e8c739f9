//! The plan of a script.
ghost use Rattle.std.specs.Prelude.{◌≡◌, ◌≤◌, length, IfOk, All};
ghost use Rattle.pw_graph.specs.SoundPlan.{IsSoundPlan};
ghost use Rattle.cycle_model.specs.WavesFit.{WavesFit};
ghost use Rattle.graph_script.specs.Ranges.{HasRanges};
ghost use Rattle.graph_script.specs.Kinds.{HasKinds};
ghost use Rattle.graph_lines.specs.Ready.{IsReady, HasRan};
ghost use Rattle.graph_script.specs.Making.{NamesMade};
ghost use Rattle.graph_plan.specs.Conditions.{AreLinesOf, AreScriptPorts, HaveWaves};
ghost use Rattle.graph_plan.specs.Joining.{JoinsKinds};
ghost use Rattle.graph_plan.specs.PlanOf.{IsPlanOf};
ghost use Rattle.graph_plan.specs.Planned.{IsAnswer, IsPlanned};
ghost use Rattle.graph_plan.specs.ScriptStreams.{HasScriptStreams};

use crate::fault::PlanFault;
use crate::following::follow;
use crate::plan_nodes::nodes_of;
use graph_lines::Graph;
use graph_script::Script;
use port_model::Ports;
use pw_graph::Plan;
use pw_lists::{Items, Memory, Text};
use std::alloc::Global;
use wav_files::WavIn;

/// The plan that is read off the graph at the script's end.
pub(crate) fn into_plan(graph: Graph, names: &[Text]) -> Result<Plan, Memory>
    requires ready { IsReady graph }
    requires named { length names.now ≡ length graph.kinds }
    ensures { IfOk result (IsPlanOf names.now graph) }
{
    let nodes = nodes_of(&graph, names)?;
    Ok(Plan {
        quantum: graph.quantum,
        nodes,
        epochs: graph.epochs,
        lines: graph.lines,
    })
}

// The plan that the lines of a script make of a graph.
fn plan_from(graph: Graph, script: &Script, waves: &Items<WavIn>) -> Result<Plan, PlanFault>
    requires ready { IsReady graph }
    requires ran { HasRan graph }
    requires lines { AreLinesOf graph.kinds script.now.lines }
    requires named { length script.now.names ≡ length graph.kinds }
    requires channels { All (λ w. 1 ≤ w.wav.channels) waves.now }
    ensures { IsAnswer script.now.names waves.now graph script.now.lines result }
{
    match follow(graph, script.lines.as_slice(), waves) {
        Ok(end) => match into_plan(end, script.names.as_slice()) {
            Ok(plan) => Ok(plan),
            Err(Memory) => Err(PlanFault::Memory),
        },
        Err(fault) => Err(fault),
    }
}

// The plan of a script.
fn whole_plan(
    alloc: Global,
    script: &Script,
    waves: &Items<WavIn>,
    ports: Ports,
) -> Result<Plan, PlanFault>
    requires script { HasRanges script.now }
    requires kinds { HasKinds script.now }
    requires ports { AreScriptPorts script.now.lines ports }
    requires waves { HaveWaves ports waves.now }
    ensures { IsPlanned script.now.lines script.now.names waves.now ports result }
{
    match Graph::start(alloc, script.lines.as_slice(), ports) {
        Ok(graph) => plan_from(graph, script, waves),
        Err(Memory) => Err(PlanFault::Memory),
    }
}

/// The plan of a script: its quantum, its nodes as they are at its end, its epochs, and what its
/// link lines did.
///
/// `Limit`: the first line that passes a limit: a `link` line that could be made but for 256 links
/// that are there; a `cycles` or `drain` line with whose epoch the events, the samples of all sinks
/// or the bytes of all blocks pass their limit, looked at in this order. `ports` has the nodes of
/// the script with their offers, and `waves` one wave for each of its sources.
///
/// Cost: a `link` line copies two offers and looks at each link for a loop. An epoch looks at most
/// 64 times at each link for the nodes that are active and once more for who has a link to whom, at
/// each of these nodes twice at each active node for its count and its targets, and at each node of
/// the script at each active node and each form for what is said of it then. Memory: what the plan
/// holds, the ports, and one epoch more.
///
/// Public source: PipeWire's documentation, "Graph Scheduling"; the script is this project's.
pub fn plan(
    alloc: Global,
    script: &Script,
    waves: &Items<WavIn>,
    ports: Ports,
) -> Result<Plan, PlanFault>
    requires script { HasRanges script.now }
    requires kinds { HasKinds script.now }
    requires made { NamesMade 0 script.now.lines }
    requires ports { AreScriptPorts script.now.lines ports }
    requires waves { HaveWaves ports waves.now }
    ensures planned { IsPlanned script.now.lines script.now.names waves.now ports result }

    // What follows from it: the plan is sound, its waves fit, its lines join outputs to inputs, and
    // its streams are those of the script.
    ensures sound { IfOk result IsSoundPlan }
    ensures fit { IfOk result (λ plan. WavesFit plan waves.now) }
    ensures joins { IfOk result (λ plan. All (JoinsKinds plan) plan.lines) }
    ensures streams { IfOk result (HasScriptStreams waves.now ports script.now.lines
        script.now.names) }
{
    whole_plan(alloc, script, waves, ports)
}
