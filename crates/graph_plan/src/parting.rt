//! The parts of a script, each with a plan of its own.
ghost use Rattle.std.specs.Prelude.{◌≡◌, ◌⊎◌, ◌≤◌, length, map, IfOk, Ok, All};
ghost use Rattle.std.specs.List.{AllZip};
ghost use Rattle.pw_graph.specs.SoundPlan.{IsSoundPlan};
ghost use Rattle.cycle_model.specs.WavesFit.{WavesFit};
ghost use Rattle.graph_script.specs.Kinds.{HasKinds};
ghost use Rattle.graph_script.specs.Making.{NamesMade};
ghost use Rattle.graph_script.specs.Ranges.{HasRanges};
ghost use Rattle.graph_plan.specs.Conditions.{AreLinesOf, AreScriptPorts, HaveWaves};
ghost use Rattle.graph_plan.specs.Joining.{JoinsKinds};
ghost use Rattle.graph_plan.specs.working.Members.{AreReady, IsStanding, IsLastMember};
ghost use Rattle.graph_plan.specs.PartLines.{part_lines};
ghost use Rattle.graph_plan.specs.Parted.{IsPartOfMember, ArePartsOf, IsPartsAnswer, IsParted};
ghost use Rattle.graph_plan.specs.Parted.{IsWithin, IsNoChange};
ghost use Rattle.graph_plan.specs.Parts.{IsPartition};
ghost use Rattle.graph_plan.specs.Planned.{IsPlanned};

use crate::beginning::begin;
use crate::fault::PlanFault;
use crate::member::Member;
use crate::planning::into_plan;
use crate::together::{Together, follow_all};
use graph_script::Script;
use port_model::Ports;
use pw_graph::{Part, Parts};
use pw_lists::{Items, Memory, Text};
use std::alloc::Global;
use wav_files::WavIn;

// A part at the script's end, with its plan.
fn into_part(member: Member, names: &[Text]) -> Result<Part, Memory>
    requires member { IsStanding member }
    requires named { length names.now ≡ length member.graph.kinds }
    ensures { IfOk result (IsPartOfMember names.now member) }
{
    let Member { nodes, graph } = member;
    let plan = into_plan(graph, names)?;
    Ok(Part { nodes, plan })
}

// All parts at the script's end.
fn into_all(alloc: Global, members: Items<Member>, names: &[Text]) -> Result<Items<Part>, Memory>
    requires { All (IsLastMember (length names.now)) members }
    ensures { IfOk result (AllZip (IsPartOfMember names.now) members) }
{
    let mut parts = Items::new(alloc);
    for member in members.into_vec() {
        parts.push(into_part(member, names)?)?;
    }
    Ok(parts)
}

// The parts and what their lines did.
fn into_parts(alloc: Global, end: Together, names: &[Text]) -> Result<Parts, Memory>
    requires ready { AreReady end }
    requires named { length names.now ≡ length end.whole.kinds }
    ensures { IfOk result (ArePartsOf names.now end) }
{
    let Together { members, lines, .. } = end;
    let parts = into_all(alloc, members, names)?;
    Ok(Parts { parts, lines })
}

// The parts that the lines of a script make from there on.
fn parts_from(
    alloc: Global,
    together: Together,
    script: &Script,
    waves: &Items<WavIn>,
) -> Result<Parts, PlanFault>
    requires ready { AreReady together }
    requires lines { AreLinesOf together.whole.kinds script.now.lines }
    requires named { length script.now.names ≡ length together.whole.kinds }
    requires channels { All (λ w. 1 ≤ w.wav.channels) waves.now }
    ensures { IsPartsAnswer script.now.names waves.now together script.now.lines result }
{
    match follow_all(together, script.lines.as_slice(), waves) {
        Ok(end) => match into_parts(alloc, end, script.names.as_slice()) {
            Ok(parts) => Ok(parts),
            Err(Memory) => Err(PlanFault::Memory),
        },
        Err(fault) => Err(fault),
    }
}

// The parts of a script.
fn whole_parts(
    alloc: Global,
    script: &Script,
    waves: &Items<WavIn>,
    ports: Ports,
) -> Result<Parts, PlanFault>
    requires script { HasRanges script.now }
    requires kinds { HasKinds script.now }
    requires ports { AreScriptPorts script.now.lines ports }
    requires waves { HaveWaves ports waves.now }
    ensures { IsParted script.now.lines script.now.names waves.now ports result }
{
    match begin(alloc, script, waves, ports) {
        Ok(together) => parts_from(alloc, together, script, waves),
        Err(Memory) => Err(PlanFault::Memory),
    }
}

/// The parts of a script, each with the plan of its own lines, and what the `link` and `unlink`
/// lines did.
///
/// Nodes are in one part where a walk joins them over links that the script makes, at whatever
/// line, also those that it takes away again; parts are in the order of their least nodes. The
/// lines of a part are those that make a node, so that all nodes keep their numbers, and those that
/// name only nodes of the part. A `link` or `unlink` line has its outcome in the part that has its
/// two nodes, else that in the whole script, where no link between parts is made or taken away.
///
/// `Limit`: the first line that passes a limit: a `link` line that could be made but for 256 links
/// that are there, in the whole script or in its part; a `cycles` or `drain` line with whose epochs
/// the events, the samples of all sinks or the bytes of all blocks pass their limit, looked at in
/// this order, each summed over all parts. `ports` has the nodes of the script with their offers,
/// and `waves` one wave for each of its sources.
///
/// Cost: that of `plan` for each part, and twice that of `part_nodes`. Memory: what the plans hold,
/// the ports once for each part, and an epoch of each.
///
/// Public source: PipeWire's documentation, "Graph Scheduling"; parts are this project's.
pub fn parts(
    alloc: Global,
    script: &Script,
    waves: &Items<WavIn>,
    ports: Ports,
) -> Result<Parts, PlanFault>
    requires script { HasRanges script.now }
    requires kinds { HasKinds script.now }
    requires made { NamesMade 0 script.now.lines }
    requires ports { AreScriptPorts script.now.lines ports }
    requires waves { HaveWaves ports waves.now }
    ensures parted { IsParted script.now.lines script.now.names waves.now ports result }

    // What follows from it: the parts are those of `part_nodes`, and each has the plan of its own
    // lines, which is sound, its waves fit, and its lines join outputs to inputs. No link between
    // parts is made or taken away.
    ensures nodes { IfOk result (λ p. IsPartition script.now.lines (length script.now.names)
        waves.now ports (map (λ part. part.nodes) p.parts)) }
    ensures each { IfOk result (λ p. All (λ part.
        IsPlanned (part_lines part.nodes script.now.lines) script.now.names waves.now ports
        (Ok part.plan)) p.parts) }
    ensures sound { IfOk result (λ p. All (λ part. IsSoundPlan part.plan) p.parts) }
    ensures fit { IfOk result (λ p. All (λ part. WavesFit part.plan waves.now) p.parts) }
    ensures joins { IfOk result
        (λ p. All (λ part. All (JoinsKinds part.plan) part.plan.lines) p.parts) }
    ensures between { IfOk result
        (λ p. All (λ l. IsWithin p l ⊎ IsNoChange l.outcome) p.lines) }
{
    whole_parts(alloc, script, waves, ports)
}
