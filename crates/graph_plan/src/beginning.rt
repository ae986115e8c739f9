//! All parts of a script before its first line.
ghost use Rattle.std.specs.Prelude.{◌≡◌, IfOk, length};
ghost use Rattle.std.specs.List.{AllZip};
ghost use Rattle.graph_script.specs.Kinds.{HasKinds};
ghost use Rattle.graph_script.specs.Ranges.{HasRanges};
ghost use Rattle.graph_lines.specs.Start.{kinds_of, MayStart, IsStart};
ghost use Rattle.graph_plan.specs.Conditions.{AreScriptPorts, HaveWaves};
ghost use Rattle.graph_plan.specs.working.Members.{AreReady, IsFirst};
ghost use Rattle.graph_plan.specs.Parted.{IsBegun, AreBegun};

use crate::member::Member;
use crate::partition::part_nodes;
use crate::together::Together;
use graph_lines::Graph;
use graph_script::{Line, Script};
use port_model::Ports;
use pw_lists::{Items, Memory};
use std::alloc::Global;
use wav_files::WavIn;

// The part of these nodes before the first line.
fn first_of(
    alloc: Global,
    lines: &[Line],
    ports: &Ports,
    nodes: Items<u32>,
) -> Result<Member, Memory>
    requires { MayStart lines.now ports.now }
    ensures { IfOk result (IsFirst lines.now ports.now nodes) }
{
    let own = ports.copy(alloc)?;
    let graph = Graph::start(alloc, lines, own)?;
    Ok(Member { nodes, graph })
}

// The parts of these nodes before the first line.
fn firsts_of(
    alloc: Global,
    lines: &[Line],
    ports: &Ports,
    parts: Items<Items<u32>>,
) -> Result<Items<Member>, Memory>
    requires { MayStart lines.now ports.now }
    ensures { IfOk result (AllZip (IsFirst lines.now ports.now) parts) }
{
    let mut members = Items::new(alloc);
    for nodes in parts.into_vec() {
        members.push(first_of(alloc, lines, ports, nodes)?)?;
    }
    Ok(members)
}

// The whole and the parts of these nodes before the first line.
fn begin_with(
    alloc: Global,
    lines: &[Line],
    ports: Ports,
    parts: Items<Items<u32>>,
) -> Result<Together, Memory>
    requires { MayStart lines.now ports }
    ensures begun { IfOk result (AreBegun lines.now ports parts) }
    ensures ready { IfOk result AreReady }
{
    let members = firsts_of(alloc, lines, &ports, parts)?;
    let whole = Graph::start(alloc, lines, ports)?;
    Ok(Together {
        whole,
        members,
        lines: Items::new(alloc),
    })
}

/// The whole of a script and its parts before the first line.
pub(crate) fn begin(
    alloc: Global,
    script: &Script,
    waves: &Items<WavIn>,
    ports: Ports,
) -> Result<Together, Memory>
    requires script { HasRanges script.now }
    requires kinds { HasKinds script.now }
    requires ports { AreScriptPorts script.now.lines ports }
    requires waves { HaveWaves ports waves.now }
    ensures begun { IfOk result
        (IsBegun script.now.lines (length script.now.names) waves.now ports) }
    ensures ready { IfOk result AreReady }
    ensures kinds { IfOk result (λ t. t.whole.kinds ≡ kinds_of script.now.lines) }
{
    let own = ports.copy(alloc)?;
    let parts = part_nodes(alloc, script, waves, own)?;
    begin_with(alloc, script.lines.as_slice(), ports, parts)
}
