//! The parts of a script: the nodes that links join.
ghost use Rattle.std.specs.Prelude.{◌≡◌, ◌↔◌, ◌++◌, ℕ, ◌<◌, ◌≤◌, true, false, List, length, drop, IfOk, OnOk, All, Contains};
ghost use Rattle.pw_lists.specs.Limits.{nodes_limit};
ghost use Rattle.graph_script.specs.Kinds.{HasKinds};
ghost use Rattle.graph_script.specs.Ranges.{HasRanges};
ghost use Rattle.graph_lines.specs.Activity.{AreJoined};
ghost use Rattle.graph_lines.specs.Ready.{IsReady};
ghost use Rattle.graph_lines.specs.Rehearsal.{HasMade};
ghost use Rattle.graph_lines.specs.Searching.{is_in, numbers_in, IsWithin};
ghost use Rattle.graph_plan.specs.Conditions.{AreLinesOf, AreScriptPorts, HaveWaves};
ghost use Rattle.graph_plan.specs.Parts.{is_among, AreParts, IsPartition};

use graph_lines::{Graph, Wire, active_nodes};
use graph_script::{Line, Script};
use port_model::Ports;
use pw_graph::NODES;
use pw_lists::{Items, Memory};
use std::alloc::Global;
use wav_files::WavIn;

// Appends the links from a place on.
fn append_from(made: &mut Items<Wire>, wires: &[Wire], from: usize) -> Result<(), Memory>
    ensures { OnOk result (made.new ≡ made.old ++ drop from wires.now) }
{
    if from < wires.len() {
        made.extend(&wires[from..])
    } else {
        Ok(())
    }
}

// Every link that lines make, in the order in which they do.
fn links_made(mut graph: Graph, lines: &[Line], waves: &Items<WavIn>) -> Result<Items<Wire>, Memory>
    requires ready { IsReady graph }
    requires lines { AreLinesOf graph.kinds lines.now }
    requires channels { All (λ w. 1 ≤ w.wav.channels) waves.now }
    ensures made { IfOk result (HasMade waves.now graph lines.now) }
    ensures within { IfOk result (All IsWithin) }
{
    let mut made = Items::new(graph.alloc);
    for line in lines {
        let before = graph.wires.len();
        graph.rehearse(&line.command, waves)?;
        append_from(&mut made, graph.wires.as_slice(), before)?;
    }
    Ok(made)
}

// Of each of the 64 numbers whether links join it to the node.
fn joined_to(made: &[Wire], node: u32) -> [bool; NODES]
    requires node { node < nodes_limit }
    requires within { All IsWithin made.now }
    ensures { (n : ℕ) → (is_in result n ≡ true) ↔ AreJoined made.now n node }
{
    active_nodes(made, node)
}

// Whether a number is in.
fn is_in(here: &[bool], node: u32) -> bool
    ensures { result ≡ is_in here.now node }
{
    match here.get(node as usize) {
        Some(is_in) => *is_in,
        None => false,
    }
}

// The numbers below a count that are in, ascending.
fn numbers_in(alloc: Global, here: &[bool], count: u32) -> Result<Items<u32>, Memory>
    ensures { IfOk result (λ nodes. nodes ≡ numbers_in here.now count) }
{
    let mut nodes = Items::new(alloc);
    for node in 0..count {
        if is_in(here, node) {
            nodes.push(node)?;
        }
    }
    Ok(nodes)
}

/// Whether a number is one of these.
pub(crate) fn is_among(nodes: &[u32], node: u32) -> bool
    ensures { result ≡ is_among nodes.now node }
{
    nodes.iter().any(|n| *n == node)
}

// Whether a node is in one of these parts.
fn is_placed(parts: &[Items<u32>], node: u32) -> bool
    ensures yes { result ≡ true → (p : List ℕ) × Contains parts.now p × Contains p node }
    ensures no { result ≡ false → All (λ p. is_among p node ≡ false) parts.now }
{
    for part in parts {
        if is_among(part.as_slice(), node) {
            return true;
        }
    }
    false
}

// The parts of `count` nodes by these links: from each node that is in no part yet, all that links
// join to it.
fn parts_by(alloc: Global, count: u32, made: &[Wire]) -> Result<Items<Items<u32>>, Memory>
    requires few { count ≤ nodes_limit }
    requires within { All IsWithin made.now }
    ensures { IfOk result (AreParts count made.now) }
{
    let mut parts = Items::new(alloc);
    for node in 0..count {
        if !is_placed(parts.as_slice(), node) {
            let here = joined_to(made, node);
            let nodes = numbers_in(alloc, &here, count)?;
            parts.push(nodes)?;
        }
    }
    Ok(parts)
}

/// The nodes of each part of a script, ascending, the parts by their least nodes: two nodes are in
/// one part where a walk joins them over links that the script makes, at whatever line, and also
/// over those that it takes away again. `ports` has the nodes of the script with their offers, and
/// `waves` one wave for each of its sources. No line is at fault here: links count as far as there
/// are fewer than 256, and no epoch is judged.
///
/// Cost: a `link` line copies two offers and looks at each link for a loop; a `cycles` or `drain`
/// line costs what its epoch does in `plan`. The parts take at most 63 looks at each link that was
/// made. Memory: the links that were made, and one epoch.
///
/// Public source: PipeWire's documentation, "Graph Scheduling"; parts are this project's.
pub fn part_nodes(
    alloc: Global,
    script: &Script,
    waves: &Items<WavIn>,
    ports: Ports,
) -> Result<Items<Items<u32>>, Memory>
    requires script { HasRanges script.now }
    requires kinds { HasKinds script.now }
    requires ports { AreScriptPorts script.now.lines ports }
    requires waves { HaveWaves ports waves.now }
    ensures { IfOk result
        (IsPartition script.now.lines (length script.now.names) waves.now ports) }
{
    let graph = Graph::start(alloc, script.lines.as_slice(), ports)?;
    let made = links_made(graph, script.lines.as_slice(), waves)?;
    parts_by(alloc, script.names.len() as u32, made.as_slice())
}
