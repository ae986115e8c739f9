//! The links that all lines refuse.
ghost use Rattle.std.specs.Prelude.{◌≡◌, ◌≤◌, ◌++◌, List, All, IfOk, OnOk, option_to_list};
ghost use Rattle.graph_script.specs.Kinds.{HasKinds};
ghost use Rattle.graph_script.specs.Making.{NamesMade};
ghost use Rattle.graph_script.specs.Ranges.{HasRanges};
ghost use Rattle.graph_lines.specs.Ready.{IsReady};
ghost use Rattle.graph_plan.specs.Conditions.{AreLinesOf, AreScriptPorts, HaveWaves};
ghost use Rattle.refused_links.specs.declared.refused_link.RefusedLink.{RefusedLink};
ghost use Rattle.refused_links.specs.Refused.{Refuses, AreRefusedLinks};

use crate::finding::refused_by;
use crate::refused_link::RefusedLink;
use graph_lines::Graph;
use graph_script::{Line, Script};
use port_model::Ports;
use pw_lists::{Items, Memory};
use std::alloc::Global;
use wav_files::WavIn;

// Appends a refused link, if there is one.
fn append(refused: &mut Items<RefusedLink>, added: Option<RefusedLink>) -> Result<(), Memory>
    ensures { OnOk result (refused.new ≡ refused.old ++ option_to_list added) }
{
    match added {
        Some(link) => refused.push(link),
        None => Ok(()),
    }
}

// Every link that lines refuse from a graph on.
fn all_refused(
    mut graph: Graph,
    lines: &[Line],
    waves: &Items<WavIn>,
) -> Result<Items<RefusedLink>, Memory>
    requires ready { IsReady graph }
    requires lines { AreLinesOf graph.kinds lines.now }
    requires channels { All (λ w. 1 ≤ w.wav.channels) waves.now }
    ensures { IfOk result (Refuses waves.now graph lines.now) }
{
    let mut refused = Items::new(graph.alloc);
    for line in lines {
        let added = refused_by(&mut graph, line, waves)?;
        append(&mut refused, added)?;
    }
    Ok(refused)
}

/// The links that a script refuses for want of a common format, in the order of its lines: each
/// with the least key at which the offers of its ports part, and what both admit there at that
/// line. `ports` has the nodes of the script with their offers, and `waves` one wave for each of
/// its sources. A line that is refused for another cause gives nothing, whatever its ports offer.
///
/// The lines are followed as in a rehearsal (`Graph::rehearse` of graph_lines): no line passes a
/// limit here, and with 256 links a `link` line makes none and has no outcome.
///
/// Cost: that of `part_nodes` of graph_plan for each line; a link that is refused copies two offers
/// and two choices. Memory: the refused links, and one epoch.
///
/// Public source: PipeWire's documentation, "Graph Scheduling", "Objects Design", Link;
/// `spa/pod/filter.h`. That both sides are told is this project's.
pub fn refused_links(
    alloc: Global,
    script: &Script,
    waves: &Items<WavIn>,
    ports: Ports,
) -> Result<Items<RefusedLink>, Memory>
    requires script { HasRanges script.now }
    requires kinds { HasKinds script.now }
    requires ports { AreScriptPorts script.now.lines ports }
    requires waves { HaveWaves ports waves.now }
    ensures refused { IfOk result (AreRefusedLinks script.now.lines waves.now ports) }

    // Where the lines make the nodes in turn, as in each script that is read, no other is right.
    ensures only { NamesMade 0 script.now.lines → (other : List RefusedLink)
        → AreRefusedLinks script.now.lines waves.now ports other
        → IfOk result (λ refused. refused ≡ other) }
{
    let graph = Graph::start(alloc, script.lines.as_slice(), ports)?;
    let refused = all_refused(graph, script.lines.as_slice(), waves)?;
    Ok(refused)
}
