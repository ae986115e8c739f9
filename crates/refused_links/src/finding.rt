//! One line, and the link that it refuses.
ghost use Rattle.std.specs.Prelude.{◌≡◌, ◌≤◌, All, IfOk};
ghost use Rattle.port_model.specs.PortState.{IsInput, IsOutput};
ghost use Rattle.graph_lines.specs.Conditions.{MayStep};
ghost use Rattle.graph_lines.specs.Ready.{IsReady};
ghost use Rattle.refused_links.specs.Refused.{RefusesAt};
ghost use Rattle.refused_links.specs.working.Finding.{FindsLink, Finds, MayFollow};

use crate::noting::noted_key;
use crate::refused_link::RefusedLink;
use crate::sides::sides_at;
use graph_lines::Graph;
use graph_script::{Command, Line};
use pw_graph::PortId;
use pw_lists::{Items, Memory};
use wav_files::WavIn;

// The link of a `link` line that is done, if it is noted at this place as refused.
fn link_found(
    graph: &Graph,
    line: u32,
    place: usize,
    from: PortId,
    to: PortId,
) -> Result<Option<RefusedLink>, Memory>
    requires from { IsOutput graph.now.ports from }
    requires to { IsInput graph.now.ports to }
    ensures { IfOk result (FindsLink graph.now line place from to) }
{
    match noted_key(graph.lines.as_slice(), place) {
        Some(key) => {
            let sides = sides_at(graph.alloc, &graph.ports, from, to, key)?;
            Ok(Some(RefusedLink {
                line,
                place,
                from,
                to,
                key,
                sides,
            }))
        }
        None => Ok(None),
    }
}

// The link that a line has refused, before which so many lines were noted.
fn find(graph: &Graph, line: &Line, place: usize) -> Result<Option<RefusedLink>, Memory>
    requires { MayStep graph.now line.now.command }
    ensures { IfOk result (Finds graph.now line.now.line place line.now.command) }
{
    match &line.command {
        Command::Link { from, to } => link_found(graph, line.line, place, *from, *to),
        _ => Ok(None),
    }
}

/// Rehearses a line, and finds the link that it refuses. A refused link leaves the ports as they
/// are, so what they offer is asked only then. After `Memory` the graph is to be dropped.
pub(crate) fn refused_by(
    graph: &mut Graph,
    line: &Line,
    waves: &Items<WavIn>,
) -> Result<Option<RefusedLink>, Memory>
    requires ready { IsReady graph.old }
    requires line { MayFollow graph.old.kinds line.now.command }
    requires channels { All (λ w. 1 ≤ w.wav.channels) waves.now }
    ensures added { IfOk result (RefusesAt waves.now graph.old line.now graph.new) }

    // The next line may follow.
    ensures ready { IfOk result (λ added. IsReady graph.new) }
    ensures kinds { IfOk result (λ added. graph.new.kinds ≡ graph.old.kinds) }
{
    let place = graph.lines.len();
    graph.rehearse(&line.command, waves)?;
    let found = find(graph, line, place)?;
    Ok(found)
}
