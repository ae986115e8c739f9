//! The graph before the first line.
ghost use Rattle.std.specs.Prelude.{◌≡◌, ◌≤◌, map, length, IfOk};
ghost use Rattle.pw_lists.specs.Limits.{nodes_limit};
ghost use Rattle.std.specs.List.{range_with_len};
ghost use Rattle.graph_lines.specs.Ready.{IsReady, HasRan};
ghost use Rattle.graph_lines.specs.Start.{quantum_of, kinds_of, newcomer, MayStart, IsStart};

use crate::graph::Graph;
use crate::limits::Sums;
use crate::standing::Standing;
use graph_script::{Command, Line, kind_made};
use link_negotiation::Links;
use port_model::Ports;
use pw_graph::Kind;
use pw_lists::{Items, Memory};
use std::alloc::Global;

/// Frames in a cycle where no line says it.
const QUANTUM: u32 = 1024;

// The quantum of a script.
fn quantum_of(lines: &[Line]) -> u32
    ensures { result ≡ quantum_of lines.now }
{
    match lines.first() {
        Some(line) => match &line.command {
            Command::Quantum { n } => *n,
            _ => QUANTUM,
        },
        None => QUANTUM,
    }
}

// The kinds of the nodes that lines make.
fn kinds_of(alloc: Global, lines: &[Line]) -> Result<Items<Kind>, Memory>
    ensures { IfOk result (λ kinds. kinds ≡ kinds_of lines.now) }
{
    let mut kinds = Items::new(alloc);
    for line in lines {
        match kind_made(alloc, &line.command)? {
            Some(kind) => kinds.push(kind)?,
            None => {}
        }
    }
    Ok(kinds)
}

// A node before the line that makes it.
fn newcomer(node: u32) -> Standing
    ensures { result ≡ newcomer node }
{
    Standing {
        there: false,
        on: true,
        marked: false,
        priority: None,
        k: node,
        gave_up: false,
        told: 0,
        kept: false,
        ran: 0,
    }
}

// `count` nodes before their lines.
fn newcomers(alloc: Global, count: usize) -> Result<Items<Standing>, Memory>
    requires { count ≤ nodes_limit }
    ensures { IfOk result (λ nodes. nodes ≡ map newcomer (range_with_len 0 count)) }
{
    let mut nodes = Items::new(alloc);
    for node in 0..count {
        nodes.push(newcomer(node as u32))?;
    }
    Ok(nodes)
}

impl Graph {
    // The graph before the first of these lines.
    fn before(alloc: Global, lines: &[Line], ports: Ports) -> Result<Graph, Memory>
        requires { length (kinds_of lines.now) ≤ nodes_limit }
        ensures { IfOk result (IsStart lines.now ports) }
    {
        let kinds = kinds_of(alloc, lines)?;
        let nodes = newcomers(alloc, kinds.len())?;
        let links = Links::new(alloc)?;
        Ok(Graph {
            alloc,
            quantum: quantum_of(lines),
            kinds,
            ports,
            links,
            wires: Items::new(alloc),
            nodes,
            lines: Items::new(alloc),
            epochs: Items::new(alloc),
            first: 0,
            sums: Sums {
                events: 0,
                samples: 0,
                bytes: 0,
            },
        })
    }

    /// The graph before the first of these lines, with the ports of all their nodes, narrowed by
    /// their offers. A node that no line has made yet is on and has no link.
    pub fn start(alloc: Global, lines: &[Line], ports: Ports) -> Result<Graph, Memory>
        requires { MayStart lines.now ports }
        ensures start { IfOk result (IsStart lines.now ports) }
        ensures sound { IfOk result IsReady }
        ensures ran { IfOk result HasRan }
    {
        Graph::before(alloc, lines, ports)
    }
}
