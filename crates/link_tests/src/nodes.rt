//! The nodes of a graph.
ghost use Rattle.std.specs.Prelude.{◌≡◌, ◌<◌, [], ◌∷◌, IfOk};
ghost use Rattle.pw_graph.specs.KindPorts.{port_count};
ghost use Rattle.pw_graph.specs.KindRanges.{IsInRange, IsRate, IsChannels};
ghost use Rattle.format_filter.specs.CommonFormat.{IsSoundFormat};
ghost use Rattle.port_model.specs.Offers.{HasFileNumbers};

use crate::graph::Graph;
use format_filter::{Format, FormatFault, format_of};
use link_negotiation::Links;
use pod_codec::read_pod;
use port_model::Ports;
use pw_graph::{Kind, PortId};
use pw_lists::{Items, Memory};
use std::alloc::Global;

/// A node to come: a source with its rate and its channels, a gain of 1, a mixer of its first input
/// and half of its second, a delay of 10 frames, a map of two channels to three, a split of two
/// channels, a sink, a meter.
#[derive(Clone, Copy, Drop)]
pub enum Node {
    Source(u32, u32),
    Gain,
    Mix2,
    Delay,
    Map,
    Split,
    Sink,
    Meter,
}

/// The format that some bytes spell.
pub fn read(alloc: Global, bytes: &[u8]) -> Result<Format, FormatFault>
    ensures { IfOk result IsSoundFormat }
{
    match read_pod(alloc, bytes) {
        Ok((pod, _size)) => format_of(alloc, &pod),
        Err(_fault) => Err(FormatFault::NotObject),
    }
}

/// No node. These of the nodes to come are asynchronous.
pub fn empty(alloc: Global, marked: &[u32]) -> Result<Graph, Memory> {
    let mut links = Links::new(alloc)?;
    for node in marked {
        if *node < 63 {
            links.mark(*node);
        }
    }
    Ok(Graph {
        alloc,
        ports: Ports::new(alloc)?,
        links,
        inputs: Items::new(alloc),
        counts: Items::new(alloc),
    })
}

/// One node, of which a file narrows the offer of a port.
pub fn narrowed(alloc: Global, kind: &Kind, port: u32, file: &Format) -> Result<Graph, Memory>
    requires kind { IsInRange kind.now }
    requires numbers { HasFileNumbers kind.now 0 0 }
    requires port { port < port_count kind.now }
    requires file { IsSoundFormat file.now }
{
    let mut ports = Ports::new(alloc)?;
    ports.add(kind, 0, 0)?;
    let _narrowed = ports.offer(PortId { node: 0, port }, file)?;
    let mut inputs = Items::new(alloc);
    inputs.push(kind.inputs())?;
    let mut counts = Items::new(alloc);
    counts.push(kind.inputs() + kind.outputs())?;
    Ok(Graph {
        alloc,
        ports,
        links: Links::new(alloc)?,
        inputs,
        counts,
    })
}

impl Graph {
    /// One node more, only the first 63.
    fn with(self, kind: &Kind, rate: u32, channels: u32) -> Result<Graph, Memory>
        requires kind { IsInRange kind.now }
        requires file { HasFileNumbers kind.now rate channels }
    {
        let Graph {
            alloc,
            mut ports,
            links,
            mut inputs,
            mut counts,
        } = self;
        if inputs.len() >= 63 {
            return Err(Memory);
        }
        ports.add(kind, rate, channels)?;
        inputs.push(kind.inputs())?;
        counts.push(kind.inputs() + kind.outputs())?;
        Ok(Graph {
            alloc,
            ports,
            links,
            inputs,
            counts,
        })
    }

    // A node of a row. A source whose numbers are out of range is no node.
    fn one_more(self, node: Node) -> Result<Graph, Memory> {
        match node {
            Node::Source(rate, channels) => {
                if rate < 1 || rate > 384_000 || channels < 1 || channels > 8 {
                    return Err(Memory);
                }
                self.with(&Kind::Source, rate, channels)
            }
            Node::Gain => self.with(&Kind::Gain { g: 256 }, 0, 0),
            Node::Mix2 => self.with(&Kind::Mix2 { ga: 256, gb: 128 }, 0, 0),
            Node::Delay => self.with(&Kind::Delay { frames: 10 }, 0, 0),
            Node::Map => {
                let list = Items::from_slice(self.alloc, [1u32, 0, 1].as_slice())?;
                self.with(&Kind::Map { channels: 2, list }, 0, 0)
            }
            Node::Split => self.with(&Kind::Split, 0, 0),
            Node::Sink => self.with(&Kind::Sink, 0, 0),
            Node::Meter => self.with(&Kind::Meter, 0, 0),
        }
    }

    /// The nodes of a row more.
    pub fn more(self, nodes: &[Node]) -> Result<Graph, Memory> {
        let mut graph = self;
        for node in nodes {
            graph = graph.one_more(*node)?;
        }
        Ok(graph)
    }
}
