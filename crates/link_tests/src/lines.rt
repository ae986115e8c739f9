//! What the lines of a script on ports and links do.
ghost use Rattle.std.specs.Prelude.{◌≡◌, IsTrue};
ghost use Rattle.port_model.specs.PortState.{IsPort, IsInput, IsOutput};

use crate::graph::Graph;
use format_filter::{Choice, Format};
use link_negotiation::{Linked, Unlinked};
use pod_codec::Pod;
use port_model::Offered;
use pw_graph::PortId;
use pw_lists::Memory;

/// A line; a port is given by its node and its number.
#[derive(Drop)]
pub enum Line {
    Link((u32, u32), (u32, u32)),
    /// The last is the set of nodes that keep their formats.
    Unlink((u32, u32), (u32, u32), u64),
    Buffers((u32, u32), u32),
    /// The form of a port.
    Form((u32, u32)),
    /// What a port offers.
    Offer((u32, u32)),
}

/// What it does.
#[derive(PartialEq, Drop)]
pub enum Did {
    /// A link with this rate, these channels and this number of buffers.
    Made(u32, u32, u32),
    NoFormat(u32),
    NoBuffers,
    Twice,
    Loop,
    Many,
    /// The nodes that gave their formats up.
    Gone(u64),
    NotThere,
    Form(u32, u32),
    NoForm,
    Offers,
    Nothing(u32),
    Done,
    /// The line has a number that is out of range.
    Wrong,
}

/// The Int that a format has as its only value at a key, else 0.
fn number_at(format: &Format, key: u32) -> u32 {
    for field in format.fields.as_slice() {
        if field.key == key {
            return match &field.choice {
                Choice::Only(Pod::Int(n)) => u32::try_from(*n).unwrap_or(0),
                _ => 0,
            };
        }
    }
    0
}

fn did_link(linked: &Linked) -> Did {
    match linked {
        Linked::Made { format, buffers } => Did::Made(
            number_at(format, 65539),
            number_at(format, 65540),
            *buffers,
        ),
        Linked::NoFormat { key } => Did::NoFormat(*key),
        Linked::NoBuffers => Did::NoBuffers,
        Linked::Twice => Did::Twice,
        Linked::Loop => Did::Loop,
        Linked::Many => Did::Many,
    }
}

impl Graph {
    fn has_port(&self, port: PortId) -> bool
        ensures { IsTrue result → IsPort self.now.ports port }
    {
        match self.counts.as_slice().get(port.node as usize) {
            Some(count) => port.port < *count,
            None => false,
        }
    }

    fn has_input(&self, port: PortId) -> bool
        ensures { IsTrue result → IsInput self.now.ports port }
    {
        match self.inputs.as_slice().get(port.node as usize) {
            Some(count) => port.port < *count,
            None => false,
        }
    }

    fn has_output(&self, port: PortId) -> bool
        ensures { IsTrue result → IsOutput self.now.ports port }
    {
        match self.inputs.as_slice().get(port.node as usize) {
            Some(count) => *count <= port.port && self.has_port(port),
            None => false,
        }
    }

    pub fn link(&mut self, from: PortId, to: PortId) -> Result<Did, Memory> {
        if !self.has_output(from) || !self.has_input(to) {
            return Ok(Did::Wrong);
        }
        let linked = self.links.link(&mut self.ports, from, to)?;
        Ok(did_link(&linked))
    }

    fn unlink(&mut self, from: PortId, to: PortId, keep: u64) -> Did {
        if !self.has_output(from) || !self.has_input(to) {
            return Did::Wrong;
        }
        match self.links.unlink(&mut self.ports, from, to, keep) {
            Unlinked::Gone { gave_up } => Did::Gone(gave_up),
            Unlinked::NotThere => Did::NotThere,
        }
    }

    fn set_buffers(&mut self, port: PortId, n: u32) -> Did {
        if !self.has_port(port) || n < 1 || n > 8 {
            return Did::Wrong;
        }
        self.ports.set_buffers(port, n);
        Did::Done
    }

    fn form(&self, port: PortId) -> Did {
        if !self.has_port(port) {
            return Did::Wrong;
        }
        match self.ports.sound(port) {
            Some((rate, channels)) => Did::Form(rate, channels),
            None => Did::NoForm,
        }
    }

    fn offer(&self, port: PortId) -> Result<Did, Memory> {
        if !self.has_port(port) {
            return Ok(Did::Wrong);
        }
        match self.ports.offered(self.alloc, port)? {
            Offered::Offer(_format) => Ok(Did::Offers),
            Offered::Nothing { key } => Ok(Did::Nothing(key)),
        }
    }
}

fn port_of(place: (u32, u32)) -> PortId {
    PortId {
        node: place.0,
        port: place.1,
    }
}

/// What one line does.
fn run_line(graph: &mut Graph, line: &Line) -> Result<Did, Memory> {
    match line {
        Line::Link(from, to) => graph.link(port_of(*from), port_of(*to)),
        Line::Unlink(from, to, keep) => Ok(graph.unlink(port_of(*from), port_of(*to), *keep)),
        Line::Buffers(port, n) => Ok(graph.set_buffers(port_of(*port), *n)),
        Line::Form(port) => Ok(graph.form(port_of(*port))),
        Line::Offer(port) => graph.offer(port_of(*port)),
    }
}

/// The place of the first of some lines that does otherwise than said beside it.
pub fn first_unlike(graph: &mut Graph, lines: &[(Line, Did)]) -> Result<Option<usize>, Memory> {
    for (place, (line, did)) in lines.iter().enumerate() {
        if run_line(graph, line)? != *did {
            return Ok(Some(place));
        }
    }
    Ok(None)
}
