//! `link` lines.
ghost use Rattle.std.specs.Prelude.{◌≡◌, IfOk, IsSome};
ghost use Rattle.port_model.specs.PortState.{IsPort, IsInput, IsOutput, AtPort};
ghost use Rattle.port_model.specs.Forms.{HasForm};
ghost use Rattle.port_model.specs.SoundPorts.{AreSoundNodes};
ghost use Rattle.graph_lines.specs.Forms.{FormIn};
ghost use Rattle.graph_lines.specs.LinkLines.{LinksLine};

use crate::graph::{Graph, Stepped, note};
use crate::wire::Wire;
use link_negotiation::Linked;
use port_model::Ports;
use pw_graph::{LineOutcome, PortId};
use pw_lists::{Memory, Which};

// The form of a port that has its format.
pub(crate) fn form_at(ports: &Ports, port: PortId) -> (u32, u32)
    requires port { IsPort ports.now port }
    requires format { AtPort ports.now port (λ node s. IsSome s.format) }
    ensures form { AtPort ports.now port (λ node s. HasForm node s result.0 result.1) }
    ensures here { FormIn ports.now port result.0 result.1 }
    ensures nodes { AreSoundNodes ports.now }
{
    match ports.sound(port) {
        Some(form) => form,
        None => (0, 0),
    }
}

impl Graph {
    /// A `link` line: the first of its conditions that holds decides, and only a link that is made
    /// changes the ports.
    pub(crate) fn link_line(&mut self, from: PortId, to: PortId) -> Result<Stepped, Memory>
        requires from { IsOutput self.old.ports from }
        requires to { IsInput self.old.ports to }
        ensures { IfOk result (λ stepped. LinksLine self.old from to stepped self.new) }
    {
        let _known = self.ports.has_format(from);
        match self.links.link(&mut self.ports, from, to)? {
            Linked::Made { buffers, .. } => {
                let (rate, channels) = form_at(&self.ports, from);
                self.wires.push(Wire { from, to, buffers })?;
                let outcome = LineOutcome::Linked {
                    rate,
                    channels,
                    buffers,
                };
                note(&mut self.lines, from, to, outcome)?;
            }
            Linked::NoFormat { key } => {
                note(&mut self.lines, from, to, LineOutcome::NoFormat { key })?
            }
            Linked::NoBuffers => note(&mut self.lines, from, to, LineOutcome::NoBuffers)?,
            Linked::Twice => note(&mut self.lines, from, to, LineOutcome::Twice)?,
            Linked::Loop => note(&mut self.lines, from, to, LineOutcome::Looped)?,
            Linked::Many => {
                return Ok(Stepped::Passed {
                    which: Which::Links,
                });
            }
        }
        Ok(Stepped::Done)
    }
}
