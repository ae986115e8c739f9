//! How a link is negotiated and made.
ghost use Rattle.std.specs.Prelude.{◌≡◌, ◌⊎◌, ◌↔◌, ◌<◌, ◌++◌, ◌∷◌, [], length, IsTrue, IfOk, IfSome, OnOk, OnErr};
ghost use Rattle.pw_lists.specs.Limits.{links_limit};
ghost use Rattle.pw_graph.specs.SoundShape.{IsBetween};
ghost use Rattle.port_model.specs.PortState.{IsPort, IsInput, IsOutput, AtPort, with_port};
ghost use Rattle.port_model.specs.SoundPorts.{AreSoundNodes};
ghost use Rattle.link_negotiation.specs.declared.negotiation.Linked.{Linked};
ghost use Rattle.link_negotiation.specs.Links.{IsSynchronousLoop};
ghost use Rattle.link_negotiation.specs.declared.common_formats.Negotiated.TheVariants as negotiated;
ghost use Rattle.link_negotiation.specs.Negotiation.{Negotiates, SharesBuffers};
ghost use Rattle.link_negotiation.specs.LinkOutcome.{IsCounted, IsSettled, IsLinkOutcome, LeavesLink, HasFewBuffers};
ghost use Rattle.link_negotiation.specs.LinkOutcome.{given, formatted, MayBeGiven};

use crate::common_formats::{Negotiated, common_count, negotiate};
use crate::link::Link;
use crate::links::{LINKS, Links, are_linked};
use crate::reachability::is_reachable;
use format_filter::Format;
use port_model::Ports;
use pw_graph::PortId;
use pw_lists::Memory;
use std::alloc::Global;

/// What became of a link.
#[derive(Drop)]
pub enum Linked {
    /// It is there now, with this format and number of buffers.
    Made { format: Format, buffers: u32 },
    /// There is no common format, first at this key.
    NoFormat { key: u32 },
    /// The counts of buffers have no number in common.
    NoBuffers,
    /// It is there already.
    Twice,
    /// It would close a loop.
    Loop,
    /// There are 256 links.
    Many,
}

/// Gives a port without a format this one. Takes no memory.
fn give(ports: &mut Ports, port: PortId, format: Format)
    requires port { IsPort ports.old port }
    requires format { AreSoundNodes ports.old → AtPort ports.old port (MayBeGiven format) }
    ensures given { ports.new ≡ with_port ports.old port (given format) }
    ensures nodes { AreSoundNodes ports.old }
{
    if !ports.has_format(port) {
        ports.set_format(port, format);
    }
}

/// The number of buffers that two ports settle on. Takes no memory.
fn count_of(alloc: Global, ports: &Ports, from: PortId, to: PortId) -> Result<Option<u32>, Memory>
    requires from { IsPort ports.now from }
    requires to { IsPort ports.now to }
    ensures count { IfOk result (SharesBuffers ports.now from to) }
    ensures range { IfOk result (λ count. IfSome count (IsBetween 1 8)) }
    ensures nodes { AreSoundNodes ports.now }
{
    common_count(alloc, &ports.buffers(from), &ports.buffers(to))
}

impl Links {
    /// Whether a link would close a loop: both ports are of one node, or it would be synchronous
    /// and a walk along synchronous links leads back.
    fn closes_loop(&self, from: PortId, to: PortId) -> bool
        requires { to.node < 64 }
        ensures { IsTrue result ↔
            ((from.node ≡ to.node) ⊎ IsSynchronousLoop self.now from to) }
    {
        if from.node == to.node {
            return true;
        }
        self.is_synchronous(&Link { from, to }) && is_reachable(self, to.node, from.node)
    }

    /// Makes a link, and gives its format to each of its ports without one. The copies and the room
    /// for the link are taken before the first change.
    fn make(&mut self, ports: &mut Ports, link: Link, format: &Format) -> Result<(), Memory>
        requires few { length self.old.made < links_limit }
        requires from { IsPort ports.old link.from }
        requires to { IsPort ports.old link.to }
        requires other { link.from.node ≡ link.to.node → ⊥ }
        requires below { (link.from.node < 64) × (link.to.node < 64) }
        requires format { Negotiates ports.old link.from link.to (negotiated.Format format.now) }
        ensures links { OnOk result
            (self.new ≡ record self.old { made = self.old.made ++ link ∷ [] }) }
        ensures ports { OnOk result
            (ports.new ≡ formatted ports.old link.from link.to format.now) }
        ensures err { OnErr result ((self.new ≡ self.old) × (ports.new ≡ ports.old)) }
    {
        let own = format.copy(self.alloc)?;
        let other = format.copy(self.alloc)?;
        match self.made.push(link) {
            Ok(()) => {}
            Err(_refused) => return Err(Memory),
        }
        give(ports, link.from, own);
        give(ports, link.to, other);
        Ok(())
    }

    /// What becomes of a new link with a format and a number of buffers.
    fn linked_with(&self, format: Format, count: Option<u32>) -> Linked
        ensures { IsCounted self.now format count result }
    {
        match count {
            None => Linked::NoBuffers,
            Some(buffers) => {
                if self.made.len() >= LINKS {
                    Linked::Many
                } else {
                    Linked::Made { format, buffers }
                }
            }
        }
    }

    /// What becomes of a link that is new.
    fn settle_link(
        &self,
        ports: &Ports,
        from: PortId,
        to: PortId,
        count: Option<u32>,
    ) -> Result<Linked, Memory>
        requires from { IsPort ports.now from }
        requires to { IsPort ports.now to }
        requires count { SharesBuffers ports.now from to count }
        requires range { IfSome count (IsBetween 1 8) }
        ensures settled { IfOk result (IsSettled self.now ports.now from to) }
        ensures count { IfOk result HasFewBuffers }
    {
        match negotiate(self.alloc, ports, from, to)? {
            Negotiated::Format(format) => Ok(self.linked_with(format, count)),
            Negotiated::NoFormat { key } => Ok(Linked::NoFormat { key }),
        }
    }

    /// What becomes of a link.
    fn outcome_of(&self, ports: &Ports, from: PortId, to: PortId) -> Result<Linked, Memory>
        requires from { IsPort ports.now from }
        requires to { IsPort ports.now to }
        ensures outcome { IfOk result (IsLinkOutcome self.now ports.now from to) }
        ensures count { IfOk result HasFewBuffers }
        ensures below { (from.node < 64) × (to.node < 64) }
        ensures nodes { AreSoundNodes ports.now }
    {
        let count = count_of(self.alloc, ports, from, to)?;
        if are_linked(self.made.as_slice(), from, to) {
            return Ok(Linked::Twice);
        }
        if self.closes_loop(from, to) {
            return Ok(Linked::Loop);
        }
        self.settle_link(ports, from, to, count)
    }

    /// Makes a link from an output port to an input port, or says what forbids it: the first of
    /// these that holds decides.
    ///
    /// `Twice`: it is there. `Loop`: both ports are of one node; or the link would be synchronous,
    /// neither of its nodes being marked, and a walk along synchronous links leads from the input's
    /// node to the output's. `NoFormat`: the output port offers nothing, else the input port offers
    /// nothing, else their offers clash, first at this key. `NoBuffers`: their counts of buffers
    /// have no number in common. `Many`: 256 links are there. `Made`: the format is the common one,
    /// fixed, and each of the two ports without one takes it; the number of buffers is the pick of
    /// what both counts have in common, the output's first.
    ///
    /// After `Memory` and any answer but `Made` all is as before. Takes time linear in the nodes
    /// and the links, and that of the common format.
    ///
    /// Public source: PipeWire's documentation, "Objects Design", Link; `spa/pod/filter.h`,
    /// `spa/pod/iter.h`.
    pub fn link(&mut self, ports: &mut Ports, from: PortId, to: PortId) -> Result<Linked, Memory>
        requires from { IsOutput ports.old from }
        requires to { IsInput ports.old to }
        ensures outcome { IfOk result (IsLinkOutcome self.old ports.old from to) }

        // No other outcome is right.
        ensures only { (other : Linked) → IsLinkOutcome self.old ports.old from to other
            → IfOk result (λ linked. linked ≡ other) }
        ensures leaves { IfOk result
            (λ linked. LeavesLink self.old ports.old from to linked self.new
            ports.new) }
        ensures count { IfOk result HasFewBuffers }
        ensures err { OnErr result ((self.new ≡ self.old) × (ports.new ≡ ports.old)) }
    {
        let linked = self.outcome_of(ports, from, to)?;
        if let Linked::Made { format, .. } = &linked {
            self.make(ports, Link { from, to }, format)?;
        }
        Ok(linked)
    }
}
