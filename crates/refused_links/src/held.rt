//! What is told of a port that offers nothing.
ghost use Rattle.std.specs.Prelude.{◌≡◌, IfOk};
ghost use Rattle.port_model.specs.PortState.{IsPort, AtPort, with_released};
ghost use Rattle.port_model.specs.SoundPorts.{AreSoundNodes};
ghost use Rattle.link_negotiation.specs.Negotiation.{OffersAt};
ghost use Rattle.refused_links.specs.Sides.{choice_at, number_at, HasNumber, TellsNode};
ghost use Rattle.refused_links.specs.working.Finding.{offered_at};

use crate::choices::choice_at;
use crate::refused_link::Sides;
use format_filter::Choice;
use port_model::{Offered, Ports};
use pw_graph::PortId;
use pw_lists::Memory;
use std::alloc::Global;

/// The key of the rate; `spa/param/format.h`, `SPA_FORMAT_AUDIO_rate`.
const RATE: u32 = 0x10003;

// The number of a form at a key.
fn number_at(key: u32, form: (u32, u32)) -> u32
    ensures { result ≡ number_at key form }
{
    if key == RATE { form.0 } else { form.1 }
}

// What the form of a port has at a key, if the port has a form.
fn shared_at(ports: &Ports, port: PortId, key: u32) -> Option<u32>
    requires { IsPort ports.now port }
    ensures { HasNumber ports.now port key result }
{
    match ports.sound(port) {
        Some(form) => Some(number_at(key, form)),
        None => None,
    }
}

// What a port offers where no port of its node has a format.
fn offered_alone(alloc: Global, ports: &Ports, port: PortId) -> Result<Offered, Memory>
    requires port { IsPort ports.now port }
    ensures free { IfOk result (OffersAt (with_released ports.now port.node) port) }
    ensures nodes { AreSoundNodes ports.now }
{
    let _known = ports.has_format(port);
    let mut free = ports.copy(alloc)?;
    free.give_up(port.node);
    let offered = free.offered(alloc, port)?;
    Ok(offered)
}

// What is offered at a key.
fn offered_at(alloc: Global, offered: &Offered, key: u32) -> Result<Option<Choice>, Memory>
    ensures { IfOk result (λ choice. choice ≡ offered_at key offered.now) }
{
    match offered {
        Offered::Offer(offer) => choice_at(alloc, offer, key),
        Offered::Nothing { .. } => Ok(None),
    }
}

// What the own offer of a port admits at a key.
fn own_at(alloc: Global, ports: &Ports, port: PortId, key: u32) -> Result<Option<Choice>, Memory>
    requires { IsPort ports.now port }
    ensures { IfOk result (λ own. AtPort ports.now port (λ node s. own ≡ choice_at s.own key)) }
{
    let offered = offered_alone(alloc, ports, port)?;
    let own = offered_at(alloc, &offered, key)?;
    Ok(own)
}

/// What is told of a port that offers nothing because of a key.
pub(crate) fn node_side(
    alloc: Global,
    ports: &Ports,
    port: PortId,
    key: u32,
) -> Result<Sides, Memory>
    requires { IsPort ports.now port }
    ensures { IfOk result (TellsNode ports.now port key) }
{
    let own = own_at(alloc, ports, port, key)?;
    let shared = shared_at(ports, port, key);
    Ok(Sides::Node { port, own, shared })
}
