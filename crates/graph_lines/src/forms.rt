//! The forms that ports have in an epoch.
ghost use Rattle.std.specs.Prelude.{◌≡◌, ◌<◌, ℕ, MatchOption, slice_index_or};
ghost use Rattle.pw_graph.specs.declared.kind.Kind.TheVariants.{Dummy};
ghost use Rattle.pw_graph.specs.KindPorts.{input_count, port_count};
ghost use Rattle.port_model.specs.PortState.{IsPort, AtPort};
ghost use Rattle.graph_lines.specs.Activity.{may_drive};
ghost use Rattle.graph_lines.specs.Forms.{HasKinds, FormIn, IsFormIn};

use port_model::Ports;
use pw_graph::{Kind, PortId};

// Whether a node is a sink or a meter.
fn is_end(kinds: &[Kind], node: u32) -> bool
    ensures { result ≡ may_drive (slice_index_or kinds.now node Dummy) }
{
    match kinds.get(node as usize) {
        Some(Kind::Sink) | Some(Kind::Meter) => true,
        _ => false,
    }
}

/// The rate of a port in frames a second and its channels, where it has a form; a sink or meter
/// without a format has none. Takes no memory.
pub fn form_in(ports: &Ports, kinds: &[Kind], port: PortId) -> Option<(u32, u32)>
    requires port { IsPort ports.now port }
    requires kinds { HasKinds ports.now kinds.now }
    ensures { IsFormIn ports.now port result }
{
    if is_end(kinds, port.node) && !ports.has_format(port) {
        return None;
    }
    ports.sound(port)
}

// How many inputs a node has.
pub(crate) fn input_count(kinds: &[Kind], node: u32) -> u32
    ensures { result ≡ input_count (slice_index_or kinds.now node Dummy) }
{
    match kinds.get(node as usize) {
        Some(kind) => kind.inputs(),
        None => 0,
    }
}

// How many ports a node has.
pub(crate) fn port_count(kinds: &[Kind], node: u32) -> u32
    ensures { result ≡ port_count (slice_index_or kinds.now node Dummy) }
{
    match kinds.get(node as usize) {
        Some(kind) => kind.inputs() + kind.outputs(),
        None => 0,
    }
}
