//! Ports of a kind, by name.
ghost use Rattle.std.specs.Prelude.{◌≡◌, ℕ, ◌<◌, ◌≤◌, true, false, bytes_eq};
ghost use Rattle.pw_graph.specs.KindPorts.{port_name, port_count};
ghost use Rattle.graph_script.specs.Nodes.{input_called, output_called, port_called};

use pw_graph::Kind;

// The first port of this name, from one number up to another, which means no port.
fn port_from(kind: &Kind, name: &[u8], first: u32, end: u32) -> u32
    requires order { first ≤ end }
    requires there { end ≤ port_count kind.now }
    ensures low { first ≤ result }
    ensures high { result ≤ end }
    ensures before { (k : ℕ) → first ≤ k → k < result
        → bytes_eq name.now (port_name kind.now k) ≡ false }
    ensures here { result < end → bytes_eq name.now (port_name kind.now result) ≡ true }
{
    for port in first..end {
        if name == kind.port_name(port) {
            return port;
        }
    }
    end
}

/// The input of this name.
pub(crate) fn input_called(kind: &Kind, name: &[u8]) -> Option<u32>
    ensures { result ≡ input_called kind.now name.now }
{
    let end = kind.inputs();
    let port = port_from(kind, name, 0, end);
    if port < end { Some(port) } else { None }
}

/// The output of this name.
pub(crate) fn output_called(kind: &Kind, name: &[u8]) -> Option<u32>
    ensures { result ≡ output_called kind.now name.now }
{
    let first = kind.inputs();
    let end = first + kind.outputs();
    let port = port_from(kind, name, first, end);
    if port < end { Some(port) } else { None }
}

/// The port of this name, an input or an output.
pub(crate) fn port_called(kind: &Kind, name: &[u8]) -> Option<u32>
    ensures { result ≡ port_called kind.now name.now }
{
    let end = kind.inputs() + kind.outputs();
    let port = port_from(kind, name, 0, end);
    if port < end { Some(port) } else { None }
}
