//! Equal values in memory of their own.
ghost use Rattle.std.specs.Prelude.{◌≡◌, IfOk};

use crate::port_state::{Node, PortState};
use crate::ports::Ports;
use format_filter::Format;
use pw_lists::{Items, Memory};
use std::alloc::Global;

/// An equal format, if there is one.
fn copy_format(alloc: Global, format: &Option<Format>) -> Result<Option<Format>, Memory>
    ensures { IfOk result (λ copied. copied ≡ format.now) }
{
    match format {
        Some(format) => Ok(Some(format.copy(alloc)?)),
        None => Ok(None),
    }
}

/// An equal port.
fn copy_port(alloc: Global, port: &PortState) -> Result<PortState, Memory>
    ensures { IfOk result (λ copied. copied ≡ port.now) }
{
    Ok(PortState {
        own: port.own.copy(alloc)?,
        format: copy_format(alloc, &port.format)?,
        buffers: port.buffers,
    })
}

/// Equal ports.
fn copy_ports(alloc: Global, ports: &[PortState]) -> Result<Items<PortState>, Memory>
    ensures { IfOk result (λ copied. copied ≡ ports.now) }
{
    let mut copied = Items::new(alloc);
    for port in ports {
        copied.push(copy_port(alloc, port)?)?;
    }
    Ok(copied)
}

/// An equal node.
fn copy_node(alloc: Global, node: &Node) -> Result<Node, Memory>
    ensures { IfOk result (λ copied. copied ≡ node.now) }
{
    Ok(Node {
        kind: node.kind.copy(alloc)?,
        ports: copy_ports(alloc, node.ports.as_slice())?,
    })
}

/// Equal nodes.
fn copy_nodes(alloc: Global, nodes: &[Node]) -> Result<Items<Node>, Memory>
    ensures { IfOk result (λ copied. copied ≡ nodes.now) }
{
    let mut copied = Items::new(alloc);
    for node in nodes {
        copied.push(copy_node(alloc, node)?)?;
    }
    Ok(copied)
}

impl Ports {
    /// Equal ports, which keep this allocator. Takes memory and time proportional to all that they
    /// hold.
    pub fn copy(&self, alloc: Global) -> Result<Ports, Memory>
        ensures { IfOk result (λ ports. ports ≡ self.now) }
    {
        Ok(Ports {
            alloc,
            nodes: copy_nodes(alloc, self.nodes.as_slice())?,
        })
    }
}
