//! The nodes of a plan.
ghost use Rattle.std.specs.Prelude.{◌≡◌, ℕ, ◌<◌, ◌≤◌, length, slice_get, slice_index_or, Some, IfOk};
ghost use Rattle.pw_lists.specs.Limits.{nodes_limit};
ghost use Rattle.pw_graph.specs.declared.kind.Kind.TheVariants.{Dummy};
ghost use Rattle.pw_graph.specs.declared.plan.PlanNode.{PlanNode};
ghost use Rattle.graph_lines.specs.Activity.{may_drive};
ghost use Rattle.graph_lines.specs.Forms.{HasKinds};
ghost use Rattle.graph_plan.specs.PlanOf.{IsEndOf, IsNodeOf};

use graph_lines::{Graph, form_in};
use pw_graph::{Kind, PlanNode, PortId};
use pw_lists::{Items, Memory, Text};
use std::alloc::Global;

/// An equal node of a plan.
pub fn copy_node(alloc: Global, node: &PlanNode) -> Result<PlanNode, Memory>
    ensures { IfOk result (λ copied. copied ≡ node.now) }
{
    let name = node.name.copy(alloc)?;
    let kind = node.kind.copy(alloc)?;
    Ok(PlanNode {
        name,
        kind,
        k: node.k,
        rate: node.rate,
        channels: node.channels,
    })
}

// Whether a node is a sink or a meter.
fn is_end(kinds: &[Kind], node: u32) -> bool
    ensures { result ≡ may_drive (slice_index_or kinds.now node Dummy) }
{
    match kinds.get(node as usize) {
        Some(Kind::Sink) | Some(Kind::Meter) => true,
        _ => false,
    }
}

// The rate and channels of the one input of a sink or meter that has a format; 0 without one and
// for other kinds.
fn end_of(graph: &Graph, node: u32) -> (u32, u32)
    requires { HasKinds graph.now.ports graph.now.kinds }
    ensures { IsEndOf graph.now node (slice_index_or graph.now.kinds node Dummy) result.0 result.1 }
{
    if !is_end(graph.kinds.as_slice(), node) {
        return (0, 0);
    }
    match form_in(
        &graph.ports,
        graph.kinds.as_slice(),
        PortId { node, port: 0 },
    ) {
        Some(form) => form,
        None => (0, 0),
    }
}

// A node at the script's end.
fn node_of(graph: &Graph, names: &[Text], node: usize) -> Result<PlanNode, Memory>
    requires node { node < length names.now }
    requires named { length names.now ≡ length graph.now.kinds }
    requires many { length graph.now.nodes ≡ length graph.now.kinds }
    requires few { length graph.now.kinds ≤ nodes_limit }
    requires kinds { HasKinds graph.now.ports graph.now.kinds }
    ensures { IfOk result (IsNodeOf names.now graph.now node) }
{
    let (rate, channels) = end_of(graph, node as u32);
    let name = names[node].copy(graph.alloc)?;
    let kind = graph.kinds.as_slice()[node].copy(graph.alloc)?;
    let k = graph.nodes.as_slice()[node].k;
    Ok(PlanNode {
        name,
        kind,
        k,
        rate,
        channels,
    })
}

/// All nodes at the script's end.
pub(crate) fn nodes_of(graph: &Graph, names: &[Text]) -> Result<Items<PlanNode>, Memory>
    requires named { length names.now ≡ length graph.now.kinds }
    requires many { length graph.now.nodes ≡ length graph.now.kinds }
    requires few { length graph.now.kinds ≤ nodes_limit }
    requires kinds { HasKinds graph.now.ports graph.now.kinds }
    ensures count { IfOk result (λ nodes. length nodes ≡ length graph.now.kinds) }
    ensures each { IfOk result
        (λ nodes. (n : ℕ) (node : PlanNode) → slice_get nodes n ≡ Some node
        → IsNodeOf names.now graph.now n node) }
{
    let mut nodes = Items::new(graph.alloc);
    for node in 0..names.len() {
        nodes.push(node_of(graph, names, node)?)?;
    }
    Ok(nodes)
}
