//! How the members of a loop in an epoch are made.
ghost use Rattle.std.specs.Prelude.{◌≡◌, ◌≤◌, ◌++◌, ◌∷◌, [], IfOk, OnOk, length};
ghost use Rattle.std.specs.List.{list_any};
ghost use Rattle.pw_lists.specs.Limits.{nodes_limit, links_limit};
ghost use Rattle.pw_graph.specs.KindPorts.{input_count};
ghost use Rattle.pw_graph.specs.PlanForms.{kind_at};
ghost use Rattle.pw_graph.specs.Pools.{pools_of, is_same_port};
ghost use Rattle.cycle_model.specs.Epochs.{channels_of};
ghost use Rattle.data_loop.specs.turns.Ends.{fills_of};
ghost use Rattle.data_loop.specs.Dealt.{AreDealt};
ghost use Rattle.data_loop.specs.Gathering.{inputs_of};
ghost use Rattle.data_loop.specs.Members.{input_width, is_read, output_width, member_of, has_role, members_by};

use crate::inputs::Input;
use crate::member::Member;
use node_progress::{takes_part, works_in};
use pw_graph::{Epoch, Plan, PoolShape, PortForm, PortId, Shape, is_same_port};
use pw_lists::{Items, Memory};
use std::alloc::Global;

// The links into a node, each with its input, ascending, by a look at each link.
fn inputs_of(alloc: Global, shape: &Shape, node: u32) -> Result<Items<Input>, Memory>
    requires few { length shape.now.links ≤ links_limit }
    ensures { IfOk result (λ inputs. inputs ≡ inputs_of shape.now node) }
{
    let links = shape.links.as_slice();
    let mut inputs = Items::new(alloc);
    for l in 0..links.len() {
        if links[l].to.node == node {
            let second = links[l].to.port == 1;
            inputs.push(Input {
                link: l as u32,
                second,
            })?;
        }
    }
    Ok(inputs)
}

// The links into a node: those that were dealt to it, or else by a look at each.
fn inputs_among(
    alloc: Global,
    shape: &Shape,
    dealt: &[Items<Input>],
    node: u32,
) -> Result<Items<Input>, Memory>
    requires few { length shape.now.links ≤ links_limit }
    requires dealt { AreDealt shape.now dealt.now }
    ensures { IfOk result (λ inputs. inputs ≡ inputs_of shape.now node) }
{
    match dealt.get(node as usize) {
        Some(inputs) => inputs.copy(alloc),
        None => inputs_of(alloc, shape, node),
    }
}

// The numbers of the pools of a node, ascending.
fn fills_of(
    alloc: Global,
    shape: &Shape,
    pools: &[PoolShape],
    node: u32,
) -> Result<Items<u32>, Memory>
    requires few { length pools.now ≤ links_limit }
    requires pools { pools.now ≡ pools_of shape.now }
    ensures { IfOk result (λ fills. fills ≡ fills_of shape.now node) }
{
    let _ = shape;
    let mut fills = Items::new(alloc);
    for q in 0..pools.len() {
        if pools[q].port.node == node {
            fills.push(q as u32)?;
        }
    }
    Ok(fills)
}

// How many inputs the node's kind has.
fn input_count(plan: &Plan, node: u32) -> u32
    ensures is { result ≡ input_count (kind_at plan.now node) }
    ensures few { result ≤ 2 }
{
    match plan.nodes.as_slice().get(node as usize) {
        Some(node) => node.kind.inputs(),
        None => 0,
    }
}

// The channels of a port, 0 without a form.
fn channels_of(forms: &[PortForm], port: PortId) -> u32
    ensures { result ≡ channels_of forms.now port }
{
    for form in forms {
        if is_same_port(form.port, port) {
            return form.channels;
        }
    }
    0
}

// The samples of a quantum at an input, 0 where the kind has no such input.
fn input_width(plan: &Plan, epoch: &Epoch, node: u32, input: u32) -> usize
    ensures { result ≡ input_width plan.now epoch.now node input }
{
    if input >= input_count(plan, node) {
        return 0;
    }
    let port = PortId { node, port: input };
    plan.quantum as usize * channels_of(epoch.forms.as_slice(), port) as usize
}

// Whether a pool is that of a port.
fn is_filled(pools: &[PoolShape], port: PortId) -> bool
    ensures { result ≡ list_any (λ x. is_same_port x.port port) pools.now }
{
    pools.iter().any(|pool| is_same_port(pool.port, port))
}

// The samples of a quantum at an output, 0 where no link reads it.
fn output_width(plan: &Plan, epoch: &Epoch, pools: &[PoolShape], node: u32, output: u32) -> usize
    requires pools { pools.now ≡ pools_of epoch.now.shape }
    requires few { output ≤ 1 }
    ensures { result ≡ output_width plan.now epoch.now node output }
{
    let port = PortId {
        node,
        port: input_count(plan, node) + output,
    };
    if !is_filled(pools, port) {
        return 0;
    }
    plan.quantum as usize * channels_of(epoch.forms.as_slice(), port) as usize
}

// The member of a node, by its place among the loop's nodes.
fn member_of(
    alloc: Global,
    plan: &Plan,
    epoch: &Epoch,
    pools: &[PoolShape],
    dealt: &[Items<Input>],
    node: u32,
    at: u32,
) -> Result<Member, Memory>
    requires few { (length epoch.now.shape.links ≤ links_limit)
        × (length pools.now ≤ links_limit) }
    requires pools { pools.now ≡ pools_of epoch.now.shape }
    requires dealt { AreDealt epoch.now.shape dealt.now }
    ensures { IfOk result (λ m. m ≡ member_of plan.now epoch.now node at) }
{
    Ok(Member {
        node,
        at,
        inputs: inputs_among(alloc, &epoch.shape, dealt, node)?,
        pools: fills_of(alloc, &epoch.shape, pools, node)?,
        first_output: input_count(plan, node),
        first_width: input_width(plan, epoch, node, 0),
        second_width: input_width(plan, epoch, node, 1),
        left_width: output_width(plan, epoch, pools, node, 0),
        right_width: output_width(plan, epoch, pools, node, 1),
    })
}

// Whether a node is the driver that works in the epoch, or else one of its followers.
fn has_role(epoch: &Epoch, node: u32, leads: bool) -> bool
    ensures { result ≡ has_role epoch.now leads node }
{
    if leads {
        epoch.shape.driver == node && works_in(epoch, node)
    } else {
        epoch.shape.driver != node && takes_part(epoch, node)
    }
}

// Appends a member. Where it is the only one, its list has no room for more.
fn add(members: &mut Items<Member>, member: Member, is_only: bool) -> Result<(), Memory>
    ensures { OnOk result (members.new ≡ members.old ++ member ∷ []) }
{
    if is_only {
        members.reserve(1)?;
    }
    members.push(member)
}

/// Of the loop's nodes the followers of an epoch, or, where `leads`, the driver that works in it,
/// each with its links and pools. `pools` are those of the epoch's shape, `dealt` its links.
pub(crate) fn members_by(
    alloc: Global,
    plan: &Plan,
    epoch: &Epoch,
    pools: &[PoolShape],
    dealt: &[Items<Input>],
    nodes: &[u32],
    leads: bool,
) -> Result<Items<Member>, Memory>
    requires few { (length epoch.now.shape.links ≤ links_limit)
        × (length pools.now ≤ links_limit) }
    requires pools { pools.now ≡ pools_of epoch.now.shape }
    requires dealt { AreDealt epoch.now.shape dealt.now }
    requires places { length nodes.now ≤ nodes_limit }
    ensures { IfOk result
        (λ members. members ≡ members_by plan.now nodes.now epoch.now leads) }
{
    let is_only = leads || nodes.len() == 1;
    let mut members = Items::new(alloc);
    for at in 0..nodes.len() {
        let node = nodes[at];
        if has_role(epoch, node, leads) {
            let member = member_of(alloc, plan, epoch, pools, dealt, node, at as u32)?;
            add(&mut members, member, is_only)?;
        }
    }
    Ok(members)
}
