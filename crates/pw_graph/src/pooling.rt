//! How the pools of a shape are found.
ghost use Rattle.std.specs.Prelude.{◌≡◌, ℕ, ◌≤◌, max, [], filter, fold, map, IfOk, length};
ghost use Rattle.pw_graph.specs.Pools.{is_same_port, is_before, with_port, sources_of, links_from, link_ids_from, asked, blocks_of, channels_of};
ghost use Rattle.pw_lists.specs.Limits.{links_limit};
ghost use Rattle.pw_graph.specs.Pools.{words_of};
ghost use Rattle.pw_graph.specs.working.PortOrder.{Rise};
ghost use Rattle.std.specs.List.{list_any};
ghost use Rattle.pw_graph.specs.Pools.{pool_of, pools_of, IsPooledShape};

use crate::ids::{PortId, is_same_port};
use crate::pools::PoolShape;
use crate::shape::{Shape, ShapeLink};
use pw_lists::{Items, Memory};
use std::alloc::Global;

/// Whether a port is before another: by node, then by port. Takes no memory.
pub fn is_before(p: PortId, q: PortId) -> bool
    ensures { result ≡ is_before p q }
{
    p.node < q.node || p.node == q.node && p.port < q.port
}

// Whether a port is one of these.
fn is_among(ports: &[PortId], p: PortId) -> bool
    ensures { result ≡ list_any (λ q. is_same_port q p) ports.now }
{
    ports.iter().any(|q| is_same_port(*q, p))
}

// The ports before this one, it, and those after it.
fn with_new(alloc: Global, ports: &[PortId], p: PortId) -> Result<Items<PortId>, Memory>
    ensures { IfOk result (λ list. list ≡ with_port ports.now p) }
{
    let mut list = Items::new(alloc);
    list.reserve(ports.len() + 1)?;
    for q in ports {
        if is_before(*q, p) {
            list.push(*q)?;
        }
    }
    list.push(p)?;
    for q in ports {
        if is_before(p, *q) {
            list.push(*q)?;
        }
    }
    Ok(list)
}

// The same of ports that ascend, which stay where this one is among them.
#[tactic(auto, using(crate::proofs::PortOrder::rise_with))]
fn with_port(alloc: Global, ports: Items<PortId>, p: PortId) -> Result<Items<PortId>, Memory>
    requires { Rise ports }
    ensures is { IfOk result (λ list. list ≡ with_port ports p) }
    ensures rise { IfOk result Rise }
{
    if is_among(ports.as_slice(), p) {
        return Ok(ports);
    }
    with_new(alloc, ports.as_slice(), p)
}

// The output ports that have a link, once each, ascending.
fn sources_of(alloc: Global, shape: &Shape) -> Result<Items<PortId>, Memory>
    ensures { IfOk result (λ list. list ≡ sources_of shape.now) }
{
    let mut ports = Items::new(alloc);
    for link in shape.links.as_slice() {
        ports = with_port(alloc, ports, link.from)?;
    }
    Ok(ports)
}

// The numbers of the links from a port.
fn link_ids_from(alloc: Global, links: &[ShapeLink], port: PortId) -> Result<Items<u32>, Memory>
    requires { length links.now ≤ links_limit }
    ensures { IfOk result (λ list. list ≡ link_ids_from links.now port) }
{
    let mut ids = Items::new(alloc);
    for i in 0..links.len() {
        if is_same_port(links[i].from, port) {
            ids.push(i as u32)?;
        }
    }
    Ok(ids)
}

/// The blocks that a link asks for: its buffers, and at least 2 where it is delayed. Takes no
/// memory.
pub fn asked(link: &ShapeLink) -> u32
    ensures { result ≡ asked link.now }
{
    if link.delayed {
        link.buffers.max(2)
    } else {
        link.buffers
    }
}

// The most blocks that a link from the port asks for.
fn blocks_of(shape: &Shape, port: PortId) -> u32
    ensures { result ≡ blocks_of shape.now port }
{
    let mut top = 0;
    for link in shape.links.as_slice() {
        if is_same_port(link.from, port) {
            top = asked(link).max(top);
        }
    }
    top
}

// The channels of the links from the port.
fn channels_of(shape: &Shape, port: PortId) -> u32
    ensures { result ≡ channels_of shape.now port }
{
    let mut top = 0;
    for link in shape.links.as_slice() {
        if is_same_port(link.from, port) {
            top = link.channels.max(top);
        }
    }
    top
}

// The words of a block: four samples a word.
#[tactic(auto, using(crate::proofs::PoolLemmas::channels_le))]
fn words_of(shape: &Shape, port: PortId) -> u32
    requires { IsPooledShape shape.now }
    ensures { result ≡ words_of shape.now port }
{
    (shape.quantum * channels_of(shape, port) + 3) / 4
}

// The pool of a port.
fn pool_of(alloc: Global, shape: &Shape, port: PortId) -> Result<PoolShape, Memory>
    requires { IsPooledShape shape.now }
    ensures { IfOk result (λ pool. pool ≡ pool_of shape.now port) }
{
    Ok(PoolShape {
        port,
        channels: channels_of(shape, port),
        blocks: blocks_of(shape, port),
        words: words_of(shape, port),
        links: link_ids_from(alloc, shape.links.as_slice(), port)?,
    })
}

/// The pools of a shape, in the order of their numbers: ascending by node and port of the output.
/// Cost: for each link one look at each port before it, and for each port two looks at each port
/// and three at each link.
pub fn pools_of(alloc: Global, shape: &Shape) -> Result<Items<PoolShape>, Memory>
    requires { IsPooledShape shape.now }
    ensures { IfOk result (λ pools. pools ≡ pools_of shape.now) }
{
    let ports = sources_of(alloc, shape)?;
    let mut pools = Items::new(alloc);
    pools.reserve(ports.len())?;
    for port in ports.as_slice() {
        pools.push(pool_of(alloc, shape, *port)?)?;
    }
    Ok(pools)
}
