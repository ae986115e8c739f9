//! The ports of the nodes of the graph.
ghost use Rattle.std.specs.Prelude.{◌≡◌, ◌≤◌, ◌+◌, ◌++◌, length, IfOk, OnOk};
ghost use Rattle.pw_lists.specs.Limits.{nodes_limit};
ghost use Rattle.pw_lists.specs.Samples.{IsGain};
ghost use Rattle.soak_graph.specs.working.Drawing.{HasDrawn};
ghost use Rattle.soak_graph.specs.SoakPorts.{chain_nodes, soak_ports};

use crate::drawing::{CHAINS, Chain, Drawn};
use port_model::Ports;
use pw_graph::Kind;
use pw_lists::Memory;
use std::alloc::Global;

// The nodes of a chain.
fn add_chain(ports: &mut Ports, chain: &Chain) -> Result<(), Memory>
    requires room { length ports.old + 3 ≤ nodes_limit }
    requires gain { IsGain chain.now.gain }
    requires delay { chain.now.delay ≤ 1024 }
    ensures { OnOk result (ports.new ≡ ports.old ++ chain_nodes chain.now.gain chain.now.delay) }
{
    ports.add(&Kind::Source, 48000, 1)?;
    ports.add(&Kind::Gain { g: chain.gain }, 0, 0)?;
    let delay = Kind::Delay {
        frames: chain.delay,
    };
    ports.add(&delay, 0, 0)?;
    Ok(())
}

/// The ports of all nodes, by what was drawn. Takes memory for them.
pub(crate) fn ports_with(alloc: Global, drawn: &Drawn) -> Result<Ports, Memory>
    requires { HasDrawn drawn.now }
    ensures { IfOk result (λ ports. ports ≡ soak_ports drawn.now.number) }
{
    let mut ports = Ports::new(alloc)?;
    let chains = drawn.chains.as_slice();
    for i in 0..CHAINS {
        add_chain(&mut ports, &chains[i as usize])?;
    }
    ports.add(&Kind::Sink, 0, 0)?;
    ports.add(&Kind::Meter, 0, 0)?;
    Ok(ports)
}
