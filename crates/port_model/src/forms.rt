//! The form of a port: its rate and its channels.
ghost use Rattle.std.specs.Prelude.{◌≡◌, ℕ, MatchOption, IfSome, IsSome, Some};
ghost use Rattle.std.specs.Option.{option_copied};
ghost use Rattle.pw_graph.specs.KindRanges.{MayHaveRate, MayHaveChannels};
ghost use Rattle.port_model.specs.PortState.{IsPort, AtPort};
ghost use Rattle.port_model.specs.Offers.{int_of};
ghost use Rattle.port_model.specs.Forms.{value_of, IsForm};
ghost use Rattle.port_model.specs.SoundPorts.{AreSoundNodes};

use crate::kind_offers::{CHANNELS, RATE};
use crate::places::{node_at, state_at};
use crate::port_state::{Node, PortState};
use crate::ports::Ports;
use crate::sharing::shared_value;
use crate::values::{number_in, value_at};
use pod_codec::Pod;
use pw_graph::PortId;

/// The value of a port at a key.
fn value_of<'a>(node: &'a Node, state: &'a PortState, key: u32) -> Option<&'a Pod>
    ensures { option_copied result ≡ value_of node.now state.now key }
{
    if let Some(format) = &state.format {
        return value_at(format.fields.as_slice(), key);
    }
    match shared_value(node, key) {
        Some(value) => Some(value),
        None => value_at(state.own.fields.as_slice(), key),
    }
}

/// The number of a port at a key.
fn number_of(node: &Node, state: &PortState, key: u32) -> Option<u32>
    ensures { MatchOption result
        ((n : ℕ) → value_of node.now state.now key ≡ Some (int_of n) → ⊥)
        (λ n. value_of node.now state.now key ≡ Some (int_of n)) }
{
    match value_of(node, state, key) {
        Some(value) => number_in(value),
        None => None,
    }
}

impl Ports {
    /// The rate of a port in frames a second and its number of channels: those of its format, else
    /// the values that its node shares, else the one value that its own offer has. `None` exactly
    /// where these do not fix both; a port with its format has both. Takes no memory.
    pub fn sound(&self, port: PortId) -> Option<(u32, u32)>
        requires { IsPort self.now port }
        ensures form { AtPort self.now port (λ node s. IsForm node s result) }
        ensures has { AtPort self.now port (λ node s. IsSome s.format → IsSome result) }
        ensures range { IfSome result (λ form. AtPort self.now port
            (λ node s. MayHaveRate node.kind form.0
            × MayHaveChannels node.kind port.port form.1)) }
        ensures nodes { AreSoundNodes self.now }
    {
        let node = node_at(self.nodes.as_slice(), port);
        let state = state_at(node, port.port);
        let rate = number_of(node, state, RATE)?;
        let channels = number_of(node, state, CHANNELS)?;
        Some((rate, channels))
    }
}
