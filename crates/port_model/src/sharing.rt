//! The values that the ports of a node share, and what a port offers by them.
ghost use Rattle.std.specs.Prelude.{◌≡◌, IfOk};
ghost use Rattle.std.specs.Option.{option_copied};
ghost use Rattle.pod_codec.specs.SoundChoices.{IsOfType};
ghost use Rattle.format_filter.specs.Soundness.{IsSound};
ghost use Rattle.format_filter.specs.CommonFormat.{AreSoundFields, IsSoundFormat};
ghost use Rattle.port_model.specs.PortState.{IsPort, AtPort};
ghost use Rattle.port_model.specs.Offers.{is_shared_key};
ghost use Rattle.port_model.specs.Forms.{first_format, shared_value, Offers};
ghost use Rattle.port_model.specs.Sharing.{SharesPlain, IsNarrowedTo, Shares, SharesAll, IsSoundOffer};
ghost use Rattle.port_model.specs.Keys.{format_object};

use crate::kind_offers::{CHANNELS, RATE};
use crate::places::{node_at, state_at};
use crate::port_state::{Node, PortState};
use crate::ports::Ports;
use crate::values::value_at;
use format_filter::{Choice, Field, Format, meet};
use pod_codec::Pod;
use pw_graph::{Kind, PortId};
use pw_lists::{Items, Memory};
use std::alloc::Global;

/// What a port offers.
#[derive(Drop)]
pub enum Offered {
    /// This format.
    Offer(Format),
    /// Nothing: the value that its node shares at this key is not in its own offer.
    Nothing { key: u32 },
}

/// The format of the first port that has one.
fn first_format(ports: &[PortState]) -> Option<&Format>
    ensures { option_copied result ≡ first_format ports.now }
{
    for state in ports {
        if let Some(format) = &state.format {
            return Some(format);
        }
    }
    None
}

/// Whether the ports of a kind share their value at a key.
fn is_shared_key(kind: &Kind, key: u32) -> bool
    ensures { result ≡ is_shared_key kind.now key }
{
    match kind {
        Kind::Gain { .. } | Kind::Mix2 { .. } | Kind::Delay { .. } => key == RATE
            || key == CHANNELS,
        _ => key == RATE,
    }
}

/// The value that a node shares at a key, where one of its ports has its format.
pub fn shared_value(node: &Node, key: u32) -> Option<&Pod>
    ensures { option_copied result ≡ shared_value node.now key }
{
    if !is_shared_key(&node.kind, key) {
        return None;
    }
    match first_format(node.ports.as_slice()) {
        Some(format) => value_at(format.fields.as_slice(), key),
        None => None,
    }
}

/// A field with only this value, if its choice admits it.
fn narrowed_field(alloc: Global, field: &Field, value: &Pod) -> Result<Option<Field>, Memory>
    requires sound { IsSound field.now.choice }
    requires plain { IsOfType 19 value.now → ⊥ }
    ensures { IfOk result (IsNarrowedTo field.now value.now) }
{
    let only = Choice::Only(value.copy(alloc)?);
    match meet(alloc, &field.choice, &only)? {
        Some(_common) => Ok(Some(Field {
            key: field.key,
            flags: field.flags,
            choice: only,
        })),
        None => Ok(None),
    }
}

/// A field with only the value that the node shares at its key.
fn shared_field(alloc: Global, node: &Node, field: &Field) -> Result<Option<Field>, Memory>
    requires sound { IsSound field.now.choice }
    requires plain { SharesPlain node.now }
    ensures { IfOk result (Shares node.now field.now) }
{
    match shared_value(node, field.key) {
        Some(value) => narrowed_field(alloc, field, value),
        None => Ok(Some(field.copy(alloc)?)),
    }
}

/// Fields with only the values that a node shares, or the least key of such a value that is not
/// admitted.
#[derive(Drop)]
pub enum Shared {
    Fields(Items<Field>),
    Outside { key: u32 },
}

/// Fields with only the values that the node shares.
fn shared_fields(alloc: Global, node: &Node, fields: &[Field]) -> Result<Shared, Memory>
    requires sound { AreSoundFields fields.now }
    requires plain { SharesPlain node.now }
    ensures { IfOk result (SharesAll node.now fields.now) }
{
    let mut shared = Items::new(alloc);
    for field in fields {
        match shared_field(alloc, node, field)? {
            Some(narrowed) => shared.push(narrowed)?,
            None => return Ok(Shared::Outside { key: field.key }),
        }
    }
    Ok(Shared::Fields(shared))
}

/// What a port without a format offers.
fn offered_freely(alloc: Global, node: &Node, state: &PortState) -> Result<Offered, Memory>
    requires free { state.now.format ≡ None }
    requires own { IsSoundFormat state.now.own }
    requires object { state.now.own.object ≡ format_object }
    requires plain { SharesPlain node.now }
    ensures offers { IfOk result (Offers node.now state.now) }
    ensures sound { IfOk result IsSoundOffer }
{
    match shared_fields(alloc, node, state.own.fields.as_slice())? {
        Shared::Fields(fields) => Ok(Offered::Offer(Format {
            object: state.own.object,
            id: state.own.id,
            fields,
        })),
        Shared::Outside { key } => Ok(Offered::Nothing { key }),
    }
}

impl Ports {
    /// What a port offers: only its format, once it has one; else its own offer, in which the keys
    /// that its node shares have only the value that a port of the node has in its format. Nothing
    /// where such a value is not in its own offer; the key is the least such one.
    ///
    /// All ports of a node share their rate; those of a gain, mix2 or delay share their channels
    /// too. Takes time linear in the fields, and that of two intersections.
    ///
    /// Public source: PipeWire's documentation, "Objects Design", Port; `spa/param/param.h`. The
    /// sharing is this project's.
    pub fn offered(&self, alloc: Global, port: PortId) -> Result<Offered, Memory>
        requires { IsPort self.now port }
        ensures offers { IfOk result
            (λ offered. AtPort self.now port (λ node s. Offers node s offered)) }
        ensures sound { IfOk result IsSoundOffer }
    {
        let node = node_at(self.nodes.as_slice(), port);
        let state = state_at(node, port.port);
        match &state.format {
            Some(format) => Ok(Offered::Offer(format.copy(alloc)?)),
            None => offered_freely(alloc, node, state),
        }
    }
}
