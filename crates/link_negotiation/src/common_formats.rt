//! The format and the number of buffers that two ports settle on.
ghost use Rattle.std.specs.Prelude.{◌≡◌, ℕ, ◌<◌, ◌≤◌, ◌^◌, IfOk, IfSome};
ghost use Rattle.pod_codec.specs.declared.pod.Pod.{Pod};
ghost use Rattle.pw_graph.specs.SoundShape.{IsBetween};
ghost use Rattle.format_filter.specs.Members.{IsMember, pick_of};
ghost use Rattle.format_filter.specs.Soundness.{IsSound};
ghost use Rattle.format_filter.specs.CommonFormat.{IsSoundFormat};
ghost use Rattle.port_model.specs.declared.sharing.Offered.TheVariants as offered;
ghost use Rattle.port_model.specs.PortState.{IsPort};
ghost use Rattle.port_model.specs.Offers.{int_of};
ghost use Rattle.port_model.specs.SoundPorts.{IsNumber};
ghost use Rattle.link_negotiation.specs.Negotiation.{Settles, Negotiates, MeetsIn};

use format_filter::{Choice, Filtered, Format, filter, fixate, meet};
use pod_codec::Pod;
use port_model::{Offered, Ports};
use pw_graph::PortId;
use pw_lists::Memory;
use std::alloc::Global;

/// What two ports settle on.
#[derive(Drop)]
pub enum Negotiated {
    /// The common format, fixed.
    Format(Format),
    /// No common format: first at this key.
    NoFormat { key: u32 },
}

/// What two offers settle on.
fn settle(alloc: Global, own: &Format, other: &Format) -> Result<Negotiated, Memory>
    requires own { IsSoundFormat own.now }
    requires other { IsSoundFormat other.now }
    requires object { own.now.object ≡ other.now.object }
    ensures { IfOk result (Settles own.now (offered.Offer other.now)) }
{
    match filter(alloc, own, other)? {
        Filtered::Common(common) => Ok(Negotiated::Format(fixate(alloc, &common)?)),
        Filtered::Clash { key } => Ok(Negotiated::NoFormat { key }),
        // Both are Formats, so this is never answered.
        Filtered::Types => Ok(Negotiated::NoFormat { key: 0 }),
    }
}

/// The format that an output and an input port settle on: the common format of what both offer,
/// fixed.
pub fn negotiate(
    alloc: Global,
    ports: &Ports,
    from: PortId,
    to: PortId,
) -> Result<Negotiated, Memory>
    requires from { IsPort ports.now from }
    requires to { IsPort ports.now to }
    ensures { IfOk result (Negotiates ports.now from to) }
{
    match ports.offered(alloc, from)? {
        Offered::Offer(own) => match ports.offered(alloc, to)? {
            Offered::Offer(other) => settle(alloc, &own, &other),
            Offered::Nothing { key } => Ok(Negotiated::NoFormat { key }),
        },
        Offered::Nothing { key } => Ok(Negotiated::NoFormat { key }),
    }
}

/// The number of an Int.
fn int_in(value: &Pod) -> u32
    requires { IsNumber (IsBetween 1 8) value.now }
    ensures { value.now ≡ int_of result }
{
    match value {
        Pod::Int(n) => *n as u32,
        _ => 0,
    }
}

/// The pick of a choice of numbers.
fn pick_in(choice: &Choice) -> u32
    requires { IsNumber (IsBetween 1 8) (pick_of choice.now) }
    ensures { pick_of choice.now ≡ int_of result }
{
    match choice {
        Choice::Only(value) => int_in(value),
        Choice::Enum { pick, .. } => int_in(pick),
        Choice::Range { pick, .. } => *pick as u32,
        Choice::Step { pick, .. } => *pick as u32,
    }
}

/// The number of buffers that two counts have in common, fixed: the first count's pick where the
/// second one admits it. Two Ranges take no memory.
pub fn common_count(alloc: Global, own: &Choice, other: &Choice) -> Result<Option<u32>, Memory>
    requires own { IsSound own.now }
    requires other { IsSound other.now }
    requires numbers { (x : Pod) → IsMember own.now x → IsNumber (IsBetween 1 8) x }
    ensures count { IfOk result (MeetsIn own.now other.now) }
    ensures range { IfOk result (λ count. IfSome count (IsBetween 1 8)) }
{
    match meet(alloc, own, other)? {
        Some(common) => Ok(Some(pick_in(&common))),
        None => Ok(None),
    }
}
