//! What ports of new nodes offer.
ghost use Rattle.std.specs.Prelude.{◌≡◌, ◌<◌, [], ◌∷◌, IfOk};
ghost use Rattle.format_filter.specs.CommonFormat.{IsSoundFormat};
ghost use Rattle.pw_graph.specs.KindPorts.{port_count};
ghost use Rattle.pw_graph.specs.KindRanges.{IsInRange};
ghost use Rattle.port_model.specs.Offers.{HasFileNumbers, new_node};
ghost use Rattle.port_model.specs.PortState.{IsPort};

use crate::nodes::read;
use format_filter::{Choice, Format, FormatFault, Wide};
use pod_codec::Pod;
use port_model::{Narrowed, Offered, Ports};
use pw_graph::{Kind, PortId};
use pw_lists::{Items, Memory};
use std::alloc::Global;
use std::test::Fail;

/// The least and the greatest number of a rate and of channels.
type Form = (Option<(i64, i64)>, Option<(i64, i64)>);

/// An object of type Format with only the rate 48000.
const RATE_48000: [u8; 40] = [
    0x20, 0, 0, 0, 0x0f, 0, 0, 0, 3, 0, 4, 0, 3, 0, 0, 0, 3, 0, 1, 0, 0, 0, 0, 0, 4, 0, 0, 0, 4, 0,
    0, 0, 0x80, 0xbb, 0, 0, 0, 0, 0, 0,
];

/// An object of type Props (0x40002) without properties.
const PROPS: [u8; 16] = [8, 0, 0, 0, 0x0f, 0, 0, 0, 2, 0, 4, 0, 2, 0, 0, 0];

/// The Int at a key of an offer, the least and the greatest number of a Range, or nothing.
fn numbers_at(offered: &Offered, key: u32) -> Option<(i64, i64)> {
    let Offered::Offer(format) = offered else {
        return None;
    };
    for field in format.fields.as_slice() {
        if field.key == key {
            return match &field.choice {
                Choice::Only(Pod::Int(n)) => Some((i64::from(*n), i64::from(*n))),
                Choice::Range { min, max, .. } => Some((*min, *max)),
                _ => None,
            };
        }
    }
    None
}

/// One node.
fn one(alloc: Global, kind: &Kind, rate: u32, channels: u32) -> Result<Ports, Memory>
    requires kind { IsInRange kind.now }
    requires file { HasFileNumbers kind.now rate channels }
    ensures { IfOk result (λ ports. ports ≡ new_node kind.now rate channels ∷ []) }
{
    let mut ports = Ports::new(alloc)?;
    ports.add(kind, rate, channels)?;
    Ok(ports)
}

/// What a port of a new node offers as its rate and its channels, and its form.
fn offered_by(
    alloc: Global,
    kind: &Kind,
    rate: u32,
    channels: u32,
    port: u32,
) -> Result<(Form, Option<(u32, u32)>), Memory>
    requires kind { IsInRange kind.now }
    requires file { HasFileNumbers kind.now rate channels }
    requires port { port < port_count kind.now }
{
    let ports = one(alloc, kind, rate, channels)?;
    let port = PortId { node: 0, port };
    let offered = ports.offered(alloc, port)?;
    Ok((
        (numbers_at(&offered, 65539), numbers_at(&offered, 65540)),
        ports.sound(port),
    ))
}

/// The pick, the least and the greatest number of a Range of Ints, else nothing.
fn range_of(choice: &Choice) -> Option<(i64, i64, i64)> {
    match choice {
        Choice::Range {
            wide: Wide::Int,
            pick,
            min,
            max,
        } => Some((*pick, *min, *max)),
        _ => None,
    }
}

#[test]
fn kinds_offer_their_rates_and_channels(rt: HostRuntime) -> Result<(), Fail> {
    let alloc = rt.alloc();
    let any = Some((1, 384_000));
    assert!(rt;
        offered_by(alloc, &Kind::Source, 44100, 2, 0)?
            == ((Some((44100, 44100)), Some((2, 2))), Some((44100, 2)))
    );
    let list = Items::from_slice(alloc, [1u32, 0, 0].as_slice())?;
    let map = Kind::Map { channels: 2, list };
    assert!(rt; offered_by(alloc, &map, 0, 0, 0)? == ((any, Some((2, 2))), None));
    assert!(rt; offered_by(alloc, &map, 0, 0, 1)? == ((any, Some((3, 3))), None));
    assert!(rt; offered_by(alloc, &Kind::Split, 0, 0, 0)? == ((any, Some((2, 2))), None));
    assert!(rt; offered_by(alloc, &Kind::Split, 0, 0, 2)? == ((any, Some((1, 1))), None));
    assert!(rt; offered_by(alloc, &Kind::Sink, 0, 0, 0)? == ((any, Some((1, 8))), None));
    Ok(())
}

/// What a file that bytes spell does to the offer of a new node's first port, and what is offered
/// then.
fn narrowed_as(
    alloc: Global,
    kind: &Kind,
    rate: u32,
    channels: u32,
    bytes: &[u8],
) -> Result<(Narrowed, Form), FormatFault>
    requires kind { IsInRange kind.now }
    requires file { HasFileNumbers kind.now rate channels }
    requires port { 0 < port_count kind.now }
{
    let file = read(alloc, bytes)?;
    let mut ports = one(alloc, kind, rate, channels)?;
    let port = PortId { node: 0, port: 0 };
    let narrowed = ports.offer(port, &file)?;
    let offered = ports.offered(alloc, port)?;
    Ok((
        narrowed,
        (numbers_at(&offered, 65539), numbers_at(&offered, 65540)),
    ))
}

#[test]
fn files_narrow_an_offer(rt: HostRuntime) -> Result<(), Fail> {
    let own = (Some((44100, 44100)), Some((1, 1)));
    assert!(rt;
        narrowed_as(
            rt.alloc(),
            &Kind::Gain { g: 256 },
            0,
            0,
            RATE_48000.as_slice()
        )? == (Narrowed::Done, (Some((48000, 48000)), Some((1, 8))))
    );
    assert!(rt;
        narrowed_as(rt.alloc(), &Kind::Source, 44100, 1, RATE_48000.as_slice())?
            == (Narrowed::Clash { key: 65539 }, own)
    );
    assert!(rt;
        narrowed_as(rt.alloc(), &Kind::Source, 44100, 1, PROPS.as_slice())?
            == (Narrowed::NotFormat, own)
    );
    Ok(())
}

/// The counts of buffers of a new sink before and after 3 are set.
#[test]
fn buffers_are_counted(rt: HostRuntime) -> Result<(), Fail> {
    let mut ports = one(rt.alloc(), &Kind::Sink, 0, 0)?;
    let sink = PortId { node: 0, port: 0 };
    assert!(rt; range_of(&ports.buffers(sink)) == Some((2, 1, 8)));
    ports.set_buffers(sink, 3);
    let copied = ports.copy(rt.alloc())?;
    assert!(rt; range_of(&copied.buffers(sink)) == Some((3, 3, 3)));
    assert!(rt; !copied.has_format(sink));
    Ok(())
}
