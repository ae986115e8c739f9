//! What each kind of node offers at its ports, before a file narrows it.
ghost use Rattle.std.specs.Prelude.{◌≡◌, ◌^◌, ◌<◌, ◌≤◌, IfOk};
ghost use Rattle.pw_graph.specs.KindRanges.{IsInRange};
ghost use Rattle.pw_lists.specs.Limits.{rate_limit};
ghost use Rattle.format_filter.specs.declared.choice.Choice.TheVariants as choice;
ghost use Rattle.port_model.specs.Offers.{int_of, plain_field, rate_choice, channels_choice, kind_offer, new_node};

use crate::port_state::{Node, PortState};
use format_filter::{Choice, Field, Format, Wide};
use pod_codec::Pod;
use pw_graph::Kind;
use pw_lists::{Items, Memory};
use std::alloc::Global;

/// The object type of formats; `spa/utils/type.h`, `SPA_TYPE_OBJECT_Format`.
const FORMAT: u32 = 0x40003;
/// The param id of formats that are offered; `spa/param/param.h`, `SPA_PARAM_EnumFormat`.
const ENUM_FORMAT: u32 = 3;
/// Keys of a format; `spa/param/format.h`.
const MEDIA_TYPE: u32 = 1;

const MEDIA_SUBTYPE: u32 = 2;

const AUDIO_FORMAT: u32 = 0x10001;
/// The key of the rate; `spa/param/format.h`, `SPA_FORMAT_AUDIO_rate`.
pub const RATE: u32 = 0x10003;
/// The key of the number of channels; `SPA_FORMAT_AUDIO_channels`.
pub const CHANNELS: u32 = 0x10004;
/// Audio, raw, as 16-bit samples; `SPA_MEDIA_TYPE_audio`, `SPA_MEDIA_SUBTYPE_raw`,
/// `SPA_AUDIO_FORMAT_S16_LE`.
const AUDIO: u32 = 1;

const RAW: u32 = 1;

const SIGNED_16: u32 = 0x103;

/// A number as an Int with no other value.
fn only(n: u32) -> Choice
    requires { n < 2 ^ 31 }
    ensures { result ≡ choice.Only (int_of n) }
{
    Choice::Only(Pod::Int(n as i32))
}

/// The rate of a kind; of a source it is its file's.
fn rate_of(kind: &Kind, rate: u32) -> Choice
    requires kind { IsInRange kind.now }
    requires rate { rate ≤ rate_limit }
    ensures { result ≡ rate_choice kind.now rate }
{
    match kind {
        Kind::Source => only(rate),
        Kind::Square { rate: own, .. } => only(*own),
        _ => Choice::Range {
            wide: Wide::Int,
            pick: 48_000,
            min: 1,
            max: 384_000,
        },
    }
}

/// The channels of a port of a kind; of a source they are its file's.
fn channels_of(kind: &Kind, port: u32, channels: u32) -> Choice
    requires kind { IsInRange kind.now }
    requires channels { channels ≤ 8 }
    ensures { result ≡ channels_choice kind.now port channels }
{
    match kind {
        Kind::Source => only(channels),
        Kind::Square { channels: own, .. } => only(*own),
        Kind::Map {
            channels: own,
            list,
        } => {
            if port == 0 {
                only(*own)
            } else {
                only(list.len() as u32)
            }
        }
        Kind::Split => { if port == 0 { only(2) } else { only(1) } }
        _ => Choice::Range {
            wide: Wide::Int,
            pick: 2,
            min: 1,
            max: 8,
        },
    }
}

/// A field without flags.
fn plain(key: u32, choice: Choice) -> Field
    ensures { result ≡ plain_field key choice }
{
    Field {
        key,
        flags: 0,
        choice,
    }
}

/// What a port of a kind offers.
fn offer_of(
    alloc: Global,
    kind: &Kind,
    rate: u32,
    channels: u32,
    port: u32,
) -> Result<Format, Memory>
    requires kind { IsInRange kind.now }
    requires rate { rate ≤ rate_limit }
    requires channels { channels ≤ 8 }
    ensures { IfOk result (λ format. format ≡ kind_offer kind.now rate channels port) }
{
    let mut fields = Items::new(alloc);
    fields.push(plain(MEDIA_TYPE, Choice::Only(Pod::Id(AUDIO))))?;
    fields.push(plain(MEDIA_SUBTYPE, Choice::Only(Pod::Id(RAW))))?;
    fields.push(plain(AUDIO_FORMAT, Choice::Only(Pod::Id(SIGNED_16))))?;
    fields.push(plain(RATE, rate_of(kind, rate)))?;
    fields.push(plain(CHANNELS, channels_of(kind, port, channels)))?;
    Ok(Format {
        object: FORMAT,
        id: ENUM_FORMAT,
        fields,
    })
}

/// The ports of a new node.
fn new_ports(
    alloc: Global,
    kind: &Kind,
    rate: u32,
    channels: u32,
) -> Result<Items<PortState>, Memory>
    requires kind { IsInRange kind.now }
    requires rate { rate ≤ rate_limit }
    requires channels { channels ≤ 8 }
    ensures { IfOk result (λ ports. ports ≡ (new_node kind.now rate channels).ports) }
{
    let mut ports = Items::new(alloc);
    for port in 0..kind.inputs() + kind.outputs() {
        ports.push(PortState {
            own: offer_of(alloc, kind, rate, channels, port)?,
            format: None,
            buffers: None,
        })?;
    }
    Ok(ports)
}

/// A new node, whose ports have no format and no number of buffers.
pub fn new_node(alloc: Global, kind: &Kind, rate: u32, channels: u32) -> Result<Node, Memory>
    requires kind { IsInRange kind.now }
    requires rate { rate ≤ rate_limit }
    requires channels { channels ≤ 8 }
    ensures { IfOk result (λ node. node ≡ new_node kind.now rate channels) }
{
    Ok(Node {
        kind: kind.copy(alloc)?,
        ports: new_ports(alloc, kind, rate, channels)?,
    })
}
