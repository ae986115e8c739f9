//! The format of an offer: rates and channels.
ghost use Rattle.std.specs.Prelude.{◌≡◌, IfOk};
ghost use Rattle.format_filter.specs.CommonFormat.{IsSoundFormat};
ghost use Rattle.format_filter.specs.Soundness.{IsSound};
ghost use Rattle.pod_text.specs.Offers.{offer_of};

use format_filter::{Choice, Field, Format};
use pw_lists::{Items, Memory};
use std::alloc::Global;

/// The object type Format, and the id of formats that may be had. Source: `spa/utils/type.h`,
/// `spa/param/param.h`.
const FORMAT: u32 = 0x40003;

const ENUM_FORMAT: u32 = 3;

/// The keys of rate and channels. Source: `spa/param/format.h`.
const RATE: u32 = 0x10003;

const CHANNELS: u32 = 0x10004;

/// The format of these rates and channels, each with the flags of its property.
#[tactic(auto, using(crate::proofs::OfferLemmas::two_sound))]
pub(crate) fn offer_of(
    alloc: Global,
    rate: Choice,
    channels: Choice,
    rate_flags: u32,
    channels_flags: u32,
) -> Result<Format, Memory>
    requires { IsSound rate × IsSound channels }
    ensures is { IfOk result
        (λ format. format ≡ offer_of rate channels rate_flags channels_flags) }
    ensures sound { IfOk result IsSoundFormat }
{
    let mut fields = Items::new(alloc);
    fields.push(Field {
        key: RATE,
        flags: rate_flags,
        choice: rate,
    })?;
    fields.push(Field {
        key: CHANNELS,
        flags: channels_flags,
        choice: channels,
    })?;
    Ok(Format {
        object: FORMAT,
        id: ENUM_FORMAT,
        fields,
    })
}
