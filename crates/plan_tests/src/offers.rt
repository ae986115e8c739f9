//! Waves and formats that are given for the lines of a script.
ghost use Rattle.std.specs.Prelude.{All, IfSome};
ghost use Rattle.format_filter.specs.CommonFormat.{IsSoundFormat};

use format_filter::{Format, format_of};
use plan_support::{Silence, TextFault, plan_offered};
use pod_codec::read_pod;
use pw_graph::LineOutcome;
use pw_lists::Items;
use script_inputs::InputFault;
use std::alloc::Global;

/// An object of type Format (0x40003) with only the rate, 44100.
const RATE_44100: [u8; 40] = [
    0x20, 0, 0, 0, 0x0f, 0, 0, 0, 3, 0, 4, 0, 3, 0, 0, 0, 3, 0, 1, 0, 0, 0, 0, 0, 4, 0, 0, 0, 4, 0,
    0, 0, 0x44, 0xac, 0, 0, 0, 0, 0, 0,
];

/// The same with the rate 48000.
const RATE_48000: [u8; 40] = [
    0x20, 0, 0, 0, 0x0f, 0, 0, 0, 3, 0, 4, 0, 3, 0, 0, 0, 3, 0, 1, 0, 0, 0, 0, 0, 4, 0, 0, 0, 4, 0,
    0, 0, 0x80, 0xbb, 0, 0, 0, 0, 0, 0,
];

/// An object of type Props (0x40002) without properties.
const PROPS: [u8; 16] = [8, 0, 0, 0, 0x0f, 0, 0, 0, 2, 0, 4, 0, 2, 0, 0, 0];

/// The key of the rate, SPA_FORMAT_AUDIO_rate.
const RATE_KEY: u32 = 65539;

/// A frame of one channel, and of two, at 48000 frames a second.
const MONO: Silence = Silence::Mono { frames: 1 };

const STEREO: Silence = Silence::Stereo { frames: 1 };

/// What comes of a text.
#[derive(Debug, PartialEq, Drop)]
enum Came {
    /// Some bytes spell no format.
    NoFormat,
    /// A line is refused.
    Refused(InputFault),
    Fault(TextFault),
    /// A plan, and what its last link line did.
    Last(Option<LineOutcome>),
}

// The format that some bytes spell.
fn format_in(alloc: Global, bytes: &[u8]) -> Option<Format>
    ensures { IfSome result IsSoundFormat }
{
    match read_pod(alloc, bytes) {
        Ok((pod, _size)) => format_of(alloc, &pod).ok(),
        Err(_fault) => None,
    }
}

/// The formats that these bytes spell.
pub fn formats_in(alloc: Global, offers: &[&[u8]]) -> Option<Items<Format>>
    ensures { IfSome result (All IsSoundFormat) }
{
    let mut formats = Items::new(alloc);
    for bytes in offers {
        let format = format_in(alloc, bytes)?;
        match formats.push(format) {
            Ok(()) => {}
            Err(_memory) => return None,
        }
    }
    Some(formats)
}

// What comes of a text whose sources have these waves, and with the formats that these bytes spell.
fn comes(alloc: Global, text: &str, sources: &[Silence], offers: &[&[u8]]) -> Came {
    let Some(formats) = formats_in(alloc, offers) else {
        return Came::NoFormat;
    };
    match plan_offered(alloc, text, sources, formats.as_slice()) {
        Ok(plan) => Came::Last(plan.lines.as_slice().last().map(|line| line.outcome)),
        Err(TextFault::Inputs(fault)) => Came::Refused(fault),
        Err(fault) => Came::Fault(fault),
    }
}

/// A last link that is made, at 48000 frames a second, of one channel and of two.
const LINKED: Came = Came::Last(Some(LineOutcome::Linked {
    rate: 48_000,
    channels: 1,
    buffers: 2,
}));

const LINKED_STEREO: Came = Came::Last(Some(LineOutcome::Linked {
    rate: 48_000,
    channels: 2,
    buffers: 2,
}));

/// A text, the waves of its sources, the bytes of its offers, and what comes of it.
type Row = (
    &'static str,
    &'static [Silence],
    &'static [&'static [u8]],
    Came,
);

/// The first line that is refused is named.
const LINES: [Row; 4] = [
    (
        "source s s.wav\n\nsource t t.wav\n",
        &[MONO],
        &[],
        Came::Refused(InputFault::NoWave { line: 3 }),
    ),
    (
        "source s s.wav\n\nsource t t.wav\n",
        &[MONO, MONO, MONO],
        &[],
        Came::Last(None),
    ),
    (
        "gain g 256\noffer g in a.pod\noffer g out b.pod\n",
        &[],
        &[&RATE_44100],
        Came::Refused(InputFault::NoFormat { line: 3 }),
    ),
    (
        "gain g 256\noffer g in a.pod\nsource s s.wav\n",
        &[],
        &[&PROPS],
        Came::Refused(InputFault::NotFormat { line: 2 }),
    ),
];

/// Each source has the next wave.
const WAVES: [Row; 2] = [
    (
        "source s s.wav\ngain g 256\nsource t t.wav\nmeter p\nlink t.out p.in\n",
        &[MONO, STEREO],
        &[],
        LINKED_STEREO,
    ),
    (
        "source s s.wav\ngain g 256\nsource t t.wav\nmeter p\nlink t.out p.in\n",
        &[STEREO, MONO],
        &[],
        LINKED,
    ),
];

/// An offer meets what is offered so far, and narrows its own port. The square has a rate of 48000,
/// so a meter that offers only 44100 does not take it.
const OFFERS: [Row; 6] = [
    (
        "source s s.wav\noffer s out f.pod\n",
        &[MONO],
        &[&RATE_44100],
        Came::Refused(InputFault::Clash {
            line: 2,
            key: RATE_KEY,
        }),
    ),
    (
        "source s s.wav\noffer s out f.pod\n",
        &[MONO],
        &[&RATE_48000],
        Came::Last(None),
    ),
    (
        "gain g 256\noffer g in a.pod\noffer g in b.pod\n",
        &[],
        &[&RATE_48000, &RATE_44100],
        Came::Refused(InputFault::Clash {
            line: 3,
            key: RATE_KEY,
        }),
    ),
    (
        "gain g 256\noffer g in a.pod\noffer g out b.pod\n",
        &[],
        &[&RATE_48000, &RATE_44100],
        Came::Last(None),
    ),
    (
        "square q 48000 1 4 1\nmeter a\nmeter b\noffer b in b.pod\noffer a in a.pod\n\
            link q.out a.in\n",
        &[],
        &[&RATE_44100, &RATE_48000],
        LINKED,
    ),
    (
        "square q 48000 1 4 1\nmeter a\nmeter b\noffer b in b.pod\noffer a in a.pod\n\
            link q.out b.in\n",
        &[],
        &[&RATE_44100, &RATE_48000],
        Came::Last(Some(LineOutcome::NoFormat { key: RATE_KEY })),
    ),
];

#[test]
fn waves_and_offers_are_taken_in_the_order_of_their_lines(rt: HostRuntime) {
    for rows in [LINES.as_slice(), WAVES.as_slice(), OFFERS.as_slice()] {
        for (row, (text, sources, offers, wanted)) in rows.iter().enumerate() {
            let came = comes(rt.alloc(), text, sources, offers);
            assert_eq!(rt; came, *wanted, "row {row}: {text}");
        }
    }
}
