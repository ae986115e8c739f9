//! Links that are refused, by scripts and formats in memory.
ghost use Rattle.std.specs.Prelude.{All, IfOk};
ghost use Rattle.format_filter.specs.CommonFormat.{IsSoundFormat};
ghost use Rattle.script_inputs.specs.Inputs.{HasForm};

use crate::offers::formats_in;
use format_filter::{Choice, Format, Wide};
use graph_plan::plan;
use graph_script::parse;
use pod_codec::Pod;
use pw_graph::{LineOutcome, LinkLine, PortId};
use pw_lists::{Items, Memory, SCRIPT_BYTES_LIMIT, Text};
use refused_links::{RefusedLink, Sides, put_choice, refused_links};
use script_inputs::{Inputs, inputs_of};
use std::alloc::Global;
use std::test::Fail;
use wav_files::Wav;

/// An object of type Format (0x40003) with only the rate, 48000.
const RATE_48000: [u8; 40] = [
    0x20, 0, 0, 0, 0x0f, 0, 0, 0, 3, 0, 4, 0, 3, 0, 0, 0, 3, 0, 1, 0, 0, 0, 0, 0, 4, 0, 0, 0, 4, 0,
    0, 0, 0x80, 0xbb, 0, 0, 0, 0, 0, 0,
];

/// The keys of the rate and of the channels; `spa/param/format.h`.
const RATE: u32 = 0x10003;

const CHANNELS: u32 = 0x10004;

/// The rate and the channels of a wave.
#[derive(Clone, Copy, Drop)]
enum Voice {
    Mono44100,
    Mono48000,
    Stereo48000,
}

/// What a side admits.
#[derive(Debug, PartialEq, Drop)]
enum Admits {
    /// It does not have the key.
    Nothing,
    Only(i32),
    From(i64, i64),
    Other,
}

/// What both sides admit, or which port offers nothing.
#[derive(Debug, PartialEq, Drop)]
enum Pair {
    Both(Admits, Admits),
    Node(PortId, Admits, Option<u32>),
}

/// What is told of a refused link.
#[derive(Debug, PartialEq, Drop)]
struct Told {
    line: u32,
    place: usize,
    from: PortId,
    to: PortId,
    key: u32,
    sides: Pair,
}

/// What comes of a text.
#[derive(Debug, PartialEq, Drop)]
enum Came {
    /// It is no script, or has no inputs.
    NoScript,
    /// How many refused links, and the last of them. They are just those of the plan.
    Refused(usize, Option<Told>),
    /// The plan has others.
    Others,
}

// A wave of one frame of zeros.
fn wave_of(alloc: Global, voice: Voice) -> Result<Wav, Memory>
    ensures { IfOk result HasForm }
{
    let (rate, channels) = match voice {
        Voice::Mono44100 => (44_100, 1),
        Voice::Mono48000 => (48_000, 1),
        Voice::Stereo48000 => (48_000, 2),
    };
    Ok(Wav {
        rate,
        channels,
        samples: Items::filled(alloc, channels as usize, 0)?,
    })
}

// The waves, in order.
fn waves_of(alloc: Global, voices: &[Voice]) -> Result<Items<Wav>, Memory>
    ensures { IfOk result (All HasForm) }
{
    let mut waves = Items::new(alloc);
    for voice in voices {
        let wave = wave_of(alloc, *voice)?;
        waves.push(wave)?;
    }
    Ok(waves)
}

// What a side admits.
fn admitted(side: &Option<Choice>) -> Admits {
    match side {
        None => Admits::Nothing,
        Some(Choice::Only(Pod::Int(n))) => Admits::Only(*n),
        Some(Choice::Range { min, max, .. }) => Admits::From(*min, *max),
        Some(_choice) => Admits::Other,
    }
}

// What is told of a refused link.
fn told_of(link: &RefusedLink) -> Told {
    let sides = match &link.sides {
        Sides::Both { from, to } => Pair::Both(admitted(from), admitted(to)),
        Sides::Node { port, own, shared } => Pair::Node(*port, admitted(own), *shared),
    };
    Told {
        line: link.line,
        place: link.place,
        from: link.from,
        to: link.to,
        key: link.key,
        sides,
    }
}

// Whether the lines of a plan that find no common format are just these links.
fn are_planned(lines: &[LinkLine], links: &[RefusedLink]) -> bool {
    for (place, line) in lines.iter().enumerate() {
        if let LineOutcome::NoFormat { .. } = line.outcome {
            if !links.iter().any(|link| link.place == place) {
                return false;
            }
        }
    }
    for link in links {
        let Some(line) = lines.get(link.place) else {
            return false;
        };
        let refused = LineOutcome::NoFormat { key: link.key };
        if line.from != link.from || line.to != link.to || line.outcome != refused {
            return false;
        }
    }
    true
}

// What comes of a text, whose sources have these waves and whose `offer` lines these formats.
fn refused_in(alloc: Global, text: &str, waves: Items<Wav>, formats: &[Format]) -> Came
    requires waves { All HasForm waves }
    requires formats { All IsSoundFormat formats.now }
{
    let bytes = text.as_bytes();
    if (bytes.len() as u64) > SCRIPT_BYTES_LIMIT {
        return Came::NoScript;
    }
    let Ok(script) = parse(alloc, bytes) else {
        return Came::NoScript;
    };
    let Ok(inputs) = inputs_of(alloc, &script, waves, formats) else {
        return Came::NoScript;
    };
    let Inputs { ports, waves } = inputs;
    let Ok(copied) = ports.copy(alloc) else {
        return Came::NoScript;
    };
    let Ok(links) = refused_links(alloc, &script, &waves, ports) else {
        return Came::NoScript;
    };
    let links = links.as_slice();
    match plan(alloc, &script, &waves, copied) {
        Ok(plan) if are_planned(plan.lines.as_slice(), links) => match links.last() {
            Some(link) => Came::Refused(links.len(), Some(told_of(link))),
            None => Came::Refused(0, None),
        },
        Ok(_plan) => Came::Others,
        Err(_fault) => Came::NoScript,
    }
}

// The same where bytes spell the formats, and the waves are these.
fn comes(alloc: Global, text: &str, voices: &[Voice], offers: &[&[u8]]) -> Came {
    let Some(formats) = formats_in(alloc, offers) else {
        return Came::NoScript;
    };
    match waves_of(alloc, voices) {
        Ok(waves) => refused_in(alloc, text, waves, formats.as_slice()),
        Err(Memory) => Came::NoScript,
    }
}

/// A text, the waves of its sources, the bytes of its `offer` line, and what comes of it.
struct Row {
    title: &'static str,
    text: &'static str,
    voices: &'static [Voice],
    offers: &'static [&'static [u8]],
    came: Came,
}

const REFUSED: [Row; 6] = [
    // A wave of 44100 frames a second, and a sink that an offer narrows to 48000.
    Row {
        title: "the rates of a source and a narrowed sink are told",
        text: "source s s.wav\nsink o o.wav\noffer o in f.pod\nlink s.out o.in\n",
        voices: &[Voice::Mono44100],
        offers: &[&RATE_48000],
        came: Came::Refused(
            1,
            Some(Told {
                line: 4,
                place: 0,
                from: PortId { node: 0, port: 0 },
                to: PortId { node: 1, port: 0 },
                key: RATE,
                sides: Pair::Both(Admits::Only(44_100), Admits::Only(48_000)),
            }),
        ),
    },
    // The inputs of a mix2 share their channels, so the second one admits only those of the first.
    Row {
        title: "mono and stereo part at one mix",
        text: "source m m.wav\nsource t t.wav\nmix2 x 256 256\nlink m.out x.a\nlink t.out x.b\n",
        voices: &[Voice::Mono48000, Voice::Stereo48000],
        offers: &[],
        came: Came::Refused(
            1,
            Some(Told {
                line: 5,
                place: 1,
                from: PortId { node: 1, port: 0 },
                to: PortId { node: 2, port: 1 },
                key: CHANNELS,
                sides: Pair::Both(Admits::Only(2), Admits::Only(1)),
            }),
        ),
    },
    // The offer has the rate alone, so the input of the split admits two channels as before.
    Row {
        title: "a key that an offer lacks is told as before",
        text: "source s s.wav\nsplit x\noffer x in f.pod\nlink s.out x.in\n",
        voices: &[Voice::Mono48000],
        offers: &[&RATE_48000],
        came: Came::Refused(
            1,
            Some(Told {
                line: 4,
                place: 0,
                from: PortId { node: 0, port: 0 },
                to: PortId { node: 1, port: 0 },
                key: CHANNELS,
                sides: Pair::Both(Admits::Only(1), Admits::Only(2)),
            }),
        ),
    },
    // A gain shares its rate: 44100 comes in, and its output was narrowed to 48000.
    Row {
        title: "a port at odds with its node is told",
        text: "source s s.wav\ngain g 256\noffer g out f.pod\nmeter p\n\
            link s.out g.in\nlink g.out p.in\n",
        voices: &[Voice::Mono44100],
        offers: &[&RATE_48000],
        came: Came::Refused(
            1,
            Some(Told {
                line: 6,
                place: 1,
                from: PortId { node: 1, port: 1 },
                to: PortId { node: 2, port: 0 },
                key: RATE,
                sides: Pair::Node(
                    PortId { node: 1, port: 1 },
                    Admits::Only(48_000),
                    Some(44_100),
                ),
            }),
        ),
    },
    // Stereo cannot go where mono is, until that link is gone. A link that is there, and one that
    // would close a loop, are refused for that.
    Row {
        title: "other causes are left out",
        text: "source m m.wav\nsource t t.wav\ngain g 256\nlink m.out g.in\nlink m.out g.in\n\
            link g.out g.in\nlink t.out g.in\nunlink m.out g.in\nlink t.out g.in\ncycles 1\n",
        voices: &[Voice::Mono48000, Voice::Stereo48000],
        offers: &[],
        came: Came::Refused(
            1,
            Some(Told {
                line: 7,
                place: 3,
                from: PortId { node: 1, port: 0 },
                to: PortId { node: 2, port: 0 },
                key: CHANNELS,
                sides: Pair::Both(Admits::Only(2), Admits::Only(1)),
            }),
        ),
    },
    Row {
        title: "where no link is refused there is nothing to tell",
        text: "square q 48000 1 4 1\nsink o o.wav\nlink q.out o.in\ndrain\n",
        voices: &[],
        offers: &[],
        came: Came::Refused(0, None),
    },
];

#[test]
fn the_sides_of_a_refused_link_are_told(rt: HostRuntime) {
    for row in REFUSED.as_slice() {
        let came = comes(rt.alloc(), row.text, row.voices, row.offers);
        assert_eq!(rt; came, row.came, "{}", row.title);
    }
}

// Whether a choice has these words.
fn has_words(alloc: Global, choice: &Choice, wanted: &str) -> Result<bool, Memory> {
    let mut text: Text = Items::new(alloc);
    put_choice(&mut text, choice)?;
    Ok(text.as_slice() == wanted.as_bytes())
}

#[test]
fn choices_have_words(rt: HostRuntime) -> Result<(), Fail> {
    let alloc = rt.alloc();
    let only = Choice::Only(Pod::Int(48_000));
    assert!(rt; has_words(alloc, &only, "48000")?);
    let format = Choice::Only(Pod::Id(259));
    assert!(rt; has_words(alloc, &format, "259")?);
    let negative = Choice::Only(Pod::Long(i64::MIN));
    assert!(rt; has_words(alloc, &negative, "-9223372036854775808")?);
    let none = Choice::Only(Pod::None);
    assert!(rt; has_words(alloc, &none, "a value that is no number")?);
    let mut alts = Items::new(alloc);
    for number in [44_100, 48_000, 96_000] {
        alts.push(Pod::Int(number))?;
    }
    let pick = Pod::Int(48_000);
    let rates = Choice::Enum { pick, alts };
    assert!(rt; has_words(alloc, &rates, "44100 or 48000 or 96000")?);
    let (wide, pick, min, max) = (Wide::Int, 2, 1, 8);
    let channels = Choice::Range {
        wide,
        pick,
        min,
        max,
    };
    assert!(rt; has_words(alloc, &channels, "1 to 8")?);
    let steps = Choice::Step {
        wide,
        pick: 8_000,
        min: 8_000,
        max: 96_000,
        step: 100,
    };
    assert!(rt; has_words(alloc, &steps, "8000 to 96000 in steps of 100")?);
    Ok(())
}
