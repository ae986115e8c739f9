//! What becomes of links, by each cause, and of the formats of their ports.

use crate::lines::{Did, Line, first_unlike};
use crate::nodes::{Node, empty, narrowed, read};
use pw_graph::{Kind, PortId};
use std::test::Fail;

/// A link at 48000 frames a second with two buffers, of one channel and of two.
const MONO: Did = Did::Made(48000, 1, 2);

const STEREO: Did = Did::Made(48000, 2, 2);

/// The keys of the rate and of the channels.
const RATE: u32 = 65539;

const CHANNELS: u32 = 65540;

/// A graph of some nodes, of which some are asynchronous, and its lines with what each does.
struct Story {
    title: &'static str,
    marked: &'static [u32],
    nodes: &'static [Node],
    lines: &'static [(Line, Did)],
}

const LINKED: [Story; 7] = [
    Story {
        title: "two gains are linked once and in no loop",
        marked: &[],
        nodes: &[Node::Gain, Node::Gain],
        lines: &[
            (Line::Link((0, 1), (1, 0)), STEREO),
            (Line::Link((1, 1), (0, 0)), Did::Loop),
            (Line::Link((0, 1), (1, 0)), Did::Twice),
            (Line::Link((1, 1), (0, 0)), Did::Loop),
            (Line::Link((0, 1), (0, 0)), Did::Loop),
            (Line::Unlink((1, 1), (0, 0), 0), Did::NotThere),
            (Line::Unlink((0, 1), (1, 0), 0), Did::Gone(3)),
            (Line::Link((1, 1), (0, 0)), STEREO),
        ],
    },
    Story {
        title: "three buffers do not meet four",
        marked: &[],
        nodes: &[Node::Source(48000, 1), Node::Sink],
        lines: &[
            (Line::Buffers((0, 0), 3), Did::Done),
            (Line::Buffers((1, 0), 4), Did::Done),
            (Line::Link((0, 0), (1, 0)), Did::NoBuffers),
            (Line::Form((1, 0)), Did::NoForm),
            (Line::Buffers((1, 0), 3), Did::Done),
            (Line::Link((0, 0), (1, 0)), Did::Made(48000, 1, 3)),
            (Line::Form((1, 0)), Did::Form(48000, 1)),
        ],
    },
    // The mixer's second input is fed back through the gain.
    Story {
        title: "a cycle is a loop",
        marked: &[63],
        nodes: &[Node::Source(48000, 1), Node::Mix2, Node::Gain, Node::Sink],
        lines: &[
            (Line::Link((0, 0), (1, 0)), MONO),
            (Line::Link((1, 2), (2, 0)), MONO),
            (Line::Link((2, 1), (1, 1)), Did::Loop),
            (Line::Link((1, 2), (3, 0)), MONO),
            (Line::Link((2, 1), (2, 0)), Did::Loop),
        ],
    },
    Story {
        title: "a marked node closes a cycle",
        marked: &[2],
        nodes: &[Node::Source(48000, 1), Node::Mix2, Node::Gain, Node::Sink],
        lines: &[
            (Line::Link((0, 0), (1, 0)), MONO),
            (Line::Link((1, 2), (2, 0)), MONO),
            (Line::Link((2, 1), (1, 1)), MONO),
            (Line::Link((1, 2), (3, 0)), MONO),
            (Line::Link((2, 1), (2, 0)), Did::Loop),
        ],
    },
    Story {
        title: "a long way round is a loop",
        marked: &[],
        nodes: &[Node::Gain; 6],
        lines: &[
            (Line::Link((3, 1), (4, 0)), STEREO),
            (Line::Link((2, 1), (3, 0)), STEREO),
            (Line::Link((0, 1), (5, 0)), STEREO),
            (Line::Link((1, 1), (2, 0)), STEREO),
            (Line::Link((0, 1), (1, 0)), STEREO),
            (Line::Link((4, 1), (0, 0)), Did::Loop),
            (Line::Link((4, 1), (5, 0)), STEREO),
            (Line::Unlink((2, 1), (3, 0), 0), Did::Gone(0)),
            (Line::Link((4, 1), (0, 0)), STEREO),
        ],
    },
    Story {
        title: "stereo is split and mixed",
        marked: &[],
        nodes: &[
            Node::Source(48000, 2),
            Node::Split,
            Node::Mix2,
            Node::Sink,
            Node::Source(48000, 1),
        ],
        lines: &[
            (Line::Link((0, 0), (1, 0)), STEREO),
            (Line::Link((1, 1), (2, 0)), MONO),
            (Line::Link((1, 2), (2, 1)), MONO),
            (Line::Link((2, 2), (3, 0)), MONO),
            (Line::Link((4, 0), (1, 0)), Did::NoFormat(CHANNELS)),
            (Line::Form((1, 0)), Did::Form(48000, 2)),
            (Line::Form((1, 2)), Did::Form(48000, 1)),
            (Line::Form((3, 0)), Did::Form(48000, 1)),
        ],
    },
    Story {
        title: "a map changes channels",
        marked: &[],
        nodes: &[Node::Source(44100, 2), Node::Map, Node::Delay, Node::Meter],
        lines: &[
            (Line::Link((2, 1), (1, 0)), STEREO),
            (Line::Link((0, 0), (1, 0)), Did::NoFormat(RATE)),
            (Line::Unlink((2, 1), (1, 0), 0), Did::Gone(6)),
            (Line::Link((0, 0), (1, 0)), Did::Made(44100, 2, 2)),
            (Line::Form((1, 1)), Did::Form(44100, 3)),
            (Line::Link((1, 1), (2, 0)), Did::Made(44100, 3, 2)),
            (Line::Form((2, 1)), Did::Form(44100, 3)),
            (Line::Link((2, 1), (3, 0)), Did::Made(44100, 3, 2)),
            (Line::Form((3, 0)), Did::Form(44100, 3)),
        ],
    },
];

/// Formats that are given up with the last link of a node.
const RELEASED: [Story; 4] = [
    Story {
        title: "a relinked gain takes another rate",
        marked: &[],
        nodes: &[Node::Source(48000, 1), Node::Source(44100, 2), Node::Gain],
        lines: &[
            (Line::Link((0, 0), (2, 0)), MONO),
            (Line::Form((2, 1)), Did::Form(48000, 1)),
            (Line::Link((1, 0), (2, 0)), Did::NoFormat(RATE)),
            (Line::Unlink((0, 0), (2, 0), 0), Did::Gone(5)),
            (Line::Form((2, 1)), Did::NoForm),
            (Line::Link((1, 0), (2, 0)), Did::Made(44100, 2, 2)),
            (Line::Form((2, 1)), Did::Form(44100, 2)),
        ],
    },
    Story {
        title: "a relinked gain takes other channels",
        marked: &[],
        nodes: &[Node::Source(48000, 1), Node::Source(48000, 2), Node::Gain],
        lines: &[
            (Line::Link((0, 0), (2, 0)), MONO),
            (Line::Form((2, 1)), Did::Form(48000, 1)),
            (Line::Link((1, 0), (2, 0)), Did::NoFormat(CHANNELS)),
            (Line::Unlink((0, 0), (2, 0), 0), Did::Gone(5)),
            (Line::Form((2, 1)), Did::NoForm),
            (Line::Link((1, 0), (2, 0)), STEREO),
            (Line::Form((2, 1)), Did::Form(48000, 2)),
        ],
    },
    Story {
        title: "a sink gives its format up",
        marked: &[],
        nodes: &[Node::Source(48000, 1), Node::Source(48000, 1), Node::Sink],
        lines: &[
            (Line::Link((0, 0), (2, 0)), MONO),
            (Line::Link((1, 0), (2, 0)), MONO),
            (Line::Unlink((1, 0), (2, 0), 0), Did::Gone(2)),
            (Line::Form((2, 0)), Did::Form(48000, 1)),
            (Line::Unlink((0, 0), (2, 0), 0), Did::Gone(5)),
            (Line::Form((2, 0)), Did::NoForm),
            (Line::Unlink((0, 0), (2, 0), 0), Did::NotThere),
        ],
    },
    Story {
        title: "a sink that is kept keeps its format",
        marked: &[],
        nodes: &[Node::Source(48000, 1), Node::Source(48000, 1), Node::Sink],
        lines: &[
            (Line::Link((0, 0), (2, 0)), MONO),
            (Line::Link((1, 0), (2, 0)), MONO),
            (Line::Unlink((1, 0), (2, 0), 4), Did::Gone(2)),
            (Line::Form((2, 0)), Did::Form(48000, 1)),
            (Line::Unlink((0, 0), (2, 0), 4), Did::Gone(1)),
            (Line::Form((2, 0)), Did::Form(48000, 1)),
            (Line::Unlink((0, 0), (2, 0), 4), Did::NotThere),
        ],
    },
];

#[test]
fn lines_do_what_is_told(rt: HostRuntime) -> Result<(), Fail> {
    for stories in [LINKED.as_slice(), RELEASED.as_slice()] {
        for story in stories {
            let mut graph = empty(rt.alloc(), story.marked)?.more(story.nodes)?;
            let unlike = first_unlike(&mut graph, story.lines)?;
            assert_eq!(rt; unlike, None, "{}", story.title);
        }
    }
    Ok(())
}

/// An object of type Format with only the rate 48000.
const RATE_48000: [u8; 40] = [
    0x20, 0, 0, 0, 0x0f, 0, 0, 0, 3, 0, 4, 0, 3, 0, 0, 0, 3, 0, 1, 0, 0, 0, 0, 0, 4, 0, 0, 0, 4, 0,
    0, 0, 0x80, 0xbb, 0, 0, 0, 0, 0, 0,
];

/// One with only the rate 44100.
const RATE_44100: [u8; 40] = [
    0x20, 0, 0, 0, 0x0f, 0, 0, 0, 3, 0, 4, 0, 3, 0, 0, 0, 3, 0, 1, 0, 0, 0, 0, 0, 4, 0, 0, 0, 4, 0,
    0, 0, 0x44, 0xac, 0, 0, 0, 0, 0, 0,
];

/// One with the rate 48000 and 2 channels.
const STEREO_48000: [u8; 64] = [
    0x38, 0, 0, 0, 0x0f, 0, 0, 0, 3, 0, 4, 0, 3, 0, 0, 0, 3, 0, 1, 0, 0, 0, 0, 0, 4, 0, 0, 0, 4, 0,
    0, 0, 0x80, 0xbb, 0, 0, 0, 0, 0, 0, 4, 0, 1, 0, 0, 0, 0, 0, 4, 0, 0, 0, 4, 0, 0, 0, 2, 0, 0, 0,
    0, 0, 0, 0,
];

/// A gain, the offer of whose input or output these bytes narrow, more nodes, and lines with what
/// each does.
struct NarrowedStory {
    title: &'static str,
    is_output: bool,
    bytes: &'static [u8],
    nodes: &'static [Node],
    lines: &'static [(Line, Did)],
}

const NARROWED: [NarrowedStory; 3] = [
    NarrowedStory {
        title: "an offer makes a rate clash",
        is_output: false,
        bytes: &RATE_48000,
        nodes: &[Node::Source(44100, 1)],
        lines: &[
            (Line::Link((1, 0), (0, 0)), Did::NoFormat(RATE)),
            (Line::Form((0, 0)), Did::NoForm),
            (Line::Form((1, 0)), Did::Form(44100, 1)),
        ],
    },
    NarrowedStory {
        title: "an output takes an input's rate",
        is_output: false,
        bytes: &RATE_44100,
        nodes: &[Node::Gain],
        lines: &[
            (Line::Link((1, 1), (0, 0)), Did::Made(44100, 2, 2)),
            (Line::Form((1, 1)), Did::Form(44100, 2)),
            (Line::Form((0, 0)), Did::Form(44100, 2)),
        ],
    },
    NarrowedStory {
        title: "a shared value outside an own offer makes no link",
        is_output: true,
        bytes: &STEREO_48000,
        nodes: &[Node::Source(44100, 1), Node::Sink, Node::Source(48000, 1)],
        lines: &[
            (Line::Link((1, 0), (0, 0)), Did::Made(44100, 1, 2)),
            (Line::Offer((0, 1)), Did::Nothing(RATE)),
            (Line::Link((0, 1), (2, 0)), Did::NoFormat(RATE)),
            (Line::Unlink((1, 0), (0, 0), 0), Did::Gone(3)),
            (Line::Link((3, 0), (0, 0)), MONO),
            (Line::Offer((0, 1)), Did::Nothing(CHANNELS)),
            (Line::Link((0, 1), (2, 0)), Did::NoFormat(CHANNELS)),
        ],
    },
];

#[test]
fn lines_do_what_is_told_where_an_offer_is_narrowed(rt: HostRuntime) -> Result<(), Fail> {
    for story in NARROWED.as_slice() {
        let file = read(rt.alloc(), story.bytes)?;
        let port = if story.is_output { 1 } else { 0 };
        let gain = narrowed(rt.alloc(), &Kind::Gain { g: 256 }, port, &file)?;
        let mut graph = gain.more(story.nodes)?;
        let unlike = first_unlike(&mut graph, story.lines)?;
        assert_eq!(rt; unlike, None, "{}", story.title);
    }
    Ok(())
}

// Each of the gains 0 to 15 is linked to each of the gains 16 to 31.
#[test]
fn there_are_at_most_256_links_at_a_time(rt: HostRuntime) -> Result<(), Fail> {
    let mut graph = empty(rt.alloc(), &[])?.more(&[Node::Gain; 34])?;
    for node in 0..16 {
        for to in 16..32 {
            let did = graph.link(PortId { node, port: 1 }, PortId { node: to, port: 0 })?;
            assert!(rt; did == STEREO, "{node} to {to}");
        }
    }
    let lines = [
        (Line::Link((32, 1), (33, 0)), Did::Many),
        (Line::Link((0, 1), (31, 0)), Did::Twice),
        (Line::Link((31, 1), (0, 0)), Did::Loop),
        (Line::Unlink((0, 1), (31, 0), 0), Did::Gone(0)),
        (Line::Link((32, 1), (33, 0)), STEREO),
    ];
    assert_eq!(rt; first_unlike(&mut graph, lines.as_slice())?, None);
    Ok(())
}
