//! The text of runs, and event lines read back.
ghost use Rattle.std.specs.Prelude.{◌≡◌, [], ◌∷◌, map, codes, IfOk};
ghost use Rattle.cycle_trace.specs.TraceReading.{AreNames};

use cycle_trace::{TraceFault, read_events, run_text};
use pw_graph::{Event, Kind, LineOutcome, LinkLine, Plan, PlanNode, PortId};
use pw_lists::{Items, Memory, Text};
use std::alloc::Global;
use std::test::Fail;
use wav_files::{Kept, Outcome, Peak, Wav};

/// A node; a sink or a meter with a rate is mono.
fn node(alloc: Global, name: &[u8], kind: Kind, rate: u32) -> Result<PlanNode, Memory>
    ensures { IfOk result (λ n. n.kind ≡ kind) }
{
    let name = Items::from_slice(alloc, name)?;
    let channels = u32::from(rate > 0);
    Ok(PlanNode {
        name,
        kind,
        k: 0,
        rate,
        channels,
    })
}

/// A source `s`, a meter `p` and a sink `o`.
fn three_nodes(alloc: Global, rate: u32) -> Result<Items<PlanNode>, Memory>
    ensures { IfOk result (λ nodes. map (λ n. n.kind) nodes ≡ Kind.Source ∷ Kind.Meter ∷ Kind.Sink ∷ []) }
{
    let mut nodes = Items::new(alloc);
    nodes.push(node(alloc, b"s".as_slice(), Kind::Source, 0)?)?;
    nodes.push(node(alloc, b"p".as_slice(), Kind::Meter, rate)?)?;
    nodes.push(node(alloc, b"o".as_slice(), Kind::Sink, rate)?)?;
    Ok(nodes)
}

/// What a run of two frames has kept.
fn two_frames(alloc: Global, frames: &[i16]) -> Result<Outcome, Memory> {
    let samples = Items::from_slice(alloc, frames)?;
    let mut sinks = Items::new(alloc);
    sinks.push(Kept {
        node: 2,
        wav: Wav {
            rate: 48000,
            channels: 1,
            samples,
        },
    })?;
    let peaks = Items::from_slice(alloc, [Peak { node: 1, value: 9 }].as_slice())?;
    Ok(Outcome {
        history: Items::new(alloc),
        sinks,
        peaks,
    })
}

#[test]
fn links_and_results_are_told(rt: HostRuntime) -> Result<(), Fail> {
    let alloc = rt.alloc();
    let link = LinkLine {
        from: PortId { node: 0, port: 0 },
        to: PortId { node: 2, port: 0 },
        outcome: LineOutcome::Linked {
            rate: 48000,
            channels: 1,
            buffers: 2,
        },
    };
    let plan = Plan {
        quantum: 4,
        nodes: three_nodes(alloc, 48000)?,
        epochs: Items::new(alloc),
        lines: Items::from_slice(alloc, [link].as_slice())?,
    };
    let outcome = two_frames(alloc, [7i16, 8, 9, 0].as_slice())?;
    let text = run_text(alloc, &plan, None, &outcome)?;
    assert!(rt; text.as_slice() == b"link s.out o.in 48000 1 2\npeak p 9\nwrote o 4\n".as_slice());
    Ok(())
}

#[test]
fn events_are_told_in_order(rt: HostRuntime) -> Result<(), Fail> {
    let alloc = rt.alloc();
    let plan = Plan {
        quantum: 2,
        nodes: three_nodes(alloc, 0)?,
        epochs: Items::new(alloc),
        lines: Items::new(alloc),
    };
    let events = [
        Event::Begin { cycle: 0 },
        Event::Start { cycle: 0, node: 0 },
        Event::Tick { cycle: 0, late: 6 },
        Event::Finish { cycle: 0, node: 63 },
        Event::End { cycle: 4294967295 },
    ];
    let history = Items::from_slice(alloc, events.as_slice())?;
    let outcome = Outcome {
        history: Items::new(alloc),
        sinks: Items::new(alloc),
        peaks: Items::new(alloc),
    };
    let text = run_text(alloc, &plan, Some(&history), &outcome)?;
    assert!(rt;
        text.as_slice()
            == b"begin 0\nstart 0 s\ntick 0 p o\nfinish 0 dummy\nend 4294967295\nunused p\nunused o\n".as_slice()
    );
    Ok(())
}

/// The names `s`, `o` and `p` of nodes 0, 1 and 2.
fn three_names(alloc: Global) -> Result<Items<Text>, Memory>
    ensures { IfOk result (λ names. names ≡ codes "s" ∷ codes "o" ∷ codes "p" ∷ []) }
{
    let mut names = Items::new(alloc);
    names.push(Items::from_slice(alloc, b"s".as_slice())?)?;
    names.push(Items::from_slice(alloc, b"o".as_slice())?)?;
    names.push(Items::from_slice(alloc, b"p".as_slice())?)?;
    Ok(names)
}

/// Event lines, and what they tell: a cycle of three nodes; ticks, and a start of the built-in
/// driver in a line without its line feed.
const LINES: [(&'static [u8], &'static [Event]); 2] = [
    (
        b"begin 0\nstart 0 s\nfinish 0 s\nstart 0 o\nfinish 0 o\nstart 0 p\nfinish 0 p\nend 0\n",
        &[
            Event::Begin { cycle: 0 },
            Event::Start { cycle: 0, node: 0 },
            Event::Finish { cycle: 0, node: 0 },
            Event::Start { cycle: 0, node: 1 },
            Event::Finish { cycle: 0, node: 1 },
            Event::Start { cycle: 0, node: 2 },
            Event::Finish { cycle: 0, node: 2 },
            Event::End { cycle: 0 },
        ],
    ),
    (
        b"tick 0\ntick 7 s p dummy\nstart 4294967295 dummy",
        &[
            Event::Tick { cycle: 0, late: 0 },
            Event::Tick {
                cycle: 7,
                late: 0x8000_0000_0000_0005,
            },
            Event::Start {
                cycle: 4294967295,
                node: 63,
            },
        ],
    ),
];

#[test]
fn event_lines_are_read_and_the_last_may_lack_its_line_feed(rt: HostRuntime) -> Result<(), Fail> {
    let names = three_names(rt.alloc())?;
    for (text, wanted) in LINES.as_slice() {
        let Ok(events) = read_events(rt.alloc(), &names, text) else {
            panic!(rt; "{text:?} are event lines");
        };
        assert!(rt; events.as_slice() == *wanted, "{text:?}");
    }
    Ok(())
}

#[test]
fn a_line_that_is_no_event_is_found_by_its_number(rt: HostRuntime) -> Result<(), Fail> {
    let names = three_names(rt.alloc())?;
    // A text, and the line at fault.
    for (text, line) in [
        (b"\n".as_slice(), Some(1)),
        (b"begin 0 \n".as_slice(), Some(1)),
        (b"begin  0\n".as_slice(), Some(1)),
        (b"begin 00\n".as_slice(), Some(1)),
        (b"begin +1\n".as_slice(), Some(1)),
        (b"begin 4294967296\n".as_slice(), Some(1)),
        (b"begin 0\r\n".as_slice(), Some(1)),
        (b"Begin 0\n".as_slice(), Some(1)),
        (b"begin\n".as_slice(), Some(1)),
        (b"start 0\n".as_slice(), Some(1)),
        (b"start 0 x\n".as_slice(), Some(1)),
        (b"start 0 s o\n".as_slice(), Some(1)),
        (b"tick 0 o s\n".as_slice(), Some(1)),
        (b"tick 0 s s\n".as_slice(), Some(1)),
        (b"begin 0\n\nend 0\n".as_slice(), Some(2)),
        (b"begin 0\nend 0\n\n".as_slice(), Some(3)),
        (b"".as_slice(), None),
    ] {
        let found = match read_events(rt.alloc(), &names, text) {
            Err(TraceFault::Line(number)) => Some(number),
            Ok(_) | Err(TraceFault::Memory) => None,
        };
        assert_eq!(rt; found, line, "{text:?}");
    }
    Ok(())
}
