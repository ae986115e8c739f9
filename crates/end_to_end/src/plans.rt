//! What a call finds of a run: its script, its plan, the peaks of its meters, and what both sides of
//! a refused link admit, each worked out by hand.

use crate::finding::found_in;
use crate::offered::{AT_44100, AT_48000};
use pw_graph::{LineOutcome, LinkLine, Plan, PortId};
use pw_lists::{Items, Memory, Text};
use pw_top::What;
use refused_links::{RefusedLink, Sides, put_choice};
use row_files::{Faults, FileRow, Held, SURE, files_of};
use std::alloc::Global;
use std::sync::Wait;
use std::test::Fail;
use std::thread::Threads;
use wav_files::Peak;

/// A square, node 0, that a meter, node 1, measures; and a source, node 2, at 44100, whose link to
/// a sink, node 3, is refused, since the sink is offered 48000.
const LONE_SINK: &'static [u8] = b"quantum 4\nsquare q 48000 1 4 100\nmeter m\nsource s s.wav\n\
    sink o o.wav\ndriver m 1\noffer o in f.pod\nlink q.out m.in\nlink s.out o.in\ncycles 1\n";

/// Their files.
const FILES: &'static [FileRow<'static>] = &[("s.wav", AT_44100), ("f.pod", AT_48000)];

/// The same nodes, of which the sink keeps what the source has.
const PARTS: &'static [u8] = b"quantum 4\nsquare q 48000 1 4 100\nmeter m\nsource s s.wav\n\
    sink o o.wav\nlink q.out m.in\nlink s.out o.in\ncycles 1\n";

/// The same, which a run plans.
const ALL_LINKED: &'static [u8] = b"quantum 4\nsquare q 48000 1 4 100\nmeter m\nsource s s.wav\n\
    sink o o.wav\ndriver m 1\nlink q.out m.in\nlink s.out o.in\ncycles 1\n";

/// Their file.
const SAMPLES: &'static [FileRow<'static>] = &[("s.wav", Held::Mono(&[1, 2]))];

/// The format of a link of one channel at 48000.
const LINKED: LineOutcome = LineOutcome::Linked {
    rate: 48_000,
    channels: 1,
    buffers: 2,
};

/// The line from the square to the meter.
const METERED: LinkLine = LinkLine {
    from: PortId { node: 0, port: 0 },
    to: PortId { node: 1, port: 0 },
    outcome: LINKED,
};

/// The line from the source to the sink, with a format and without.
const SUNK: LinkLine = LinkLine {
    from: PortId { node: 2, port: 0 },
    to: PortId { node: 3, port: 0 },
    outcome: LINKED,
};

const REFUSED: LinkLine = LinkLine {
    outcome: LineOutcome::NoFormat { key: 65_539 },
    ..SUNK
};

/// The peak of the meter.
const PEAK: Peak = Peak {
    node: 1,
    value: 100,
};

// What a line finds over a script and files, where calls fail.
fn found_by<R: Threads + Wait + Sync + AllocGlobal>(
    rt: &R,
    line: &str,
    script: &[u8],
    rows: &[FileRow<'_>],
    faults: Faults,
) -> Result<What, Memory> {
    let mut files = files_of(rt.alloc(), script, rows, faults)?;
    let (found, _out) = found_in(rt, line, &mut files, faults.put.0)?;
    Ok(found.what)
}

// Whether these are the names of the nodes.
fn are_names(names: &Items<Text>) -> bool {
    match names.as_slice() {
        [q, m, s, o] => {
            q.as_slice() == b"q".as_slice()
                && m.as_slice() == b"m".as_slice()
                && s.as_slice() == b"s".as_slice()
                && o.as_slice() == b"o".as_slice()
        }
        _ => false,
    }
}

// What both sides of a refused link admit, in words.
fn both_sides(alloc: Global, link: &RefusedLink) -> Result<Text, Memory> {
    let mut words = Items::new(alloc);
    if let Sides::Both {
        from: Some(from),
        to: Some(to),
    } = &link.sides
    {
        put_choice(&mut words, from)?;
        words.extend(b" and ".as_slice())?;
        put_choice(&mut words, to)?;
    }
    Ok(words)
}

// The rate of the sink at the end of a plan.
fn sink_rate(plan: &Plan) -> Option<u32> {
    plan.nodes.as_slice().get(3).map(|node| node.rate)
}

#[test]
fn a_run_finds_its_script_its_links_and_its_peaks(rt: HostRuntime) -> Result<(), Fail> {
    let what = found_by(&rt, "run s.graph", LONE_SINK, FILES, SURE)?;
    let What::Run {
        script,
        plan,
        peaks,
        refused,
    } = &what
    else {
        panic!(rt; "no run was found");
    };
    assert!(rt; are_names(&script.names) && script.lines.len() == 10);
    assert!(rt; plan.lines.as_slice() == [METERED, REFUSED].as_slice());
    assert_eq!(rt; sink_rate(plan), Some(0));
    assert_eq!(rt; plan.epochs.len(), 1);
    assert!(rt; peaks.as_slice() == [PEAK].as_slice());
    assert_eq!(rt; refused.len(), 1);
    Ok(())
}

#[test]
fn groups_find_the_nodes_the_links_and_the_peaks_of_all_parts(rt: HostRuntime) -> Result<(), Fail> {
    let what = found_by(&rt, "groups s.graph", PARTS, SAMPLES, SURE)?;
    let What::Run {
        script,
        plan,
        peaks,
        refused,
    } = &what
    else {
        panic!(rt; "no run was found");
    };
    assert!(rt; are_names(&script.names) && script.lines.len() == 8);
    assert!(rt; plan.lines.as_slice() == [METERED, SUNK].as_slice());
    assert_eq!(rt; sink_rate(plan), Some(48_000));
    assert_eq!(rt; plan.epochs.len(), 0);
    assert!(rt; peaks.as_slice() == [PEAK].as_slice());
    assert_eq!(rt; refused.len(), 0);
    Ok(())
}

#[test]
fn a_run_finds_what_both_sides_of_a_refused_link_admit(rt: HostRuntime) -> Result<(), Fail> {
    let what = found_by(&rt, "run s.graph", LONE_SINK, FILES, SURE)?;
    let What::Run { refused, .. } = &what else {
        panic!(rt; "no run was found");
    };
    let [link] = refused.as_slice() else {
        panic!(rt; "{} links were refused", refused.len());
    };
    assert_eq!(rt; (link.line, link.place, link.key), (9, 1, 65_539));
    assert!(rt; link.from == REFUSED.from && link.to == REFUSED.to);
    assert!(rt; both_sides(rt.alloc(), link)?.as_slice() == b"44100 and 48000".as_slice());
    Ok(())
}

#[test]
fn no_refused_link_is_found_of_groups_nor_where_all_links_are_made(
    rt: HostRuntime,
) -> Result<(), Fail> {
    for (line, script, rows) in [
        ("run s.graph", ALL_LINKED, SAMPLES),
        ("groups s.graph", LONE_SINK, FILES),
    ] {
        let what = found_by(&rt, line, script, rows, SURE)?;
        let What::Run { refused, .. } = &what else {
            panic!(rt; "{line}: no run was found");
        };
        assert_eq!(rt; refused.len(), 0, "{line}");
    }
    Ok(())
}

/// A store and a put that fail.
const FAULTS: [Faults; 2] = [
    Faults {
        store: (1, 0),
        ..SURE
    },
    Faults {
        put: (1, 0),
        ..SURE
    },
];

#[test]
fn nothing_is_found_where_a_store_or_a_put_fails(rt: HostRuntime) -> Result<(), Fail> {
    for faults in FAULTS {
        for line in ["run s.graph", "groups s.graph"] {
            let what = found_by(&rt, line, PARTS, SAMPLES, faults)?;
            assert!(rt; matches!(what, What::Nothing), "{line}");
        }
    }
    Ok(())
}

#[test]
fn nothing_is_found_of_a_soak_and_of_what_is_refused(rt: HostRuntime) -> Result<(), Fail> {
    for line in ["run none", "groups none", "soak 1"] {
        let what = found_by(&rt, line, PARTS, SAMPLES, SURE)?;
        assert!(rt; matches!(what, What::Nothing), "{line}");
    }
    let what = found_by(&rt, "run s.graph", PARTS, FILES, Faults { load: 2, ..SURE })?;
    assert!(rt; matches!(what, What::Nothing));
    Ok(())
}
