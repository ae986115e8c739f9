//! Runs of several parts: what their sinks keep, and whether they meet.
ghost use Rattle.group_tests.specs.Groups.{CanRunAll};

use crate::group::{Group, GroupRow, group_of};
use driver_groups::run_parts;
use graph_checks::is_legal_history;
use plan_support::MeetAll;
use pw_graph::Part;
use pw_outside::{Gate, Meet, Open};
use std::alloc::Global;
use std::sync::Wait;
use std::test::Fail;
use std::thread::Threads;
use wav_files::Outcome;

/// A run: the node and the samples of the one sink that works in each part, and the closed boards
/// of all parts.
#[derive(Clone, Copy, Drop)]
pub(crate) struct RunRow<'a> {
    pub group: GroupRow<'a>,
    pub kept: &'a [(u32, &'a [i16])],
    pub boards: usize,
}

/// Two devices of unequal length, each with its own source.
const TWO_FILES: RunRow<'static> = RunRow {
    group: GroupRow {
        texts: &[
            "quantum 2\nsource s s.wav\nsource t t.wav\nsink o o.wav\nsink p p.wav\n\
                driver o 1\nlink s.out o.in\ndrain\n",
            "quantum 2\nsource s s.wav\nsource t t.wav\nsink o o.wav\nsink p p.wav\n\
                driver p 1\nlink t.out p.in\ndrain\n",
        ],
        sources: &[&[1, 2], &[3, 4, 5, 6]],
    },
    kept: &[(2, &[1, 2]), (3, &[3, 4, 5, 6])],
    boards: 2,
};

/// Two squares, each with a sink of its own; the second sink is driven for two epochs.
const TWO_SQUARES: RunRow<'static> = RunRow {
    group: GroupRow {
        texts: &[
            "quantum 2\nsquare a 48000 1 4 100\nsquare b 48000 1 4 50\nsink o o.wav\nsink p p.wav\n\
                driver o 1\nlink a.out o.in\ncycles 3\n",
            "quantum 2\nsquare a 48000 1 4 100\nsquare b 48000 1 4 50\nsink o o.wav\nsink p p.wav\n\
                driver p 1\nlink b.out p.in\ncycles 1\ncycles 1\n",
        ],
        sources: &[],
    },
    kept: &[
        (2, &[100, 100, -100, -100, 100, 100]),
        (3, &[50, 50, -50, -50]),
    ],
    boards: 3,
};

/// Two squares into one sink, and so of one part.
const ONE_PART: RunRow<'static> = RunRow {
    group: GroupRow {
        texts: &[
            "quantum 2\nsquare a 48000 1 4 100\nsquare b 48000 1 4 50\nsink o o.wav\n\
            driver o 1\nlink a.out o.in\nlink b.out o.in\ncycles 1\n",
        ],
        sources: &[],
    },
    kept: &[(2, &[150, 150])],
    boards: 1,
};

/// Two squares that one sink keeps, and one with a sink of its own.
const TWO_AND_ONE: RunRow<'static> = RunRow {
    group: GroupRow {
        texts: &[
            "quantum 2\nsquare a 48000 1 4 100\nsquare b 48000 1 4 50\nsquare c 48000 1 4 10\n\
                sink o o.wav\nsink p p.wav\ndriver o 1\nlink a.out o.in\nlink b.out o.in\n\
                cycles 1\n",
            "quantum 2\nsquare a 48000 1 4 100\nsquare b 48000 1 4 50\nsquare c 48000 1 4 10\n\
                sink o o.wav\nsink p p.wav\ndriver p 1\nlink c.out p.in\ncycles 1\n",
        ],
        sources: &[],
    },
    kept: &[(3, &[150, 150]), (4, &[10, 10])],
    boards: 2,
};

/// Six squares, each with a sink of its own.
const SIX_SQUARES: RunRow<'static> = RunRow {
    group: GroupRow {
        texts: &[
            "quantum 2\nsquare a 48000 1 4 10\nsquare b 48000 1 4 20\nsquare c 48000 1 4 30\n\
                square d 48000 1 4 40\nsquare e 48000 1 4 50\nsquare f 48000 1 4 60\n\
                sink o o.wav\nsink p p.wav\nsink q q.wav\nsink r r.wav\nsink s s.wav\nsink t t.wav\n\
                driver o 1\nlink a.out o.in\ncycles 1\n",
            "quantum 2\nsquare a 48000 1 4 10\nsquare b 48000 1 4 20\nsquare c 48000 1 4 30\n\
                square d 48000 1 4 40\nsquare e 48000 1 4 50\nsquare f 48000 1 4 60\n\
                sink o o.wav\nsink p p.wav\nsink q q.wav\nsink r r.wav\nsink s s.wav\nsink t t.wav\n\
                driver p 1\nlink b.out p.in\ncycles 1\n",
            "quantum 2\nsquare a 48000 1 4 10\nsquare b 48000 1 4 20\nsquare c 48000 1 4 30\n\
                square d 48000 1 4 40\nsquare e 48000 1 4 50\nsquare f 48000 1 4 60\n\
                sink o o.wav\nsink p p.wav\nsink q q.wav\nsink r r.wav\nsink s s.wav\nsink t t.wav\n\
                driver q 1\nlink c.out q.in\ncycles 1\n",
            "quantum 2\nsquare a 48000 1 4 10\nsquare b 48000 1 4 20\nsquare c 48000 1 4 30\n\
                square d 48000 1 4 40\nsquare e 48000 1 4 50\nsquare f 48000 1 4 60\n\
                sink o o.wav\nsink p p.wav\nsink q q.wav\nsink r r.wav\nsink s s.wav\nsink t t.wav\n\
                driver r 1\nlink d.out r.in\ncycles 1\n",
            "quantum 2\nsquare a 48000 1 4 10\nsquare b 48000 1 4 20\nsquare c 48000 1 4 30\n\
                square d 48000 1 4 40\nsquare e 48000 1 4 50\nsquare f 48000 1 4 60\n\
                sink o o.wav\nsink p p.wav\nsink q q.wav\nsink r r.wav\nsink s s.wav\nsink t t.wav\n\
                driver s 1\nlink e.out s.in\ncycles 1\n",
            "quantum 2\nsquare a 48000 1 4 10\nsquare b 48000 1 4 20\nsquare c 48000 1 4 30\n\
                square d 48000 1 4 40\nsquare e 48000 1 4 50\nsquare f 48000 1 4 60\n\
                sink o o.wav\nsink p p.wav\nsink q q.wav\nsink r r.wav\nsink s s.wav\nsink t t.wav\n\
                driver t 1\nlink f.out t.in\ncycles 1\n",
        ],
        sources: &[],
    },
    kept: &[
        (6, &[10, 10]),
        (7, &[20, 20]),
        (8, &[30, 30]),
        (9, &[40, 40]),
        (10, &[50, 50]),
        (11, &[60, 60]),
    ],
    boards: 6,
};

/// No part at all.
const NO_PART: RunRow<'static> = RunRow {
    group: GroupRow {
        texts: &[],
        sources: &[],
    },
    kept: &[],
    boards: 0,
};

// Whether this sink keeps these samples, and the others nothing.
fn keeps(outcome: &Outcome, node: u32, samples: &[i16]) -> bool {
    let mut found = false;
    for kept in outcome.sinks.as_slice() {
        let here = kept.node == node;
        let wanted: &[i16] = if here { samples } else { &[] };
        if kept.wav.samples.as_slice() != wanted {
            return false;
        }
        found |= here;
    }
    found
}

// Whether a part has a legal history, and its sink keeps these samples.
fn has_run(part: &Part, outcome: &Outcome, node: u32, samples: &[i16]) -> bool {
    keeps(outcome, node, samples)
        && is_legal_history(part.plan.epochs.as_slice(), outcome.history.as_slice())
}

/// Whether each part has run so.
pub(crate) fn have_run(parts: &[Part], outcomes: &[Outcome], kept: &[(u32, &[i16])]) -> bool {
    if outcomes.len() != kept.len() || parts.len() != kept.len() {
        return false;
    }
    for place in 0..kept.len() {
        let (node, samples) = kept[place];
        if !has_run(&parts[place], &outcomes[place], node, samples) {
            return false;
        }
    }
    true
}

// Whether the runs of all parts go so.
fn runs_so<R: Threads + Wait + Sync, G: Gate + Sync>(
    rt: &R,
    alloc: Global,
    group: &Group,
    row: &RunRow<'_>,
    gate: &G,
) -> bool
    requires { CanRunAll group.now.parts group.now.waves }
{
    match run_parts(rt, alloc, &group.parts, &group.waves, gate) {
        Ok((outcomes, closed)) => {
            closed.len() == row.boards
                && have_run(group.parts.as_slice(), outcomes.as_slice(), row.kept)
        }
        Err(_memory) => false,
    }
}

// Whether a row goes so, whichever gate its nodes pass.
fn row_goes<R: Threads + Wait + Sync, G: Gate + Sync>(
    rt: &R,
    alloc: Global,
    row: &RunRow<'_>,
    gate: &G,
) -> bool {
    match group_of(alloc, row.group) {
        Some(group) => runs_so(rt, alloc, &group, row, gate),
        None => false,
    }
}

// The first row that goes otherwise.
fn first_unlike<R: Threads + Wait + Sync>(rt: &R, alloc: Global) -> Option<usize> {
    let rows = [TWO_FILES, TWO_SQUARES, ONE_PART, TWO_AND_ONE, NO_PART];
    for place in 0..rows.len() {
        if !row_goes(rt, alloc, &rows[place], &Open::new()) {
            return Some(place);
        }
    }
    None
}

#[test]
fn each_part_keeps_its_own_samples(rt: HostRuntime) -> Result<(), Fail> {
    assert_eq!(rt; first_unlike(&rt, rt.alloc()), None);
    Ok(())
}

// Whether two nodes of a row meet.
fn meets<R: Threads + Wait + Sync>(
    rt: &R,
    alloc: Global,
    row: &RunRow<'_>,
    a: u32,
    b: u32,
) -> bool {
    let gate = Meet::new(a, b);
    row_goes(rt, alloc, row, &gate) && gate.met()
}

#[test]
fn nodes_of_two_parts_meet(rt: HostRuntime) -> Result<(), Fail> {
    assert!(rt; meets(&rt, rt.alloc(), &TWO_FILES, 0, 1));
    assert!(rt; meets(&rt, rt.alloc(), &TWO_SQUARES, 0, 1));
    assert!(rt; meets(&rt, rt.alloc(), &TWO_AND_ONE, 0, 2));
    assert!(rt; meets(&rt, rt.alloc(), &TWO_AND_ONE, 1, 2));
    Ok(())
}

// Whether the squares of all six parts are awake at once.
fn six_meet<R: Threads + Wait + Sync>(rt: &R, alloc: Global) -> bool {
    let gate = MeetAll::new(0b11_1111);
    row_goes(rt, alloc, &SIX_SQUARES, &gate) && gate.met()
}

#[test]
fn six_parts_meet(rt: HostRuntime) -> Result<(), Fail> {
    assert!(rt; six_meet(&rt, rt.alloc()));
    Ok(())
}

// Whether a row goes as wanted, and two of its nodes do not meet.
fn goes_apart<R: Threads + Wait + Sync>(
    rt: &R,
    alloc: Global,
    row: &RunRow<'_>,
    a: u32,
    b: u32,
) -> bool {
    let gate = Meet::new(a, b);
    row_goes(rt, alloc, row, &gate) && !gate.met()
}

#[test]
fn nodes_of_one_part_do_not_meet(rt: HostRuntime) -> Result<(), Fail> {
    assert!(rt; goes_apart(&rt, rt.alloc(), &ONE_PART, 0, 1));
    assert!(rt; goes_apart(&rt, rt.alloc(), &TWO_AND_ONE, 0, 1));
    Ok(())
}
