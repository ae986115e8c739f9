//! Runs of several parts of which some cannot be started in threads of their own.
ghost use Rattle.group_tests.specs.Groups.{CanRunAll};

use crate::group::{Group, GroupRow, group_of};
use crate::runs::{RunRow, have_run};
use driver_groups::{run_parts, run_parts_with};
use graph_run::Starts;
use pw_lists::Items;
use pw_outside::{Gate, Meet, Open};
use std::alloc::Global;
use std::sync::Wait;
use std::test::Fail;
use std::thread::Threads;
use wav_files::Outcome;

/// Refuses the start of the part of one place, those of two, or that of each.
#[derive(Drop)]
pub(crate) struct Refusing {
    each: bool,
    place: u32,
    other: u32,
}

impl Refusing {
    pub(crate) fn one(place: u32) -> Refusing {
        Refusing::two(place, place)
    }

    pub(crate) fn two(place: u32, other: u32) -> Refusing {
        Refusing {
            each: false,
            place,
            other,
        }
    }

    pub(crate) fn all() -> Refusing {
        Refusing {
            each: true,
            place: 0,
            other: 0,
        }
    }
}

impl Starts for Refusing {
    ghost use Rattle.std.specs.Prelude.{◌==◌, ◌||◌};

    ghost refused = { λ s number. s.each || ((number == s.place) || (number == s.other)) };

    fn refuses(&self, number: u32) -> bool {
        self.each || number == self.place || number == self.other
    }
}

/// Four squares, each with a sink of its own that drives; one part has two epochs.
const FOUR_PARTS: RunRow<'static> = RunRow {
    group: GroupRow {
        texts: &[
            "quantum 2\nsquare a 48000 1 4 100\nsquare b 48000 1 4 50\nsquare c 48000 1 4 20\n\
                square d 48000 1 4 10\nsink o o.wav\nsink p p.wav\nsink q q.wav\nsink r r.wav\n\
                driver o 1\nlink a.out o.in\ncycles 1\n",
            "quantum 2\nsquare a 48000 1 4 100\nsquare b 48000 1 4 50\nsquare c 48000 1 4 20\n\
                square d 48000 1 4 10\nsink o o.wav\nsink p p.wav\nsink q q.wav\nsink r r.wav\n\
                driver p 1\nlink b.out p.in\ncycles 1\n",
            "quantum 2\nsquare a 48000 1 4 100\nsquare b 48000 1 4 50\nsquare c 48000 1 4 20\n\
                square d 48000 1 4 10\nsink o o.wav\nsink p p.wav\nsink q q.wav\nsink r r.wav\n\
                driver q 1\nlink c.out q.in\ncycles 1\n",
            "quantum 2\nsquare a 48000 1 4 100\nsquare b 48000 1 4 50\nsquare c 48000 1 4 20\n\
                square d 48000 1 4 10\nsink o o.wav\nsink p p.wav\nsink q q.wav\nsink r r.wav\n\
                driver r 1\nlink d.out r.in\ncycles 1\ncycles 2\n",
        ],
        sources: &[],
    },
    kept: &[
        (4, &[100, 100]),
        (5, &[50, 50]),
        (6, &[20, 20]),
        (7, &[10, 10, -10, -10, 10, 10]),
    ],
    boards: 5,
};

// Whether two outcomes say the same of the sinks.
fn have_same_waves(a: &Outcome, b: &Outcome) -> bool {
    let (a, b) = (a.sinks.as_slice(), b.sinks.as_slice());
    if a.len() != b.len() {
        return false;
    }
    for place in 0..a.len() {
        if a[place].node != b[place].node
            || a[place].wav.samples.as_slice() != b[place].wav.samples.as_slice()
        {
            return false;
        }
    }
    true
}

// Whether each part has kept the same in two runs, and the same happened in it.
fn are_same(a: &[Outcome], b: &[Outcome]) -> bool {
    if a.len() != b.len() {
        return false;
    }
    for place in 0..a.len() {
        if !have_same_waves(&a[place], &b[place])
            || a[place].history.as_slice() != b[place].history.as_slice()
        {
            return false;
        }
    }
    true
}

// What the parts of a group keep where these starts are refused, and how many boards are closed.
fn run_refusing<R: Threads + Wait + Sync, G: Gate + Sync>(
    rt: &R,
    alloc: Global,
    group: &Group,
    gate: &G,
    starts: &Refusing,
) -> Option<(Items<Outcome>, usize)>
    requires { CanRunAll group.now.parts group.now.waves }
{
    match run_parts_with(rt, alloc, &group.parts, &group.waves, gate, starts) {
        Ok((outcomes, closed)) => Some((outcomes, closed.len())),
        Err(_memory) => None,
    }
}

// Whether the parts of a group run as their row says where these starts are refused, and as they do
// where none is.
fn runs_all_the_same<R: Threads + Wait + Sync>(
    rt: &R,
    alloc: Global,
    group: &Group,
    row: &RunRow<'_>,
    starts: &Refusing,
) -> bool
    requires { CanRunAll group.now.parts group.now.waves }
{
    let Some((outcomes, boards)) = run_refusing(rt, alloc, group, &Open::new(), starts) else {
        return false;
    };
    match run_parts(rt, alloc, &group.parts, &group.waves, &Open::new()) {
        Ok((others, closed)) => {
            boards == row.boards
                && closed.len() == boards
                && have_run(group.parts.as_slice(), outcomes.as_slice(), row.kept)
                && are_same(outcomes.as_slice(), others.as_slice())
        }
        Err(_memory) => false,
    }
}

// Whether four parts run all the same whichever start is refused, the first part's too, which is
// asked of nobody, and where all are.
fn four_run_all_the_same<R: Threads + Wait + Sync>(rt: &R, alloc: Global) -> bool {
    let Some(group) = group_of(alloc, FOUR_PARTS.group) else {
        return false;
    };
    for place in 0..4 {
        if !runs_all_the_same(rt, alloc, &group, &FOUR_PARTS, &Refusing::one(place)) {
            return false;
        }
    }
    runs_all_the_same(rt, alloc, &group, &FOUR_PARTS, &Refusing::all())
}

#[test]
fn a_part_that_cannot_be_started_is_run_all_the_same(rt: HostRuntime) -> Result<(), Fail> {
    assert!(rt; four_run_all_the_same(&rt, rt.alloc()));
    Ok(())
}

// Whether the squares of two of the four parts meet where these starts are refused. None where
// there was no run.
fn squares_meet<R: Threads + Wait + Sync>(
    rt: &R,
    alloc: Global,
    starts: &Refusing,
    a: u32,
    b: u32,
) -> Option<bool> {
    let group = group_of(alloc, FOUR_PARTS.group)?;
    let meet = Meet::new(a, b);
    run_refusing(rt, alloc, &group, &meet, starts)?;
    Some(meet.met())
}

// Whether a refused part does not meet the first, nor another refused one, and the others meet.
fn refused_run_after_the_first<R: Threads + Wait + Sync>(rt: &R, alloc: Global) -> bool {
    squares_meet(rt, alloc, &Refusing::one(1), 0, 1) == Some(false)
        && squares_meet(rt, alloc, &Refusing::one(1), 0, 2) == Some(true)
        && squares_meet(rt, alloc, &Refusing::one(3), 1, 2) == Some(true)
        && squares_meet(rt, alloc, &Refusing::all(), 1, 2) == Some(false)
}

#[test]
fn a_part_that_cannot_be_started_is_the_callers(rt: HostRuntime) -> Result<(), Fail> {
    assert!(rt; refused_run_after_the_first(&rt, rt.alloc()));
    Ok(())
}
