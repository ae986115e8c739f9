//! Traces of a plan: legal ones, and such as stop at an event or a line.

use crate::meter::{names, plan};
use graph_checks::is_sound_plan;
use pw_graph::Event;
use pw_lists::{Items, Memory};
use std::alloc::Global;
use std::process::Abort;
use std::test::Fail;
use trace_check::{Finding, Verdict, check, check_trace};

/// What is found of a trace, for a plan of two epochs, of `first` and of `second` cycles.
fn found<R: AllocGlobal + Abort>(
    rt: &R,
    first: u32,
    second: u32,
    text: &str,
) -> Result<Finding, Memory> {
    let alloc = rt.alloc();
    let plan = plan(alloc, first, second)?;
    let names = names(alloc)?;
    let sound = is_sound_plan(&plan);
    assert!(rt; sound);
    let bytes = text.as_bytes();
    let short = bytes.len() < 100_000;
    assert!(rt; short);
    check_trace(alloc, &plan, &names, bytes)
}

/// The finding that the first of a list of events that is illegal has this place.
fn stops_at(at: u32) -> Finding {
    Finding::Events(Verdict::Illegal { at })
}

const LEGAL: Finding = Finding::Events(Verdict::Legal);

#[test]
fn traces_are_legal_or_stop_at_their_first_illegal_event(rt: HostRuntime) -> Result<(), Fail> {
    let whole =
        "begin 0\nstart 0 s\nfinish 0 s\nstart 0 o\nfinish 0 o\nstart 0 p\nfinish 0 p\nend 0\n";
    let turned =
        "begin 0\nstart 0 s\nstart 0 o\nfinish 0 s\nfinish 0 o\nstart 0 p\nfinish 0 p\nend 0\n";
    let front = "begin 0\nstart 0 s\nfinish 0 s\nstart 0 o\n";
    assert!(rt; found(&rt, 1, 0, whole)? == LEGAL);
    assert!(rt; found(&rt, 1, 0, turned)? == stops_at(3));
    assert!(rt; found(&rt, 1, 0, front)? == stops_at(5));
    assert!(rt; found(&rt, 1, 0, "")? == stops_at(1));
    assert!(rt; found(&rt, 0, 0, "")? == LEGAL);
    assert!(rt; found(&rt, 0, 0, "begin 0\n")? == stops_at(1));
    assert!(rt; found(&rt, 1, 0, "begin 0\nstart 0 zz\n")? == Finding::Line(2));
    Ok(())
}

/// Each trace stops at the place before it.
const ILLEGAL: [(u32, &str); 16] = [
    (1, "start 0 s\n"),
    (1, "begin 1\n"),
    (2, "begin 0\nbegin 0\n"),
    (2, "begin 0\nend 0\n"),
    (2, "begin 0\nfinish 0 s\n"),
    (2, "begin 0\nstart 1 s\n"),
    (2, "begin 0\nstart 0 dummy\n"),
    (3, "begin 0\nstart 0 s\nstart 0 s\n"),
    (4, "begin 0\nstart 0 s\nfinish 0 s\nfinish 0 s\n"),
    (4, "begin 0\nstart 0 s\nfinish 0 s\nstart 0 p\n"),
    (3, "begin 0\ntick 0\ntick 0 s\n"),
    (4, "begin 0\nstart 0 s\nfinish 0 s\ntick 0 s\n"),
    (2, "begin 0\ntick 0 p\n"),
    (2, "begin 0\ntick 0 dummy\n"),
    (
        7,
        "begin 0\nstart 0 s\nfinish 0 s\nstart 0 o\nfinish 0 o\nstart 0 p\ntick 0\n",
    ),
    (
        7,
        "begin 0\nstart 0 s\nfinish 0 s\nstart 0 o\nfinish 0 o\nstart 0 p\nend 0\nfinish 0 p\n",
    ),
];

#[test]
fn illegal_traces_are_told_by_their_place(rt: HostRuntime) -> Result<(), Fail> {
    for (place, text) in ILLEGAL.iter() {
        assert!(rt; found(&rt, 1, 1, text)? == stops_at(*place), "{text}");
    }
    Ok(())
}

/// The events of one cycle, with a late check of these nodes after the source.
fn put_cycle(events: &mut Items<Event>, cycle: u32, late: u64) -> Result<(), Memory> {
    events.push(Event::Begin { cycle })?;
    events.push(Event::Start { cycle, node: 0 })?;
    events.push(Event::Finish { cycle, node: 0 })?;
    events.push(Event::Tick { cycle, late })?;
    for node in [2, 1] {
        events.push(Event::Start { cycle, node })?;
        events.push(Event::Finish { cycle, node })?;
    }
    events.push(Event::End { cycle })
}

/// The verdict on the events of `cycles` cycles, where the plan has two epochs of three.
fn verdict_on<R: AllocGlobal + Abort>(rt: &R, cycles: u32, late: u64) -> Result<Verdict, Memory> {
    let alloc = rt.alloc();
    let plan = plan(alloc, 3, 3)?;
    let mut events = Items::new(alloc);
    for cycle in 0..cycles {
        put_cycle(&mut events, cycle, late)?;
    }
    let sound = is_sound_plan(&plan);
    assert!(rt; sound);
    let short = events.len() < 100_000;
    assert!(rt; short);
    check(alloc, &plan, &events)
}

#[test]
fn a_legal_trace_has_the_cycles_of_all_epochs(rt: HostRuntime) -> Result<(), Fail> {
    assert!(rt; verdict_on(&rt, 6, 4)? == Verdict::Legal);
    assert!(rt; verdict_on(&rt, 6, 0)? == Verdict::Legal);
    assert!(rt; verdict_on(&rt, 5, 4)? == Verdict::Illegal { at: 46 });
    assert!(rt; verdict_on(&rt, 7, 4)? == Verdict::Illegal { at: 55 });
    assert!(rt; verdict_on(&rt, 6, 1)? == Verdict::Illegal { at: 4 });
    assert!(rt; verdict_on(&rt, 6, 2)? == Verdict::Illegal { at: 4 });
    assert!(rt; verdict_on(&rt, 6, 8)? == Verdict::Illegal { at: 4 });
    Ok(())
}
