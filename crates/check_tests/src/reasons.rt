//! Reasons for which events are no legal history, each worked out by hand.

use crate::meter::plan;
use graph_checks::is_sound_plan;
use pw_graph::Event;
use pw_lists::{Items, Memory};
use std::alloc::Global;
use std::process::Abort;
use std::test::Fail;
use trace_check::{Cause, Reason, reason_of};

/// Why events are no legal history of two epochs of one cycle each.
fn reason<R: AllocGlobal + Abort>(rt: &R, events: &[Event]) -> Result<Option<Reason>, Memory> {
    let alloc = rt.alloc();
    let plan = plan(alloc, 1, 1)?;
    let events = Items::from_slice(alloc, events)?;
    let sound = is_sound_plan(&plan);
    assert!(rt; sound);
    let short = events.len() < 100_000;
    assert!(rt; short);
    reason_of(alloc, &plan, &events)
}

/// Events of cycle 0: the source is node 0, the meter, which drives, node 1, the sink node 2.
const BEGIN: Event = Event::Begin { cycle: 0 };

const START_SOURCE: Event = Event::Start { cycle: 0, node: 0 };

const FINISH_SOURCE: Event = Event::Finish { cycle: 0, node: 0 };

const START_METER: Event = Event::Start { cycle: 0, node: 1 };

const FINISH_METER: Event = Event::Finish { cycle: 0, node: 1 };

const START_SINK: Event = Event::Start { cycle: 0, node: 2 };

const FINISH_SINK: Event = Event::Finish { cycle: 0, node: 2 };

const END: Event = Event::End { cycle: 0 };

/// A Tick of no late node, one of the source, of the meter, of the source and the sink, of all
/// three, and of a node that is not there.
const TICK: Event = Event::Tick { cycle: 0, late: 0 };

const TICK_SOURCE: Event = Event::Tick { cycle: 0, late: 1 };

const TICK_METER: Event = Event::Tick { cycle: 0, late: 2 };

const TICK_BOTH: Event = Event::Tick { cycle: 0, late: 5 };

const TICK_ALL: Event = Event::Tick { cycle: 0, late: 7 };

const TICK_OTHER: Event = Event::Tick {
    cycle: 0,
    late: 0x8000_0000_0000_0000,
};

/// Events, the place of the first illegal one, and its cause.
const ROWS: &'static [(&'static [Event], u32, Cause)] = &[
    (&[], 1, Cause::NotBegun { cycle: 0 }),
    (&[START_SOURCE], 1, Cause::NotBegun { cycle: 0 }),
    (
        &[Event::Begin { cycle: 1 }],
        1,
        Cause::NotBegun { cycle: 0 },
    ),
    (&[BEGIN, BEGIN], 2, Cause::NotEnded { cycle: 0 }),
    (
        &[BEGIN, Event::Start { cycle: 1, node: 0 }],
        2,
        Cause::NotEnded { cycle: 0 },
    ),
    (
        &[BEGIN, Event::End { cycle: 1 }],
        2,
        Cause::NotEnded { cycle: 0 },
    ),
    (&[BEGIN], 2, Cause::NotFinished { cycle: 0, node: 0 }),
    (&[BEGIN, END], 2, Cause::NotFinished { cycle: 0, node: 0 }),
    (&[BEGIN, FINISH_SOURCE], 2, Cause::NotStarted),
    (
        &[BEGIN, Event::Finish { cycle: 0, node: 70 }],
        2,
        Cause::NotStarted,
    ),
    (
        &[BEGIN, Event::Start { cycle: 0, node: 63 }],
        2,
        Cause::NotActive,
    ),
    (
        &[BEGIN, Event::Start { cycle: 0, node: 70 }],
        2,
        Cause::NotActive,
    ),
    (&[BEGIN, START_SINK], 2, Cause::WaitsFor { node: 0 }),
    (&[BEGIN, START_METER], 2, Cause::WaitsFor { node: 0 }),
    (
        &[BEGIN, START_SOURCE, START_SINK],
        3,
        Cause::WaitsFor { node: 0 },
    ),
    (&[BEGIN, START_SOURCE, START_SOURCE], 3, Cause::Started),
    (
        &[BEGIN, START_SOURCE, FINISH_SOURCE, START_METER],
        4,
        Cause::WaitsFor { node: 2 },
    ),
    (
        &[BEGIN, START_SOURCE, FINISH_SOURCE, FINISH_SOURCE],
        4,
        Cause::Finished,
    ),
    (
        &[BEGIN, START_SOURCE, FINISH_SOURCE],
        4,
        Cause::NotFinished { cycle: 0, node: 1 },
    ),
];

/// The same of Ticks.
const TICKS: &'static [(&'static [Event], u32, Cause)] = &[
    (&[BEGIN, TICK, TICK_SOURCE], 3, Cause::Ticked),
    (&[BEGIN, TICK_BOTH, TICK], 3, Cause::Ticked),
    (
        &[BEGIN, START_SOURCE, FINISH_SOURCE, TICK_SOURCE],
        4,
        Cause::NotLate { node: 0 },
    ),
    (
        &[BEGIN, START_SOURCE, FINISH_SOURCE, TICK_BOTH],
        4,
        Cause::NotLate { node: 0 },
    ),
    (&[BEGIN, TICK_METER], 2, Cause::NotLate { node: 1 }),
    (&[BEGIN, TICK_ALL], 2, Cause::NotLate { node: 1 }),
    (&[BEGIN, TICK_OTHER], 2, Cause::NotLate { node: 63 }),
    (
        &[
            BEGIN,
            START_SOURCE,
            FINISH_SOURCE,
            START_SINK,
            FINISH_SINK,
            START_METER,
            TICK,
        ],
        7,
        Cause::DriverStarted,
    ),
];

/// A cycle whole.
const CYCLE: [Event; 8] = [
    BEGIN,
    START_SOURCE,
    FINISH_SOURCE,
    START_SINK,
    FINISH_SINK,
    START_METER,
    FINISH_METER,
    END,
];

// The first row that has another reason.
fn first_unlike<R: AllocGlobal + Abort>(
    rt: &R,
    rows: &[(&[Event], u32, Cause)],
) -> Result<Option<usize>, Memory> {
    for (row, (events, at, cause)) in rows.iter().enumerate() {
        let wanted = Reason {
            at: *at,
            cause: *cause,
        };
        if reason(rt, events)? != Some(wanted) {
            return Ok(Some(row));
        }
    }
    Ok(None)
}

#[test]
fn each_illegal_event_has_its_cause(rt: HostRuntime) -> Result<(), Fail> {
    assert_eq!(rt; first_unlike(&rt, ROWS)?, None);
    assert_eq!(rt; first_unlike(&rt, TICKS)?, None);
    Ok(())
}

/// The reason with this place and cause.
fn stops(at: u32, cause: Cause) -> Option<Reason> {
    Some(Reason { at, cause })
}

// Why the events of cycle 0, and then these, are no legal history.
fn reason_after<R: AllocGlobal + Abort>(
    rt: &R,
    count: usize,
    more: &[Event],
) -> Result<Option<Reason>, Memory> {
    let mut events = Items::new(rt.alloc());
    for event in CYCLE.iter().take(count) {
        events.push(*event)?;
    }
    events.extend(more)?;
    reason(rt, events.as_slice())
}

#[test]
fn what_is_missing_is_named(rt: HostRuntime) -> Result<(), Fail> {
    let left = Cause::NotFinished { cycle: 0, node: 1 };
    assert!(rt; reason_after(&rt, 6, &[])? == stops(7, left));
    assert!(rt; reason_after(&rt, 6, &[END])? == stops(7, left));
    assert!(rt; reason_after(&rt, 7, &[])? == stops(8, Cause::NotEnded { cycle: 0 }));
    assert!(rt; reason_after(&rt, 8, &[])? == stops(9, Cause::NotBegun { cycle: 1 }));
    assert!(rt; reason_after(&rt, 8, &[BEGIN])? == stops(9, Cause::NotBegun { cycle: 1 }));
    Ok(())
}

// The same event in cycle 1.
fn later(event: Event) -> Event {
    match event {
        Event::Begin { .. } => Event::Begin { cycle: 1 },
        Event::Start { node, .. } => Event::Start { cycle: 1, node },
        Event::Finish { node, .. } => Event::Finish { cycle: 1, node },
        Event::Tick { late, .. } => Event::Tick { cycle: 1, late },
        Event::End { .. } => Event::End { cycle: 1 },
    }
}

#[test]
fn a_legal_history_has_no_reason_and_nothing_comes_after_it(rt: HostRuntime) -> Result<(), Fail> {
    let mut more = Items::new(rt.alloc());
    for event in CYCLE.iter() {
        more.push(later(*event))?;
    }
    assert!(rt; reason_after(&rt, 8, more.as_slice())?.is_none());
    more.push(Event::Begin { cycle: 2 })?;
    assert!(rt; reason_after(&rt, 8, more.as_slice())? == stops(17, Cause::AllEnded));
    Ok(())
}
