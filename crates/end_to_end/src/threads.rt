//! Which threads run the nodes of a command, as its gate and its ticker see it.

use pw_outside::{Gate, Meet, MemSink, Never, Open, Ticker};
use pw_top::{Status, run_words};
use row_files::{SURE, files_of, words_of};
use std::sync::Wait;
use std::sync::atomic::{AtomicU64, Ordering};
use std::thread::Threads;

/// Two parts of two nodes each, for one cycle: the nodes 2 and 3 drive.
const TWO_PARTS: &'static [u8] = b"quantum 2\nsquare a 48000 1 4 100\nsquare b 48000 1 4 10\n\
    sink o o.wav\nsink p p.wav\ndriver o 1\ndriver p 1\nlink a.out o.in\nlink b.out p.in\n\
    cycles 1\n";

/// Two squares of two loops into a sink that drives, for one cycle.
const TWO_LOOPS: &'static [u8] = b"quantum 2\nsquare a 48000 1 4 100\nloop a 0\n\
    square b 48000 1 4 10\nloop b 1\nsink o o.wav\ndriver o 1\nlink a.out o.in\nlink b.out o.in\n\
    cycles 1\n";

/// Two squares of one loop into a sink that drives, for one cycle.
const ONE_LOOP: &'static [u8] = b"quantum 2\nsquare a 48000 1 4 100\nloop a 0\n\
    square b 48000 1 4 10\nloop b 0\nsink o o.wav\ndriver o 1\nlink a.out o.in\nlink b.out o.in\n\
    cycles 1\n";

// How many events the report of a line has by this gate and ticker, or none where it is refused.
fn events_of<R: Threads + Wait + Sync + AllocGlobal, G: Gate + Sync, K: Ticker>(
    rt: &R,
    line: &str,
    script: &[u8],
    gate: &G,
    ticker: &mut K,
) -> Option<usize> {
    let alloc = rt.alloc();
    let (Ok(words), Ok(mut files), Ok(mut out)) = (
        words_of(alloc, line),
        files_of(alloc, script, [].as_slice(), SURE),
        MemSink::new(alloc),
    ) else {
        return None;
    };
    let words = words.as_slice();
    let report = run_words(rt, alloc, words, &mut files, &mut out, gate, ticker);
    if report.status == Status::Ok {
        Some(report.history.len())
    } else {
        None
    }
}

#[test]
fn a_report_has_the_events_of_all_parts(rt: HostRuntime) {
    let events = events_of(
        &rt,
        "groups s.graph",
        TWO_PARTS,
        &Open::new(),
        &mut Never::new(),
    );
    assert_eq!(rt; events, Some(12));
}

/// Lets two nodes look for each other in only the first cycle, so that one thread is soon done.
#[derive(Drop)]
struct MeetAtFirst(Meet);

impl Gate for MeetAtFirst {
    fn enter(&self, node: u32, cycle: u32) {
        if cycle == 0 {
            self.0.enter(node, cycle);
        }
    }
}

// Whether two nodes were awake at once. None where the line is refused.
fn meet<R: Threads + Wait + Sync + AllocGlobal>(
    rt: &R,
    line: &str,
    script: &[u8],
    nodes: (u32, u32),
) -> Option<bool> {
    let gate = MeetAtFirst(Meet::new(nodes.0, nodes.1));
    match events_of(rt, line, script, &gate, &mut Never::new()) {
        Some(_events) => Some(gate.0.met()),
        None => None,
    }
}

#[test]
fn two_loops_meet(rt: HostRuntime) {
    let met = meet(&rt, "run s.graph --loops 2", TWO_LOOPS, (0, 1));
    assert_eq!(rt; met, Some(true));
}

#[test]
fn one_thread_never_meets(rt: HostRuntime) {
    assert_eq!(rt; meet(&rt, "run s.graph", TWO_LOOPS, (0, 1)), Some(false));
}

#[test]
fn two_workers_meet_on_one_loop(rt: HostRuntime) {
    let met = meet(&rt, "run s.graph --loops 2 --steal", ONE_LOOP, (0, 1));
    assert_eq!(rt; met, Some(true));
}

#[test]
fn chains_of_a_soak_meet(rt: HostRuntime) {
    assert_eq!(rt; meet(&rt, "soak 1", b"", (0, 3)), Some(true));
}

#[test]
fn drivers_of_two_parts_meet(rt: HostRuntime) {
    assert_eq!(rt; meet(&rt, "groups s.graph", TWO_PARTS, (2, 3)), Some(true));
}

// How often a node looks for a question that is to come.
const LOOKS: u32 = 100_000_000;

/// Lets one node look, in the first cycle, for the first question to a ticker. The driver's thread
/// asks it, and each time after a turn of every loop that it runs itself: so it has not yet asked
/// where it runs the first node of such a loop.
#[derive(Drop)]
struct Questions {
    node: u32,
    looks: u32,
    asked: AtomicU64,
    seen: AtomicU64,
}

impl Questions {
    // A gate for this node.
    fn new(node: u32, looks: u32) -> Questions {
        Questions {
            node,
            looks,
            asked: AtomicU64::new(0),
            seen: AtomicU64::new(0),
        }
    }

    // Looks until the ticker has been asked, or often enough.
    fn look(&self) {
        for _look in 0..self.looks {
            if self.asked.load(Ordering::SeqCst) == 1 {
                self.seen.store(1, Ordering::SeqCst);
                return;
            }
        }
    }
}

impl Gate for Questions {
    fn enter(&self, node: u32, cycle: u32) {
        if cycle == 0 && node == self.node {
            self.look();
        }
    }
}

/// A ticker that is never due, and says that it was asked.
#[derive(Drop)]
struct Asked<'a> {
    questions: &'a Questions,
}

impl Ticker for Asked<'_> {
    ghost ticks = { λ _. 0 };

    fn due(&mut self) -> bool {
        self.questions.asked.store(1, Ordering::SeqCst);
        false
    }
}

// Whether the ticker was asked while a node was awake. None where the line is refused.
fn is_asked_beside<R: Threads + Wait + Sync + AllocGlobal>(
    rt: &R,
    line: &str,
    script: &[u8],
    node: u32,
    looks: u32,
) -> Option<bool> {
    let questions = Questions::new(node, looks);
    let mut ticker = Asked {
        questions: &questions,
    };
    match events_of(rt, line, script, &questions, &mut ticker) {
        Some(_events) => Some(questions.seen.load(Ordering::SeqCst) == 1),
        None => None,
    }
}

#[test]
fn no_loop_is_adopted_that_was_not_asked_to_be(rt: HostRuntime) {
    for (line, script, node) in [
        ("run s.graph", ONE_LOOP, 0),
        ("run s.graph --loops 2", TWO_LOOPS, 0),
        ("run s.graph --loops 2", TWO_LOOPS, 1),
        ("soak 1", b"".as_slice(), 0),
        ("soak 1", b"".as_slice(), 3),
    ] {
        assert_eq!(rt;
            is_asked_beside(&rt, line, script, node, LOOKS),
            Some(true),
            "{line}"
        );
    }
    let alone = is_asked_beside(&rt, "run s.graph --loops 0", ONE_LOOP, 0, 1000);
    assert_eq!(rt; alone, Some(false));
}
