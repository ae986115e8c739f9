//! The table of docs/ARCHITECTURE.md, line by line: all words of a board of four nodes after each
//! call of two cycles, with a link that is one cycle late. docs/table compares the two.
//!
//! A line has what was done, seven cells of words, and what the three seats know, which contracts
//! say and nobody reads here. A status is 4 times the cycle, and 1 more for TRIGGERED, 2 for AWAKE,
//! 3 for FINISHED. An area has the number of its block, a block its readers and its four samples.
ghost use Rattle.loop_tests.specs.Crew.{IsCrewOn};

use crate::crew::Crew;
use crate::stepping::try_at;
use crate::steps::crew_by;
use crate::table_lines::line_is;
use board_rule::Board;
use data_loop::Tried;
use plan_support::WorkRow;
use pw_outside::{Gate, Open};
use std::alloc::Global;
use std::sync::atomic::{AtomicU64, Ordering};
use std::test::Fail;

/// A source s is halved by g for the sink o, which drives; a second sink, late, receives s one
/// cycle late.
const GRAPH: WorkRow<'static> = WorkRow {
    text: "quantum 4\nsource s s.wav\ngain g 128\nloop g 1\nsink late late.wav\nloop late 0\n\
        async late\nsink o o.wav\ndriver o 1\n\
        link s.out g.in\nlink s.out late.in\nlink g.out o.in\ncycles 2\n",
    channels: 1,
    samples: &[2, -2, 4, -4, 6, -6, 8, -8],
};

// What is done.
#[derive(Clone, Copy, Drop)]
enum Call {
    // Nothing: the start.
    Nothing,
    // A cycle begins.
    Begins,
    // A loop tries a node too early, and finds this word.
    Early(usize, u32, u64),
    // A loop runs a node; inside its turn the line is this.
    Runs(usize, u32, &'static str),
    // The driver's node is claimed too early.
    LeadsEarly,
    // The driver's node runs, with this line inside its turn, and the cycle ends.
    Leads(&'static str),
}

const TABLE: [(Call, &'static str); 13] = [
    (
        Call::Nothing,
        "| the start | 0 0 0 0 | 0 0 0 0 | need - | have 0, need - | need - \
            | 1: 0 0 0 0; 0: 0 0 0 0 | 0: 0 0 0 0; 0: 0 0 0 0 | between, before cycle 0 \
            | s idle in 0, late idle in 0; block 0 out since the cycle before | g idle in 0 |",
    ),
    (
        Call::Begins,
        "| `begin` | 0 1 0 3 | 1 0 1 0 | need - | have 0, need - | need - \
            | 1: 0 0 0 0; 0: 0 0 0 0 | 0: 0 0 0 0; 0: 0 0 0 0 | waits in 0; woke s and late \
            | the same | the same |",
    ),
    (
        Call::Early(1, 1, 0),
        "| `claim` of g, too early | 0 1 0 3 | 1 0 1 0 | need - | have 0, need - | need - \
            | 1: 0 0 0 0; 0: 0 0 0 0 | 0: 0 0 0 0; 0: 0 0 0 0 | the same \
            | the same | g idle in 0; one try, which found 0 |",
    ),
    (
        Call::Runs(
            0,
            0,
            "| `claim` and `start` of s | 0 1 0 3 | 2 0 1 0 | need - | have 0, need - | need - \
                | 1: 0 0 0 0; 0: 0 0 0 0 | 0: 0 0 0 0; 0: 0 0 0 0 | the same \
                | s works in 0, late idle in 0; block 0 out since the cycle before | the same |",
        ),
        "| `write_output` and `finish` of s | 0 0 0 2 | 3 1 1 0 | have 1 | have 0, have 1 | need - \
            | 1: 0 0 0 0; 2: 2 -2 4 -4 | 0: 0 0 0 0; 0: 0 0 0 0 | the same \
            | s idle in 1, late idle in 0; blocks 0 and 1 out; woke g | the same |",
    ),
    (
        Call::Runs(
            0,
            2,
            "| `claim` and `start` of late | 0 0 0 2 | 3 1 2 0 | have 1 | have 0, have 1 | need - \
                | 1: 0 0 0 0; 2: 2 -2 4 -4 | 0: 0 0 0 0; 0: 0 0 0 0 | the same \
                | s idle in 1, late works in 0; blocks 0 and 1 out | the same |",
        ),
        "| `read_input` and `finish` of late | 0 0 0 1 | 3 1 3 0 | have 1 | need 0, have 1 \
            | need - \
            | 0: 0 0 0 0; 2: 2 -2 4 -4 | 0: 0 0 0 0; 0: 0 0 0 0 | the same \
            | s idle in 1, late idle in 1; blocks 0 and 1 out; read zeros of block 0 | the same |",
    ),
    (
        Call::LeadsEarly,
        "| `claim_driver`, too early | 0 0 0 1 | 3 1 3 0 | have 1 | need 0, have 1 | need - \
            | 0: 0 0 0 0; 2: 2 -2 4 -4 | 0: 0 0 0 0; 0: 0 0 0 0 \
            | waits in 0; one try, which found 0 | the same | the same |",
    ),
    (
        Call::Runs(
            1,
            1,
            "| `claim` and `start` of g | 0 0 0 1 | 3 2 3 0 | have 1 | need 0, have 1 | need - \
                | 0: 0 0 0 0; 2: 2 -2 4 -4 | 0: 0 0 0 0; 0: 0 0 0 0 | the same \
                | the same | g works in 0 |",
        ),
        "| `read_input`, `write_output` and `finish` of g | 0 0 0 0 | 3 3 3 1 | need 1 \
            | need 0, have 1 | have 0 \
            | 0: 0 0 0 0; 1: 2 -2 4 -4 | 1: 1 -1 2 -2; 0: 0 0 0 0 | the same \
            | the same | g idle in 1; its block 0 out; woke o |",
    ),
    (
        Call::Leads(
            "| `claim_driver` and `start` of o | 0 0 0 0 | 3 3 3 2 | need 1 | need 0, have 1 \
                | have 0 \
                | 0: 0 0 0 0; 1: 2 -2 4 -4 | 1: 1 -1 2 -2; 0: 0 0 0 0 | o works in 0 \
                | the same | the same |",
        ),
        "| `read_input` and `finish` of o, `end` | 0 0 0 0 | 3 3 3 3 | need 1 | need 0, have 1 \
            | need 0 \
            | 0: 0 0 0 0; 1: 2 -2 4 -4 | 0: 1 -1 2 -2; 0: 0 0 0 0 \
            | between, before cycle 1; read block 0 of g | the same | the same |",
    ),
    (
        Call::Begins,
        "| `begin` | 0 1 0 3 | 5 4 5 4 | need 1 | need 0, have 1 | need 0 \
            | 0: 0 0 0 0; 1: 2 -2 4 -4 | 0: 1 -1 2 -2; 0: 0 0 0 0 | waits in 1; woke s and late \
            | s idle in 1, late idle in 1; blocks 0 and 1 out | g idle in 1; its block 0 out |",
    ),
    (
        Call::Runs(
            0,
            2,
            "| `claim` and `start` of late | 0 1 0 3 | 5 4 6 4 | need 1 | need 0, have 1 | need 0 \
                | 0: 0 0 0 0; 1: 2 -2 4 -4 | 0: 1 -1 2 -2; 0: 0 0 0 0 | the same \
                | s idle in 1, late works in 1; blocks 0 and 1 out | the same |",
        ),
        "| `read_input` and `finish` of late | 0 1 0 2 | 5 4 7 4 | need 1 | need 0, need 1 \
            | need 0 \
            | 0: 0 0 0 0; 0: 2 -2 4 -4 | 0: 1 -1 2 -2; 0: 0 0 0 0 | the same \
            | s idle in 1, late idle in 2; blocks 0 and 1 out; read what s gave in 0 | the same |",
    ),
    (
        Call::Runs(
            0,
            0,
            "| `claim` and `start` of s | 0 1 0 2 | 6 4 7 4 | need 1 | need 0, need 1 | need 0 \
                | 0: 0 0 0 0; 0: 2 -2 4 -4 | 0: 1 -1 2 -2; 0: 0 0 0 0 | the same \
                | s works in 1, late idle in 2; blocks 0 and 1 out | the same |",
        ),
        "| `write_output` and `finish` of s | 0 0 0 1 | 7 5 7 4 | have 0 | have 0, need 1 | need 0 \
            | 2: 6 -6 8 -8; 0: 2 -2 4 -4 | 0: 1 -1 2 -2; 0: 0 0 0 0 | the same \
            | s idle in 2, late idle in 2; block 0 reclaimed, filled and out again; woke g \
            | the same |",
    ),
    (
        Call::Runs(
            1,
            1,
            "| `claim` and `start` of g | 0 0 0 1 | 7 6 7 4 | have 0 | have 0, need 1 | need 0 \
                | 2: 6 -6 8 -8; 0: 2 -2 4 -4 | 0: 1 -1 2 -2; 0: 0 0 0 0 | the same \
                | the same | g works in 1; its block 0 out |",
        ),
        "| `read_input`, `write_output` and `finish` of g | 0 0 0 0 | 7 7 7 5 | need 0 \
            | have 0, need 1 | have 1 \
            | 1: 6 -6 8 -8; 0: 2 -2 4 -4 | 0: 1 -1 2 -2; 1: 3 -3 4 -4 | the same \
            | the same | g idle in 2; its block 0 reclaimed, block 1 out; woke o |",
    ),
    (
        Call::Leads(
            "| `claim_driver` and `start` of o | 0 0 0 0 | 7 7 7 6 | need 0 | have 0, need 1 \
                | have 1 \
                | 1: 6 -6 8 -8; 0: 2 -2 4 -4 | 0: 1 -1 2 -2; 1: 3 -3 4 -4 | o works in 1 \
                | the same | the same |",
        ),
        "| `read_input` and `finish` of o, `end` | 0 0 0 0 | 7 7 7 7 | need 0 | have 0, need 1 \
            | need 1 \
            | 1: 6 -6 8 -8; 0: 2 -2 4 -4 | 0: 1 -1 2 -2; 0: 3 -3 4 -4 \
            | between, after cycle 1; read block 1 of g | the same | the same |",
    ),
];

// A gate that compares the words of a board with a line while a node has its turn.
#[derive(Drop)]
struct InTurn<'b> {
    alloc: Global,
    board: &'b Board,
    line: &'static str,
    seen: AtomicU64,
}

impl<'b> Gate for InTurn<'b> {
    fn enter(&self, _node: u32, _cycle: u32) {
        if line_is(self.alloc, self.board, self.line) {
            self.seen.fetch_add(1, Ordering::SeqCst);
        }
    }
}

// One turn of a node by its loop, with a line inside it.
fn runs(
    alloc: Global,
    board: &Board,
    crew: &mut Crew,
    which: usize,
    node: u32,
    line: &'static str,
) -> bool
    requires on { IsCrewOn board.now crew.old }
    ensures on { IsCrewOn board.now crew.new }
{
    let inside = InTurn {
        alloc,
        board,
        line,
        seen: AtomicU64::new(0),
    };
    let tried = try_at(board, crew, which, node, &inside);
    tried == Tried::Ran && inside.seen.load(Ordering::SeqCst) == 1
}

// The turn of the driver's node, with a line inside it.
fn leads(alloc: Global, board: &Board, crew: &mut Crew, line: &'static str) -> bool
    requires on { IsCrewOn board.now crew.old }
    ensures on { IsCrewOn board.now crew.new }
{
    let inside = InTurn {
        alloc,
        board,
        line,
        seen: AtomicU64::new(0),
    };
    let ended = crew.lead_at(board, &inside);
    ended && inside.seen.load(Ordering::SeqCst) == 1
}

// Whether a call goes so.
fn goes(alloc: Global, board: &Board, crew: &mut Crew, call: Call) -> bool
    requires on { IsCrewOn board.now crew.old }
    ensures on { IsCrewOn board.now crew.new }
{
    match call {
        Call::Nothing => true,
        Call::Begins => crew.begin(board),
        Call::Early(which, node, found) => {
            try_at(board, crew, which, node, &Open::new()) == Tried::NotYet { found }
        }
        Call::Runs(which, node, line) => runs(alloc, board, crew, which, node, line),
        Call::LeadsEarly => !crew.lead(board),
        Call::Leads(line) => leads(alloc, board, crew, line),
    }
}

// The first row whose call goes otherwise, or after which the words are others.
fn first_wrong(
    alloc: Global,
    board: &Board,
    crew: &mut Crew,
    rows: &[(Call, &'static str)],
) -> Option<usize>
    requires on { IsCrewOn board.now crew.old }
    ensures on { IsCrewOn board.now crew.new }
{
    for at in 0..rows.len() {
        if !goes(alloc, board, crew, rows[at].0) || !line_is(alloc, board, rows[at].1) {
            return Some(at);
        }
    }
    None
}

#[test]
fn two_cycles_leave_the_words_of_the_table(rt: HostRuntime) -> Result<(), Fail> {
    let wrong = match crew_by(rt.alloc(), GRAPH, 2) {
        Some((board, mut crew)) => first_wrong(rt.alloc(), &board, &mut crew, TABLE.as_slice()),
        None => Some(TABLE.len()),
    };
    assert_eq!(rt; wrong, None);
    Ok(())
}
