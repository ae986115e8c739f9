//! By which hints the driver's thread finds the steps of cells, where no worker is started: then
//! the numbers are the same each time.
//!
//! The thread looks first for the node that it keeps, which its last step woke, and then for a
//! sign. Only a worker has a queue, so none is given. Only after some rounds in which nothing was
//! done it goes through all cells; as long as no sign is lost there is no such round, so none is
//! scanned. A cell has a step for each cycle, and one for its way into each later epoch.
ghost use Rattle.plan_support.specs.Work.{CanRun};

use graph_run::{AnyStarts, Roster};
use plan_support::{Work, WorkRow, work_of};
use pw_outside::{Every, Open};
use std::alloc::Global;
use std::sync::Wait;
use std::test::Fail;
use std::thread::Threads;
use steal_loops::{HintCounts, run_stealing_counted};

/// A work, and by which hints its steps are found.
#[derive(Clone, Copy, Drop)]
struct HintRow<'a> {
    work: WorkRow<'a>,
    hints: HintCounts,
}

/// A square, three gains in a chain and the sink that drives, for three cycles. The beginning of a
/// cycle sets the sign of the square; each step of it and of the gains wakes the next, which is
/// kept. The sink has no cell.
const CHAIN: HintRow<'static> = HintRow {
    work: WorkRow {
        text: "quantum 2\nsquare s 48000 1 4 100\ngain a 256\ngain b 256\ngain c 256\nsink o o.wav\n\
            driver o 1\nlink s.out a.in\nlink a.out b.in\nlink b.out c.in\nlink c.out o.in\ncycles 3\n",
        channels: 0,
        samples: &[],
    },
    hints: HintCounts {
        kept: 9,
        given: 0,
        signed: 3,
        scanned: 0,
    },
};

/// The same chain for two cycles, and in another epoch for one more. There each node has two steps.
/// The first, which the sign of the square or the node that is kept leads to, is the way into the
/// epoch, which sets the sign of the node again; the second runs it by this sign. So to the two
/// signs and six that are kept of the first epoch come a sign of the square, one of each of the
/// four nodes, and three gains that are kept.
const TWO_EPOCHS: HintRow<'static> = HintRow {
    work: WorkRow {
        text: "quantum 2\nsquare s 48000 1 4 100\ngain a 256\ngain b 256\ngain c 256\nsink o o.wav\n\
            driver o 1\nlink s.out a.in\nlink a.out b.in\nlink b.out c.in\nlink c.out o.in\ncycles 2\n\
            cycles 1\n",
        channels: 0,
        samples: &[],
    },
    hints: HintCounts {
        kept: 9,
        given: 0,
        signed: 7,
        scanned: 0,
    },
};

/// A square, four gains side by side and the sink that drives, for three cycles. The square has a
/// sign; its step wakes all gains, of which the first is kept, and the three others get signs.
const FAN: HintRow<'static> = HintRow {
    work: WorkRow {
        text: "quantum 2\nsquare s 48000 1 4 100\ngain a 64\ngain b 64\ngain c 64\ngain d 64\nsink o o.wav\n\
            driver o 1\nlink s.out a.in\nlink s.out b.in\nlink s.out c.in\nlink s.out d.in\n\
            link a.out o.in\nlink b.out o.in\nlink c.out o.in\nlink d.out o.in\ncycles 3\n",
        channels: 0,
        samples: &[],
    },
    hints: HintCounts {
        kept: 3,
        given: 0,
        signed: 12,
        scanned: 0,
    },
};

/// Two squares, two gains behind each, and the sink that drives, for three cycles. Both squares have
/// signs. The step of each wakes its gains, of which one is kept and one gets a sign; by that the
/// sign of the other square is not lost.
const TWO_SQUARES: HintRow<'static> = HintRow {
    work: WorkRow {
        text: "quantum 2\nsquare s 48000 1 4 100\nsquare t 48000 1 4 100\ngain a 64\ngain b 64\n\
            gain c 64\ngain d 64\nsink o o.wav\ndriver o 1\nlink s.out a.in\nlink t.out b.in\n\
            link s.out c.in\nlink t.out d.in\nlink a.out o.in\nlink b.out o.in\nlink c.out o.in\n\
            link d.out o.in\ncycles 3\n",
        channels: 0,
        samples: &[],
    },
    hints: HintCounts {
        kept: 6,
        given: 0,
        signed: 12,
        scanned: 0,
    },
};

/// Sixty squares and the sink that drives, for two cycles. The beginning of a cycle sets the signs
/// of all squares, and their steps wake nothing but the sink.
const SIXTY: HintRow<'static> = HintRow {
    work: WorkRow {
        text: "quantum 2\n\
        square s0 48000 1 4 5\nsquare s1 48000 1 4 5\nsquare s2 48000 1 4 5\n\
        square s3 48000 1 4 5\nsquare s4 48000 1 4 5\nsquare s5 48000 1 4 5\n\
        square s6 48000 1 4 5\nsquare s7 48000 1 4 5\nsquare s8 48000 1 4 5\n\
        square s9 48000 1 4 5\nsquare s10 48000 1 4 5\nsquare s11 48000 1 4 5\n\
        square s12 48000 1 4 5\nsquare s13 48000 1 4 5\nsquare s14 48000 1 4 5\n\
        square s15 48000 1 4 5\nsquare s16 48000 1 4 5\nsquare s17 48000 1 4 5\n\
        square s18 48000 1 4 5\nsquare s19 48000 1 4 5\nsquare s20 48000 1 4 5\n\
        square s21 48000 1 4 5\nsquare s22 48000 1 4 5\nsquare s23 48000 1 4 5\n\
        square s24 48000 1 4 5\nsquare s25 48000 1 4 5\nsquare s26 48000 1 4 5\n\
        square s27 48000 1 4 5\nsquare s28 48000 1 4 5\nsquare s29 48000 1 4 5\n\
        square s30 48000 1 4 5\nsquare s31 48000 1 4 5\nsquare s32 48000 1 4 5\n\
        square s33 48000 1 4 5\nsquare s34 48000 1 4 5\nsquare s35 48000 1 4 5\n\
        square s36 48000 1 4 5\nsquare s37 48000 1 4 5\nsquare s38 48000 1 4 5\n\
        square s39 48000 1 4 5\nsquare s40 48000 1 4 5\nsquare s41 48000 1 4 5\n\
        square s42 48000 1 4 5\nsquare s43 48000 1 4 5\nsquare s44 48000 1 4 5\n\
        square s45 48000 1 4 5\nsquare s46 48000 1 4 5\nsquare s47 48000 1 4 5\n\
        square s48 48000 1 4 5\nsquare s49 48000 1 4 5\nsquare s50 48000 1 4 5\n\
        square s51 48000 1 4 5\nsquare s52 48000 1 4 5\nsquare s53 48000 1 4 5\n\
        square s54 48000 1 4 5\nsquare s55 48000 1 4 5\nsquare s56 48000 1 4 5\n\
        square s57 48000 1 4 5\nsquare s58 48000 1 4 5\nsquare s59 48000 1 4 5\n\
        sink o o.wav\ndriver o 1\n\
        link s0.out o.in\nlink s1.out o.in\nlink s2.out o.in\nlink s3.out o.in\n\
        link s4.out o.in\nlink s5.out o.in\nlink s6.out o.in\nlink s7.out o.in\n\
        link s8.out o.in\nlink s9.out o.in\nlink s10.out o.in\nlink s11.out o.in\n\
        link s12.out o.in\nlink s13.out o.in\nlink s14.out o.in\nlink s15.out o.in\n\
        link s16.out o.in\nlink s17.out o.in\nlink s18.out o.in\nlink s19.out o.in\n\
        link s20.out o.in\nlink s21.out o.in\nlink s22.out o.in\nlink s23.out o.in\n\
        link s24.out o.in\nlink s25.out o.in\nlink s26.out o.in\nlink s27.out o.in\n\
        link s28.out o.in\nlink s29.out o.in\nlink s30.out o.in\nlink s31.out o.in\n\
        link s32.out o.in\nlink s33.out o.in\nlink s34.out o.in\nlink s35.out o.in\n\
        link s36.out o.in\nlink s37.out o.in\nlink s38.out o.in\nlink s39.out o.in\n\
        link s40.out o.in\nlink s41.out o.in\nlink s42.out o.in\nlink s43.out o.in\n\
        link s44.out o.in\nlink s45.out o.in\nlink s46.out o.in\nlink s47.out o.in\n\
        link s48.out o.in\nlink s49.out o.in\nlink s50.out o.in\nlink s51.out o.in\n\
        link s52.out o.in\nlink s53.out o.in\nlink s54.out o.in\nlink s55.out o.in\n\
        link s56.out o.in\nlink s57.out o.in\nlink s58.out o.in\nlink s59.out o.in\n\
        cycles 2\n",
        channels: 0,
        samples: &[],
    },
    hints: HintCounts {
        kept: 0,
        given: 0,
        signed: 120,
        scanned: 0,
    },
};

// By which hints the steps of a run were found, by these workers. None where there are more than
// 16, or no memory.
fn hints_of<R: Threads + Wait + Sync>(
    rt: &R,
    alloc: Global,
    work: &Work,
    adopt: &[bool],
) -> Option<HintCounts>
    requires { CanRun work.now.plan work.now.waves }
{
    if adopt.len() > 16 {
        return None;
    }
    let mut ticker = Every::new(2);
    let (gate, starts) = (Open::new(), AnyStarts::new());
    let roster = Roster {
        loops: adopt.len() as u32,
        adopt,
        starts: &starts,
    };
    let (plan, waves) = (&work.plan, &work.waves);
    match run_stealing_counted(rt, alloc, plan, waves, &roster, &gate, &mut ticker) {
        Ok((_outcome, _closed, counts)) => Some(counts.hints),
        Err(_memory) => None,
    }
}

// Whether the steps of a row are found by its hints, by these workers.
fn row_is_found<R: Threads + Wait + Sync>(
    rt: &R,
    alloc: Global,
    row: &HintRow<'_>,
    adopt: &[bool],
) -> bool {
    match work_of(alloc, row.work) {
        Some(work) => hints_of(rt, alloc, &work, adopt) == Some(row.hints),
        None => false,
    }
}

// The first row whose steps are found otherwise by these workers.
fn first_unlike<R: Threads + Wait + Sync>(rt: &R, alloc: Global, adopt: &[bool]) -> Option<usize> {
    let rows = [CHAIN, TWO_EPOCHS, FAN, TWO_SQUARES, SIXTY];
    for at in 0..rows.len() {
        if !row_is_found(rt, alloc, &rows[at], adopt) {
            return Some(at);
        }
    }
    None
}

#[test]
fn steps_are_found_by_kept_nodes_and_signs(rt: HostRuntime) -> Result<(), Fail> {
    assert_eq!(rt; first_unlike(&rt, rt.alloc(), &[]), None);
    Ok(())
}

#[test]
fn named_workers_leave_the_hints_as_they_are(rt: HostRuntime) -> Result<(), Fail> {
    assert_eq!(rt; first_unlike(&rt, rt.alloc(), &[true; 3]), None);
    Ok(())
}
