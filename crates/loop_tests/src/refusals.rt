//! Runs of loops of which one cannot be started in a thread of its own.
ghost use Rattle.plan_support.specs.Work.{CanRun};

use crate::runs::{Kept, have_kept};
use graph_run::{Roster, Starts, run_plan_with};
use plan_support::{Work, WorkRow, work_of};
use pw_outside::{Every, Gate, Meet, Open};
use std::alloc::Global;
use std::sync::Wait;
use std::test::Fail;
use std::thread::Threads;
use wav_files::Outcome;

/// Refuses the start of the loop of one number.
#[derive(Drop)]
struct Refusing {
    number: u32,
}

impl Starts for Refusing {
    ghost use Rattle.std.specs.Prelude.{◌==◌};

    ghost refused = { λ s number. number == s.number };

    fn refuses(&self, number: u32) -> bool {
        number == self.number
    }
}

/// Four squares of 100, each of a loop of its own, into a sink that drives, for five cycles in two
/// epochs.
const FOUR_SQUARES: WorkRow<'static> = WorkRow {
    text: "quantum 4\nsquare a 48000 1 4 100\nsquare b 48000 1 4 100\nsquare c 48000 1 4 100\n\
        square d 48000 1 4 100\nsink o o.wav\ndriver o 1\nlink a.out o.in\nlink b.out o.in\n\
        link c.out o.in\nlink d.out o.in\ncycles 3\ncycles 2\n",
    channels: 0,
    samples: &[],
};

/// Their sum.
const FOUR: Kept<'static> = Kept::Waves(20, &[0], [400, 400, -400, -400, 400, 400, -400, -400]);

/// Two squares for one cycle, since each look for the other may be in vain.
const TWO_ONCE: WorkRow<'static> = WorkRow {
    text: "quantum 2\nsquare a 48000 1 4 100\nsquare b 48000 1 4 10\nsink o o.wav\ndriver o 1\n\
        link a.out o.in\nlink b.out o.in\ncycles 1\n",
    channels: 0,
    samples: &[],
};

// A run in which the start of one loop is refused; of none where there is no loop of this number.
// None where there are more than 16 loops, or no memory.
fn run_refusing<R: Threads + Wait + Sync, G: Gate + Sync>(
    rt: &R,
    alloc: Global,
    work: &Work,
    adopt: &[bool],
    number: u32,
    gate: &G,
) -> Option<Outcome>
    requires { CanRun work.now.plan work.now.waves }
{
    if adopt.len() > 16 {
        return None;
    }
    let mut ticker = Every::new(2);
    let starts = Refusing { number };
    let roster = Roster {
        loops: adopt.len() as u32,
        adopt,
        starts: &starts,
    };
    let (plan, waves) = (&work.plan, &work.waves);
    match run_plan_with(rt, alloc, plan, waves, &roster, gate, &mut ticker) {
        Ok((outcome, _closed)) => Some(outcome),
        Err(_memory) => None,
    }
}

// Whether the four squares are summed whichever of four loops is refused, or no loop.
fn sums_four<R: Threads + Wait + Sync>(rt: &R, alloc: Global) -> bool {
    let Some(work) = work_of(alloc, FOUR_SQUARES) else {
        return false;
    };
    for number in 0..5 {
        match run_refusing(rt, alloc, &work, &[false; 4], number, &Open::new()) {
            Some(outcome) if have_kept(&outcome, FOUR) => (),
            _ => return false,
        }
    }
    true
}

#[test]
fn a_loop_that_cannot_be_started_is_run_all_the_same(rt: HostRuntime) -> Result<(), Fail> {
    assert!(rt; sums_four(&rt, rt.alloc()));
    Ok(())
}

// Whether the two squares were awake at once in a run with this refused start. None where there was
// no run.
fn squares_meet<R: Threads + Wait + Sync>(
    rt: &R,
    alloc: Global,
    adopt: &[bool],
    number: u32,
) -> Option<bool> {
    let work = work_of(alloc, TWO_ONCE)?;
    let meet = Meet::new(0, 1);
    run_refusing(rt, alloc, &work, adopt, number, &meet)?;
    Some(meet.met())
}

// The squares meet where only one is adopted, and not where the other's start is refused too: then
// the driver's thread runs both.
#[test]
fn a_loop_that_cannot_be_started_is_the_drivers(rt: HostRuntime) -> Result<(), Fail> {
    assert_eq!(rt;
        squares_meet(&rt, rt.alloc(), &[true, false], 2),
        Some(true)
    );
    assert_eq!(rt;
        squares_meet(&rt, rt.alloc(), &[true, false], 1),
        Some(false)
    );
    assert_eq!(rt;
        squares_meet(&rt, rt.alloc(), &[false, true], 0),
        Some(false)
    );
    Ok(())
}
