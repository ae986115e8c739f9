//! Whole runs of the graph that is drawn from a number by loops that steal, beside a plain fold.
ghost use Rattle.plan_support.specs.Work.{CanRun};

use crate::plain::{Played, fold_of};
use crate::soak::has_played;
use crate::work::{Work, work_of};
use graph_run::{AnyStarts, Roster};
use pw_outside::{Every, Open};
use std::alloc::Global;
use std::sync::Wait;
use std::test::Fail;
use std::thread::Threads;
use steal_loops::run_stealing_with;

// How many numbers four workers took out of their queues in a run that has three boards and plays
// this. None where it goes otherwise.
fn taken_playing<R: Threads + Wait + Sync>(
    rt: &R,
    alloc: Global,
    work: &Work,
    wanted: &Played,
) -> Option<u64>
    requires { CanRun work.now.plan work.now.waves }
{
    let mut ticker = Every::new(2);
    let (plan, waves, adopt) = (&work.plan, &work.waves, [false; 4]);
    let (gate, starts) = (Open::new(), AnyStarts::new());
    let roster = Roster {
        loops: 4,
        adopt: adopt.as_slice(),
        starts: &starts,
    };
    match run_stealing_with(rt, alloc, plan, waves, &roster, &gate, &mut ticker) {
        Ok((outcome, closed, taken)) => {
            if closed.len() == 3 && has_played(&outcome, wanted) {
                Some(taken)
            } else {
                None
            }
        }
        Err(_memory) => None,
    }
}

// The same of the graph of a number and its plain fold.
fn taken_by<R: Threads + Wait + Sync>(rt: &R, alloc: Global, number: u32) -> Option<u64> {
    let Ok(wanted) = fold_of(alloc, number) else {
        return None;
    };
    match work_of(alloc, number) {
        Ok(Some(work)) => taken_playing(rt, alloc, &work, &wanted),
        _ => None,
    }
}

// All nodes are woken by others, so that the workers need not find them by a scan.
#[test]
fn stealing_keeps_the_plain_fold_and_uses_the_queues(rt: HostRuntime) -> Result<(), Fail> {
    assert!(rt; taken_by(&rt, rt.alloc(), 7).unwrap_or(0) > 0);
    Ok(())
}
