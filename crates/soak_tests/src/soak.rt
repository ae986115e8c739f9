//! Whole runs of the graph that is drawn from a number, beside a plain fold.
ghost use Rattle.plan_support.specs.Work.{CanRun};

use crate::plain::{Played, fold_of};
use crate::work::{Work, work_of};
use graph_run::run_plan;
use pw_outside::{Every, Open};
use std::alloc::Global;
use std::sync::Wait;
use std::test::Fail;
use std::thread::Threads;
use wav_files::Outcome;

// A run by a loop for each entry of `adopt`, and how many closed boards there are. None where
// there are more than 16, or no memory.
fn run_by<R: Threads + Wait + Sync>(
    rt: &R,
    alloc: Global,
    work: &Work,
    adopt: &[bool],
) -> Option<(Outcome, usize)>
    requires { CanRun work.now.plan work.now.waves }
{
    if adopt.len() > 16 {
        return None;
    }
    let loops = adopt.len() as u32;
    let mut ticker = Every::new(2);
    let (plan, waves, gate) = (&work.plan, &work.waves, Open::new());
    match run_plan(rt, alloc, plan, waves, loops, adopt, &gate, &mut ticker) {
        Ok((outcome, closed)) => Some((outcome, closed.len())),
        Err(_memory) => None,
    }
}

// Whether samples are these.
fn are_same(samples: &[i16], wanted: &[i32]) -> bool {
    if samples.len() != wanted.len() {
        return false;
    }
    for at in 0..samples.len() {
        if i32::from(samples[at]) != wanted[at] {
            return false;
        }
    }
    true
}

/// Whether there is one sink and one meter, and they have kept this.
pub(crate) fn has_played(outcome: &Outcome, wanted: &Played) -> bool {
    match (outcome.sinks.as_slice(), outcome.peaks.as_slice()) {
        ([kept], [peak]) => {
            peak.value == wanted.peak
                && are_same(kept.wav.samples.as_slice(), wanted.samples.as_slice())
        }
        _ => false,
    }
}

// The sums are those of another program.
fn has_sum(alloc: Global, number: u32, sum: i64) -> bool {
    match fold_of(alloc, number) {
        Ok(all) => (all.samples.len(), all.sum, all.peak) == (78336, sum, 32768),
        Err(_memory) => false,
    }
}

#[test]
fn the_plain_fold_has_the_known_sums(rt: HostRuntime) -> Result<(), Fail> {
    assert!(rt; has_sum(rt.alloc(), 7, -7763562));
    assert!(rt; has_sum(rt.alloc(), 0, 830523));
    assert!(rt; has_sum(rt.alloc(), 4294967295, 405989));
    Ok(())
}

// Whether a run by these loops has three boards and plays this.
fn plays<R: Threads + Wait + Sync>(
    rt: &R,
    alloc: Global,
    work: &Work,
    adopt: &[bool],
    wanted: &Played,
) -> bool
    requires { CanRun work.now.plan work.now.waves }
{
    match run_by(rt, alloc, work, adopt) {
        Some((outcome, boards)) => boards == 3 && has_played(&outcome, wanted),
        None => false,
    }
}

// Whether the work plays this by no loop, by one, by four and by sixteen.
fn always_plays<R: Threads + Wait + Sync>(
    rt: &R,
    alloc: Global,
    work: &Work,
    wanted: &Played,
) -> bool
    requires { CanRun work.now.plan work.now.waves }
{
    plays(rt, alloc, work, &[], wanted)
        && plays(rt, alloc, work, &[false], wanted)
        && plays(rt, alloc, work, [false; 4].as_slice(), wanted)
        && plays(rt, alloc, work, [false; 16].as_slice(), wanted)
}

// Whether the graph of a number always plays the plain fold.
fn keeps_the_fold<R: Threads + Wait + Sync>(rt: &R, alloc: Global, number: u32) -> bool {
    let Ok(wanted) = fold_of(alloc, number) else {
        return false;
    };
    match work_of(alloc, number) {
        Ok(Some(work)) => always_plays(rt, alloc, &work, &wanted),
        _ => false,
    }
}

#[test]
fn any_number_of_loops_keeps_the_plain_fold(rt: HostRuntime) -> Result<(), Fail> {
    assert!(rt; keeps_the_fold(&rt, rt.alloc(), 7));
    Ok(())
}
