//! Sixteen loops, each in a thread of its own: all their nodes are awake at once.

use graph_run::run_plan;
use plan_support::{MeetAll, SEVENTEEN_SQUARES, work_of};
use pw_outside::Never;
use std::alloc::Global;
use std::sync::Wait;
use std::test::Fail;
use std::thread::Threads;

// Whether the first sixteen squares meet in a run by sixteen loops, of which none is named.
fn squares_meet<R: Threads + Wait + Sync>(rt: &R, alloc: Global) -> bool {
    let Some(work) = work_of(alloc, SEVENTEEN_SQUARES) else {
        return false;
    };
    let gate = MeetAll::new(0xFFFF);
    let (plan, waves) = (&work.plan, &work.waves);
    match run_plan(
        rt,
        alloc,
        plan,
        waves,
        16,
        &[false; 16],
        &gate,
        &mut Never::new(),
    ) {
        Ok(_ended) => gate.met(),
        Err(_memory) => false,
    }
}

#[test]
fn sixteen_loops_meet(rt: HostRuntime) -> Result<(), Fail> {
    assert!(rt; squares_meet(&rt, rt.alloc()));
    Ok(())
}
