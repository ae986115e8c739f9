//! Sixteen workers, each in a thread of its own, and the caller's thread: seventeen nodes are awake
//! at once.

use crate::runs::{RunRow, goes_by};
use plan_support::{MeetAll, SEVENTEEN_SQUARES};
use std::alloc::Global;
use std::sync::Wait;
use std::test::Fail;
use std::thread::Threads;

/// A run of seventeen squares and their sink.
const BY_SIXTEEN: RunRow<'static> = RunRow {
    work: SEVENTEEN_SQUARES,
    choices: &[],
    boards: 1,
    kept: &[&[1700, 1700]],
};

// Whether the seventeen squares meet in a run by sixteen workers, of which none is named, and the
// caller's thread.
fn squares_meet<R: Threads + Wait + Sync>(rt: &R, alloc: Global) -> bool {
    let gate = MeetAll::new(0x1_FFFF);
    goes_by(rt, alloc, &BY_SIXTEEN, &[false; 16], &gate) && gate.met()
}

#[test]
fn sixteen_workers_and_the_callers_thread_meet(rt: HostRuntime) -> Result<(), Fail> {
    assert!(rt; squares_meet(&rt, rt.alloc()));
    Ok(())
}
