//! Whole runs by loops that steal, whose sinks are compared.
ghost use Rattle.plan_support.specs.Work.{CanRun};

use graph_checks::is_legal_history;
use graph_run::{Roster, Starts};
use plan_support::{Work, WorkRow, work_of};
use pw_outside::{Every, Gate, Open};
use std::alloc::Global;
use std::sync::Wait;
use std::thread::Threads;
use steal_loops::{run_stealing, run_stealing_with};
use wav_files::Outcome;

/// A run of a work, by a worker for each entry of a choice: whether it is named, and so not
/// started. Each choice leaves `boards` closed boards, and each sink that has a format keeps
/// these samples.
#[derive(Clone, Copy, Drop)]
pub(crate) struct RunRow<'a> {
    pub work: WorkRow<'a>,
    pub choices: &'a [&'a [bool]],
    pub boards: usize,
    pub kept: &'a [&'a [i16]],
}

/// Refuses the start of the worker of one number.
#[derive(Drop)]
struct Refusing {
    number: u32,
}

impl Starts for Refusing {
    ghost use Rattle.std.specs.Prelude.{◌==◌};

    ghost refused = { λ s number. number == s.number };

    fn refuses(&self, number: u32) -> bool {
        number == self.number
    }
}

// A run with a look in every second cycle, and how many closed boards there are. None where there
// are more than 16 workers, or no memory.
fn run_by<R: Threads + Wait + Sync, G: Gate + Sync>(
    rt: &R,
    alloc: Global,
    work: &Work,
    adopt: &[bool],
    gate: &G,
) -> Option<(Outcome, usize)>
    requires { CanRun work.now.plan work.now.waves }
{
    if adopt.len() > 16 {
        return None;
    }
    let loops = adopt.len() as u32;
    let mut ticker = Every::new(2);
    let (plan, waves) = (&work.plan, &work.waves);
    match run_stealing(rt, alloc, plan, waves, loops, adopt, gate, &mut ticker) {
        Ok((outcome, closed)) => Some((outcome, closed.len())),
        Err(_memory) => None,
    }
}

// The same run where the start of one worker is refused; of none where there is no worker of this
// number.
fn run_refusing<R: Threads + Wait + Sync, G: Gate + Sync>(
    rt: &R,
    alloc: Global,
    work: &Work,
    adopt: &[bool],
    number: u32,
    gate: &G,
) -> Option<(Outcome, usize)>
    requires { CanRun work.now.plan work.now.waves }
{
    if adopt.len() > 16 {
        return None;
    }
    let mut ticker = Every::new(2);
    let starts = Refusing { number };
    let roster = Roster {
        loops: adopt.len() as u32,
        adopt,
        starts: &starts,
    };
    let (plan, waves) = (&work.plan, &work.waves);
    match run_stealing_with(rt, alloc, plan, waves, &roster, gate, &mut ticker) {
        Ok((outcome, closed, _taken)) => Some((outcome, closed.len())),
        Err(_memory) => None,
    }
}

// Whether the sinks with a format have kept these samples.
fn have_kept(outcome: &Outcome, kept: &[&[i16]]) -> bool {
    let sinks = outcome.sinks.as_slice();
    if sinks.len() != kept.len() {
        return false;
    }
    for place in 0..sinks.len() {
        if sinks[place].wav.samples.as_slice() != kept[place] {
            return false;
        }
    }
    true
}

// Whether a run has the boards of the row and a legal history, and its sinks keep what they are to
// keep.
fn has_gone(work: &Work, run: Option<(Outcome, usize)>, row: &RunRow<'_>) -> bool {
    match run {
        Some((outcome, boards)) => {
            boards == row.boards
                && have_kept(&outcome, row.kept)
                && is_legal_history(work.plan.epochs.as_slice(), outcome.history.as_slice())
        }
        None => false,
    }
}

// Whether all runs of a work go so, by each choice of workers.
fn all_go<R: Threads + Wait + Sync>(rt: &R, alloc: Global, work: &Work, row: &RunRow<'_>) -> bool
    requires { CanRun work.now.plan work.now.waves }
{
    for adopt in row.choices {
        let run = run_by(rt, alloc, work, adopt, &Open::new());
        if !has_gone(work, run, row) {
            return false;
        }
    }
    true
}

// Whether they go so where the start of worker 0, 1, 2 or 3 is refused, or of none where there is
// no such worker.
fn all_go_refused<R: Threads + Wait + Sync>(
    rt: &R,
    alloc: Global,
    work: &Work,
    adopt: &[bool],
    row: &RunRow<'_>,
) -> bool
    requires { CanRun work.now.plan work.now.waves }
{
    for number in 0..4 {
        let run = run_refusing(rt, alloc, work, adopt, number, &Open::new());
        if !has_gone(work, run, row) {
            return false;
        }
    }
    true
}

/// Whether the runs of a row go so.
pub(crate) fn row_goes<R: Threads + Wait + Sync>(rt: &R, alloc: Global, row: &RunRow<'_>) -> bool {
    match work_of(alloc, row.work) {
        Some(work) => all_go(rt, alloc, &work, row),
        None => false,
    }
}

/// Whether the runs of a row go so where each of three workers is refused in turn, and where no
/// worker is.
pub(crate) fn row_goes_refused<R: Threads + Wait + Sync>(
    rt: &R,
    alloc: Global,
    row: &RunRow<'_>,
) -> bool {
    match work_of(alloc, row.work) {
        Some(work) => all_go_refused(rt, alloc, &work, &[false; 3], row),
        None => false,
    }
}

/// The first row of which some run goes otherwise.
pub(crate) fn first_unlike<R: Threads + Wait + Sync>(
    rt: &R,
    alloc: Global,
    rows: &[RunRow<'_>],
) -> Option<usize> {
    for at in 0..rows.len() {
        if !row_goes(rt, alloc, &rows[at]) {
            return Some(at);
        }
    }
    None
}

/// Whether a row goes so by these workers and a gate.
pub(crate) fn goes_by<R: Threads + Wait + Sync, G: Gate + Sync>(
    rt: &R,
    alloc: Global,
    row: &RunRow<'_>,
    adopt: &[bool],
    gate: &G,
) -> bool {
    match work_of(alloc, row.work) {
        Some(work) => {
            let run = run_by(rt, alloc, &work, adopt, gate);
            has_gone(&work, run, row)
        }
        None => false,
    }
}

/// Whether it goes so where the start of one worker is refused.
pub(crate) fn goes_refused<R: Threads + Wait + Sync, G: Gate + Sync>(
    rt: &R,
    alloc: Global,
    row: &RunRow<'_>,
    adopt: &[bool],
    number: u32,
    gate: &G,
) -> bool {
    match work_of(alloc, row.work) {
        Some(work) => {
            let run = run_refusing(rt, alloc, &work, adopt, number, gate);
            has_gone(&work, run, row)
        }
        None => false,
    }
}

/// The peak of the one meter of a work by these workers. None where there is not one, or no run.
pub(crate) fn peak_by<R: Threads + Wait + Sync>(
    rt: &R,
    alloc: Global,
    row: WorkRow<'_>,
    adopt: &[bool],
) -> Option<u32> {
    let work = work_of(alloc, row)?;
    let (outcome, _boards) = run_by(rt, alloc, &work, adopt, &Open::new())?;
    match outcome.peaks.as_slice() {
        [peak] => Some(peak.value),
        _ => None,
    }
}
