//! Whole runs by threads, whose sinks are compared.
ghost use Rattle.plan_support.specs.Work.{CanRun};

use graph_checks::is_legal_history;
use graph_run::run_plan;
use plan_support::{Work, WorkRow, work_of};
use pw_outside::{Every, Gate, Meet, Open};
use std::alloc::Global;
use std::sync::Wait;
use std::thread::Threads;
use wav_files::Outcome;

/// What the sinks of a run keep.
#[derive(Clone, Copy, Drop)]
pub(crate) enum Kept<'a> {
    /// There is one, which keeps these samples.
    One(&'a [i16]),
    /// Each keeps this number of samples: the zeros of its place, and then these again and again.
    Waves(usize, &'a [usize], [i16; 8]),
}

/// A run of a work, by a loop for each entry of a choice: whether it is adopted. Each choice leaves
/// `boards` closed boards and keeps the same.
#[derive(Clone, Copy, Drop)]
pub(crate) struct RunRow<'a> {
    pub work: WorkRow<'a>,
    pub choices: &'a [&'a [bool]],
    pub boards: usize,
    pub kept: Kept<'a>,
}

// A run with a look in every second cycle, and how many closed boards there are. None where there
// are more than 16 loops, or no memory.
fn run_by<R: Threads + Wait + Sync, G: Gate + Sync>(
    rt: &R,
    alloc: Global,
    work: &Work,
    adopt: &[bool],
    gate: &G,
) -> Option<(Outcome, usize)>
    requires { CanRun work.now.plan work.now.waves }
{
    if adopt.len() > 16 {
        return None;
    }
    let loops = adopt.len() as u32;
    let mut ticker = Every::new(2);
    let (plan, waves) = (&work.plan, &work.waves);
    match run_plan(rt, alloc, plan, waves, loops, adopt, gate, &mut ticker) {
        Ok((outcome, closed)) => Some((outcome, closed.len())),
        Err(_memory) => None,
    }
}

// Whether samples are `zeros` zeros, and then these again and again.
fn is_wave(samples: &[i16], zeros: usize, period: [i16; 8]) -> bool {
    for at in 0..samples.len() {
        let wanted = if at < zeros {
            0
        } else {
            period[(at - zeros) % 8]
        };
        if samples[at] != wanted {
            return false;
        }
    }
    true
}

// Whether each sink has kept `len` samples of its wave.
fn have_waves(outcome: &Outcome, len: usize, zeros: &[usize], period: [i16; 8]) -> bool {
    let sinks = outcome.sinks.as_slice();
    if sinks.len() != zeros.len() {
        return false;
    }
    for place in 0..sinks.len() {
        let samples = sinks[place].wav.samples.as_slice();
        if samples.len() != len || !is_wave(samples, zeros[place], period) {
            return false;
        }
    }
    true
}

// Whether there is one sink, which has kept these samples.
pub(crate) fn has_one(outcome: &Outcome, wanted: &[i16]) -> bool {
    match outcome.sinks.as_slice() {
        [kept] => kept.wav.samples.as_slice() == wanted,
        _ => false,
    }
}

/// Whether the sinks have kept this.
pub(crate) fn have_kept(outcome: &Outcome, kept: Kept<'_>) -> bool {
    match kept {
        Kept::One(wanted) => has_one(outcome, wanted),
        Kept::Waves(len, zeros, period) => have_waves(outcome, len, zeros, period),
    }
}

/// Whether a run of a row by each of its choices has its boards and a legal history, and its sinks
/// keep what they are to keep.
pub(crate) fn row_runs<R: Threads + Wait + Sync>(rt: &R, alloc: Global, row: &RunRow<'_>) -> bool {
    let Some(work) = work_of(alloc, row.work) else {
        return false;
    };
    for adopt in row.choices {
        let Some((outcome, boards)) = run_by(rt, alloc, &work, adopt, &Open::new()) else {
            return false;
        };
        let legal = is_legal_history(work.plan.epochs.as_slice(), outcome.history.as_slice());
        if boards != row.boards || !have_kept(&outcome, row.kept) || !legal {
            return false;
        }
    }
    true
}

/// Whether the nodes 0 and 1 met in a run of a row by its only choice. None where there are others,
/// or the sinks do not keep what they are to keep.
pub(crate) fn meet_in<R: Threads + Wait + Sync>(
    rt: &R,
    alloc: Global,
    row: &RunRow<'_>,
) -> Option<bool> {
    let [adopt] = row.choices else {
        return None;
    };
    let work = work_of(alloc, row.work)?;
    let meet = Meet::new(0, 1);
    let (outcome, _boards) = run_by(rt, alloc, &work, adopt, &meet)?;
    if have_kept(&outcome, row.kept) {
        Some(meet.met())
    } else {
        None
    }
}
