//! The top call, with the ticker that the words name.
ghost use Rattle.std.specs.Prelude.{◌≡◌, ◌≤◌, map, string_bytes};
ghost use Rattle.command_frame.specs.FaultCauses.{Caused, IsUsage};
ghost use Rattle.command_frame.specs.Outside.{outside};
ghost use Rattle.pw_top.specs.Found.{IsFound};
ghost use Rattle.pw_top.specs.Usage.{command_of, ticks_in};
ghost use Rattle.pw_top.specs.WorkFound.{IsWorkFound};
ghost use Rattle.run_results.specs.Statuses.{statuses};
ghost use Rattle.pw_program.specs.Asking.{period_of, checks_of};
ghost use Rattle.pw_program.specs.Program.{IsToldOf};

use crate::asking::{Asked, Asks, Nth};
use crate::ended::Run;
use pw_outside::{Files, Never, Open, Sink, Ticker};
use pw_top::{Found, Ran, Status, run_words_with, ticks_of};
use std::alloc::Global;
use std::marker::Brand;
use std::sync::Wait;
use std::thread::Threads;

// Does what the words ask for, and answers the status and what was found; may wait.
fn run_status<R: Threads + Wait + Sync, F: Files, O: Sink, T: Ticker>(
    rt: &R,
    alloc: Global,
    words: &[String],
    files: &mut F,
    out: &mut O,
    ticker: &mut T,
) -> (Status, Found)
    ensures told { IsToldOf (map string_bytes words.now)
        (outside F.Files O.Sink files.old out.old) (outside F.Files O.Sink files.new out.new)
        (T.ticks ticker.old) (T.ticks ticker.new) result.0 }
    ensures found { IsFound (map string_bytes words.now) (F.held files.old) result.0 result.1 }
    ensures work { IsWorkFound result.0 (F.held files.old) (F.held files.new) (O.given out.old)
        (O.given out.new) result.1.work }
    ensures cause { Caused statuses (outside F.Files O.Sink files.old out.old)
        (outside F.Files O.Sink files.new out.new) result.0 }
    ensures usage { IsUsage statuses (command_of (map string_bytes words.now)) result.0 }
{
    let Ran { report, found } = run_words_with(rt, alloc, words, files, out, &Open::new(), ticker);
    (report.status, found)
}

// Does what the words ask for, and gives back the files and the output; may wait.
fn run_by<R: Threads + Wait + Sync, F: Files, O: Sink, T: Ticker>(
    rt: &R,
    alloc: Global,
    words: &[String],
    mut files: F,
    mut out: O,
    ticker: &mut T,
) -> Run<F, O>
    ensures told { IsToldOf (map string_bytes words.now) (outside F.Files O.Sink files out)
        (outside F.Files O.Sink result.files result.out) (T.ticks ticker.old) (T.ticks ticker.new)
        result.status }
    ensures found { IsFound (map string_bytes words.now) (F.held files) result.status
        result.found }
    ensures work { IsWorkFound result.status (F.held files) (F.held result.files) (O.given out)
        (O.given result.out) result.found.work }
    ensures cause { Caused statuses (outside F.Files O.Sink files out)
        (outside F.Files O.Sink result.files result.out) result.status }
    ensures usage { IsUsage statuses (command_of (map string_bytes words.now)) result.status }
{
    let (status, found) = run_status(rt, alloc, words, &mut files, &mut out, ticker);
    Run {
        status,
        found,
        files,
        out,
    }
}

// The same, with a ticker that is due at each nth ask.
fn run_nth<R: Threads + Wait + Sync, F: Files, O: Sink, P: Asks>(
    rt: &R,
    alloc: Global,
    words: &[String],
    files: F,
    out: O,
    n: u64,
) -> (Run<F, O>, Asked)
    requires some { 1 ≤ n }
    requires period { P.period ≡ n }
    ensures told { IsToldOf (map string_bytes words.now) (outside F.Files O.Sink files out)
        (outside F.Files O.Sink result.0.files result.0.out) 0 (checks_of result.1)
        result.0.status }
    ensures found { IsFound (map string_bytes words.now) (F.held files) result.0.status
        result.0.found }
    ensures work { IsWorkFound result.0.status (F.held files) (F.held result.0.files)
        (O.given out) (O.given result.0.out) result.0.found.work }
    ensures asked { period_of result.1 ≡ n }
    ensures cause { Caused statuses (outside F.Files O.Sink files out)
        (outside F.Files O.Sink result.0.files result.0.out) result.0.status }
    ensures usage { IsUsage statuses (command_of (map string_bytes words.now)) result.0.status }
{
    let mut ticker: Nth<P> = Nth::new(n);
    let ran = run_by::<R, F, O, Nth<P>>(rt, alloc, words, files, out, &mut ticker);
    (ran, Asked::Every(ticker.into_every()))
}

/// Does what the words ask for, with the ticker that they name, and answers that too; may wait.
pub(crate) fn run_asked<R: Threads + Wait + Sync, F: Files, O: Sink>(
    rt: &R,
    alloc: Global,
    words: &[String],
    files: F,
    out: O,
) -> (Run<F, O>, Asked)
    ensures told { IsToldOf (map string_bytes words.now) (outside F.Files O.Sink files out)
        (outside F.Files O.Sink result.0.files result.0.out) 0 (checks_of result.1)
        result.0.status }
    ensures found { IsFound (map string_bytes words.now) (F.held files) result.0.status
        result.0.found }
    ensures work { IsWorkFound result.0.status (F.held files) (F.held result.0.files)
        (O.given out) (O.given result.0.out) result.0.found.work }
    ensures asked { period_of result.1 ≡ ticks_in (command_of (map string_bytes words.now)) }
    ensures cause { Caused statuses (outside F.Files O.Sink files out)
        (outside F.Files O.Sink result.0.files result.0.out) result.0.status }
    ensures usage { IsUsage statuses (command_of (map string_bytes words.now)) result.0.status }
{
    match ticks_of(words) {
        0 => {
            let mut never = Never::new();
            let ran = run_by(rt, alloc, words, files, out, &mut never);
            (ran, Asked::Never)
        }
        n => run_nth::<R, F, O, Brand>(rt, alloc, words, files, out, u64::from(n)),
    }
}
