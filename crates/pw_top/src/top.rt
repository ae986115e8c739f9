//! The top call.
ghost use Rattle.std.specs.Prelude.{◌≡◌, ◌≤◌, map, string_bytes, OnOk};
ghost use Rattle.command_frame.specs.Ending.{PrepareCause};
ghost use Rattle.command_frame.specs.Preparing.{LoadsOnly, IsPreparedUsage};
ghost use Rattle.command_frame.specs.FaultCauses.{Caused, IsUsage};
ghost use Rattle.command_frame.specs.Outside.{outside};
ghost use Rattle.pw_top.specs.working.Ending.{CommandCause, IsDeliverable};
ghost use Rattle.pw_top.specs.Playing.{happened, HasNothing, TellsPlay};
ghost use Rattle.pw_top.specs.Usage.{command_of, HasFewLoops};
ghost use Rattle.pw_top.specs.CommandLine.{IsAnswerTo, IsAnswer};
ghost use Rattle.pw_top.specs.Found.{HasFoundNothing, IsFound, found_after};
ghost use Rattle.pw_top.specs.Headline.{IsTold, IsComplete, reported};
ghost use Rattle.run_results.specs.Statuses.{statuses};
ghost use Rattle.pw_top.specs.ScriptFound.{end_of, IsScriptBy, IsScriptOf};
ghost use Rattle.pw_top.specs.WhatFound.{IsWhatBy, IsWhatOf};
ghost use Rattle.pw_top.specs.WorkFound.{IsWorkFound, work_in};

use crate::played::Played;
use crate::preparing::Prepare;
use crate::usage::{CommandLine, read_words};
use board_rule::Closed;
use command_frame::{Misread, finish};
use pw_graph::Event;
use pw_lists::Items;
use pw_outside::{Files, Gate, Sink, Ticker};
use run_results::{Found, Status, What, Work};
use std::alloc::Global;
use std::sync::Wait;
use std::thread::Threads;

impl CommandLine {
    // Makes the loads of the command in order, and its run. What happened in it is left in
    // `played`, and what was found in `found`.
    fn prepare<R: Threads + Wait + Sync, F: Files, G: Gate + Sync, K: Ticker>(
        self,
        rt: &R,
        alloc: Global,
        files: &mut F,
        gate: &G,
        ticker: &mut K,
        played: &mut Played,
        found: &mut Found,
    ) -> Result<Work, Status>
        requires few { HasFewLoops self }
        requires none { HasNothing played.old }
        requires unfound { HasFoundNothing found.old }
        ensures files { LoadsOnly (F.held files.old) (F.held files.new) (F.load_faults files.old)
            (F.load_faults files.new) (F.store_faults files.old) (F.store_faults files.new) }
        ensures told { TellsPlay (F.held files.old) (IsAnswerTo self
            (happened played.new (K.ticks ticker.old) (K.ticks ticker.new)))
            (happened played.new (K.ticks ticker.old) (K.ticks ticker.new)) result }
        ensures script { IsScriptBy self (F.held files.old) (end_of result) found.new.script }
        ensures what { OnOk result (IsWhatBy self (F.held files.old) found.new.what) }
        ensures cause { CommandCause IsDeliverable (F.load_faults files.old)
            (F.load_faults files.new) result }
        ensures later { K.ticks ticker.old ≤ K.ticks ticker.new }
    {
        match self {
            CommandLine::Run(command) => {
                command.play(rt, alloc, files, gate, ticker, played, found)
            }
            CommandLine::Dump(command) => command.prepare(alloc, files),
            CommandLine::Filter(command) => command.find(alloc, files, &mut found.what),
            CommandLine::Automate(command) => command.prepare(alloc, files),
            CommandLine::Check(command) => command.find(alloc, files, found),
            CommandLine::Soak(command) => command.play(rt, alloc, gate, ticker, played),
            CommandLine::Groups(command) => command.play(rt, alloc, files, gate, played, found),
        }
    }
}

// Reads the words and prepares their command.
fn prepare_words<R: Threads + Wait + Sync, F: Files, G: Gate + Sync, K: Ticker>(
    rt: &R,
    alloc: Global,
    words: &[String],
    files: &mut F,
    gate: &G,
    ticker: &mut K,
    played: &mut Played,
    found: &mut Found,
) -> Result<Work, Status>
    requires none { HasNothing played.old }
    requires unfound { HasFoundNothing found.old }
    ensures files { LoadsOnly (F.held files.old) (F.held files.new) (F.load_faults files.old)
        (F.load_faults files.new) (F.store_faults files.old) (F.store_faults files.new) }
    ensures told { TellsPlay (F.held files.old) (IsAnswer (map string_bytes words.now)
        (happened played.new (K.ticks ticker.old) (K.ticks ticker.new)))
        (happened played.new (K.ticks ticker.old) (K.ticks ticker.new)) result }
    ensures script { IsScriptOf (command_of (map string_bytes words.now)) (F.held files.old)
        (end_of result) found.new.script }
    ensures what { OnOk result
        (IsWhatOf (command_of (map string_bytes words.now)) (F.held files.old) found.new.what) }
    ensures cause { PrepareCause statuses IsDeliverable (F.load_faults files.old)
        (F.load_faults files.new) result }
    ensures usage { IsPreparedUsage statuses (command_of (map string_bytes words.now)) result }
    ensures later { K.ticks ticker.old ≤ K.ticks ticker.new }
{
    match read_words(alloc, words) {
        Err(Misread::Word(word)) => Err(Status::Usage { word }),
        Err(Misread::Memory) => Err(Status::Memory),
        Ok(command) => command.prepare(rt, alloc, files, gate, ticker, played, found),
    }
}

// The work that was prepared.
fn work_in(made: Result<Work, Status>) -> Option<Work>
    ensures { result ≡ work_in made }
{
    match made {
        Ok(work) => Some(work),
        Err(_status) => None,
    }
}

// What is left of what was found, and of the work that was prepared: all of it where all was done,
// and else the script alone.
fn found_after(status: Status, made: Result<Work, Status>, found: Found) -> Found
    ensures { result ≡ found_after status made found }
{
    let Found { script, what, .. } = found;
    match status {
        Status::Ok => Found {
            script,
            work: work_in(made),
            what,
        },
        _ => Found {
            script,
            work: None,
            what: What::Nothing,
        },
    }
}

/// How a call ended, and what happened in its run: the events, and the boards that it closed. Both
/// are empty where no run was made.
#[derive(Drop)]
pub struct Report {
    pub status: Status,
    /// The events of all closed boards, one after the other.
    pub history: Items<Event>,
    /// One closed board an epoch, in order.
    pub closed: Items<Closed>,
}

/// A report, and what the run found beside it.
#[derive(Drop)]
pub struct Ran {
    pub report: Report,
    pub found: Found,
}

/// Does what the words of a command line ask for, as `run_words` does, and answers besides what it
/// found: the bytes of the script that `run`, `check` and `groups` read, whatever was wrong with
/// them; where all was done, what was stored and put, and besides of `run` and `groups` the script,
/// its plan and the peaks, of `run` what both sides of each link without a common format admit, of
/// `check` the reason for which the events of the trace are no legal history of the script's plan,
/// or its first line of no event, and of `filter` how the two objects clash. Nothing is loaded for
/// it, and nothing made or copied but the refused links and, for them, the ports of a script:
/// script, plan, waves and text are those of the run, and are held until the answer is dropped. A
/// trace is followed once. It may wait for the loops.
pub fn run_words_with<R: Threads + Wait + Sync, F: Files, O: Sink, G: Gate + Sync, K: Ticker>(
    rt: &R,
    alloc: Global,
    words: &[String],
    files: &mut F,
    out: &mut O,
    gate: &G,
    ticker: &mut K,
) -> Ran
    // The report is that of `run_words`.
    ensures told { IsTold (map string_bytes words.now)
        (outside F.Files O.Sink files.old out.old) (outside F.Files O.Sink files.new out.new)
        (reported result.report (K.ticks ticker.old) (K.ticks ticker.new)) result.report.status }
    ensures cause { Caused statuses (outside F.Files O.Sink files.old out.old)
        (outside F.Files O.Sink files.new out.new) result.report.status }
    ensures usage { IsUsage statuses (command_of (map string_bytes words.now))
        result.report.status }
    ensures complete { IsComplete (map string_bytes words.now)
        (outside F.Files O.Sink files.old out.old) (outside F.Files O.Sink files.new out.new)
        (reported result.report (K.ticks ticker.old) (K.ticks ticker.new)) result.report.status }
    ensures later { K.ticks ticker.old ≤ K.ticks ticker.new }

    // What was found, by the files as they were; and the work, which files and text follow.
    ensures found { IsFound (map string_bytes words.now) (F.held files.old)
        result.report.status result.found }
    ensures work { IsWorkFound result.report.status (F.held files.old) (F.held files.new)
        (O.given out.old) (O.given out.new) result.found.work }
{
    let mut played = Played {
        history: Items::new(alloc),
        closed: Items::new(alloc),
    };
    let mut found = Found {
        script: None,
        work: None,
        what: What::Nothing,
    };
    let made = prepare_words(
        rt,
        alloc,
        words,
        files,
        gate,
        ticker,
        &mut played,
        &mut found,
    );
    let status = finish(alloc, files, out, &made);
    let Played { history, closed } = played;
    Ran {
        report: Report {
            status,
            history,
            closed,
        },
        found: found_after(status, made, found),
    }
}

/// Does what the words of a command line ask for: loads, then stores, then the text, or the line of
/// a status.
///
/// The words are those after the program's own name. An accepted command leaves exactly the files
/// and the text of its expected answer. Every other status says how far that answer was followed
/// and why it stopped: a refusal is the answer's own; `ReadFault`, and `WriteFault` with its place,
/// are answered only where the outside counted a fault in this call; `Memory` may come at any step.
/// The line of a status is put last, and nothing is put after a failed put.
///
/// With `run`, the history and the closed boards are those of a run of the script's plan by the
/// loops that the words name, and with `soak` of the plan of the number's script by four: one board
/// an epoch, with the events of a legal history, on which each link gave the samples of the cycle
/// function. Each node was on the seat of its loop; with `--steal`, each node that never drives had
/// a seat that no other had. With `groups` they are those of a run of each part of the script, one
/// part after the other. It may wait for the loops.
pub fn run_words<R: Threads + Wait + Sync, F: Files, O: Sink, G: Gate + Sync, K: Ticker>(
    rt: &R,
    alloc: Global,
    words: &[String],
    files: &mut F,
    out: &mut O,
    gate: &G,
    ticker: &mut K,
) -> Report
    // An expected answer, which files, text, status and run follow, where the files report them.
    ensures told { IsTold (map string_bytes words.now)
        (outside F.Files O.Sink files.old out.old) (outside F.Files O.Sink files.new out.new)
        (reported result (K.ticks ticker.old) (K.ticks ticker.new)) result.status }

    // Each fault has its cause outside, and Usage in the words, whether the files are reported or
    // not.
    ensures cause { Caused statuses (outside F.Files O.Sink files.old out.old)
        (outside F.Files O.Sink files.new out.new) result.status }
    ensures usage { IsUsage statuses (command_of (map string_bytes words.now))
        result.status }

    // Where no count of faults rose, the status is an expected answer's, or memory was short.
    ensures complete { IsComplete (map string_bytes words.now)
        (outside F.Files O.Sink files.old out.old) (outside F.Files O.Sink files.new out.new)
        (reported result (K.ticks ticker.old) (K.ticks ticker.new)) result.status }
    ensures later { K.ticks ticker.old ≤ K.ticks ticker.new }
{
    let Ran {
        report,
        found: _found,
    } = run_words_with(rt, alloc, words, files, out, gate, ticker);
    report
}
