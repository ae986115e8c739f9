//! The program, up to its sentence.
ghost use Rattle.std.specs.Prelude.{◌≡◌, map, string_bytes};
ghost use Rattle.command_frame.specs.Outside.{outside};
ghost use Rattle.program_exit.specs.Sentence.{IsMade};
ghost use Rattle.pw_program.specs.Exit.{word_in};
ghost use Rattle.pw_program.specs.Program.{HasRun};

use crate::asking::Asked;
use crate::ended::Run;
use crate::running::run_asked;
use fault_messages::{explain, words_message};
use program_exit::{Done, Utility};
use pw_lists::{Memory, Text};
use pw_outside::{Files, Sink};
use pw_top::Status;
use std::alloc::Global;
use std::sync::Wait;
use std::thread::Threads;
use system_files::{TellsWhy, Unread};

/// The program, with what its threads run by.
#[derive(Drop)]
pub(crate) struct Pipegraph<'a, R> {
    rt: &'a R,
}

impl<'a, R> Pipegraph<'a, R> {
    pub(crate) fn new(rt: &'a R) -> Pipegraph<'a, R> {
        Pipegraph { rt }
    }
}

/// Does what words ask for, and makes its sentence of what the run found; may wait. The files and
/// the output are those that the run left: nothing is loaded, stored or put for the sentence.
pub(crate) fn run_words<R: Threads + Wait + Sync, F: Files + TellsWhy, O: Sink>(
    rt: &R,
    alloc: Global,
    words: &[String],
    files: F,
    out: O,
) -> (Status, Done<F, O, Asked>)
    ensures { IsMade (HasRun (map string_bytes words.now) (outside F.Files O.Sink files out)
        (outside F.Files O.Sink result.1.files result.1.out) (F.why result.1.files) result.1.left
        result.1.code result.0) result.1.sentence }
{
    let (ran, ticker) = run_asked(rt, alloc, words, files, out);
    let Run {
        status,
        found,
        files,
        out,
    } = ran;
    let sentence = explain(alloc, &status, &found, files.why(), words);
    let done = Done {
        code: status.number(),
        files,
        out,
        left: ticker,
        sentence,
    };
    (status, done)
}

// The word at fault.
fn word_in(unread: Unread) -> Option<u32>
    ensures { result ≡ word_in unread }
{
    match unread {
        Unread::NoText { word } => Some(word),
        Unread::Memory => None,
    }
}

impl<R: Threads + Wait + Sync> Utility for Pipegraph<'_, R> {
    ghost use Rattle.std.specs.Thread.{IsSync};
    ghost use Rattle.pw_program.specs.Exit.{HasDone, refusal};

    /// The ticker, as the run left it.
    type Left = Asked;

    ghost can_run = { λ _. IsSync R.row };

    ghost has_done = { HasDone };

    ghost refusal = { refusal };

    fn run<F: Files + TellsWhy, O: Sink>(
        &self,
        alloc: Global,
        words: &[String],
        files: F,
        out: O,
    ) -> Done<F, O, Asked> {
        let (_status, done) = run_words(self.rt, alloc, words, files, out);
        done
    }

    fn refuse(alloc: Global, unread: Unread) -> (Result<Text, Memory>, Asked) {
        (words_message(alloc, word_in(unread)), Asked::Never)
    }
}
