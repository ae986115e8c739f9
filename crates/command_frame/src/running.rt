//! The call that does what the words of a command line ask for.
ghost use Rattle.std.specs.Prelude.{map, string_bytes, IfOk};
ghost use Rattle.command_frame.specs.FaultCauses.{Caused, IsUsage};
ghost use Rattle.command_frame.specs.Headline.{IsAnswer, IsTold, IsComplete};
ghost use Rattle.command_frame.specs.Keeping.{HasNoStores, KeepsFiles};
ghost use Rattle.command_frame.specs.Outside.{outside};
ghost use Rattle.command_frame.specs.Ending.{PrepareCause, IsDeliverable};
ghost use Rattle.command_frame.specs.Preparing.{LoadsOnly, Tells, IsPreparedUsage};

use crate::delivering::finish;
use crate::ending::Ending;
use crate::program::{Misread, Program};
use crate::work::Work;
use pw_outside::{Files, Sink};
use std::alloc::Global;

// Reads the words and prepares their request.
fn prepare_words<S: Ending, Q, P: Program<S, Q>, F: Files>(
    program: &mut P,
    alloc: Global,
    words: &[String],
    files: &mut F,
) -> Result<Work, S>
    ensures files { LoadsOnly (F.held files.old) (F.held files.new) (F.load_faults files.old)
        (F.load_faults files.new) (F.store_faults files.old) (F.store_faults files.new) }
    ensures told { Tells S.statuses (F.held files.old)
        (IsAnswer S.statuses (P.asks (map string_bytes words.now))
        (P.answers program.old program.new)) result }
    ensures cause { PrepareCause S.statuses (IsDeliverable S.statuses)
        (F.load_faults files.old) (F.load_faults files.new) result }
    ensures usage { IsPreparedUsage S.statuses (P.asks (map string_bytes words.now)) result }
    ensures work { IfOk result P.delivers }
{
    match P::read(alloc, words) {
        Err(Misread::Word(word)) => Err(S::usage(word)),
        Err(Misread::Memory) => Err(S::memory()),
        Ok(request) => program.prepare(alloc, request, files),
    }
}

/// Does what the words of a command line ask for: loads, then stores, then the text, or the line of
/// a status.
///
/// The words are those after the program's own name. An accepted request leaves exactly the files
/// and the text of its expected answer. Every other status says how far that answer was followed
/// and why it stopped: a refusal is the answer's own; a fault is answered only where the outside
/// counted one in this call; lack of memory may come at any step. The line of a status is put last,
/// and nothing is put after a failed put. What the program keeps of the request is in `program`.
pub fn run<S: Ending, Q, P: Program<S, Q>, F: Files, O: Sink>(
    program: &mut P,
    alloc: Global,
    words: &[String],
    files: &mut F,
    out: &mut O,
) -> S
    // An expected answer, which files, text and status follow, where the files report them.
    ensures told { IsTold S.statuses (IsAnswer S.statuses (P.asks (map string_bytes words.now))
        (P.answers program.old program.new)) (outside F.Files O.Sink files.old out.old)
        (outside F.Files O.Sink files.new out.new) result }

    // Each fault has its cause outside, and Usage in the words, whether the files are reported or
    // not.
    ensures cause { Caused S.statuses (outside F.Files O.Sink files.old out.old)
        (outside F.Files O.Sink files.new out.new) result }
    ensures usage { IsUsage S.statuses (P.asks (map string_bytes words.now)) result }

    // Where no count of faults rose, the status is an expected answer's, or memory was short.
    ensures complete { IsComplete S.statuses (IsAnswer S.statuses
        (P.asks (map string_bytes words.now)) (P.answers program.old program.new))
        (outside F.Files O.Sink files.old out.old) (outside F.Files O.Sink files.new out.new)
        result }

    // A program that stores nothing leaves what the files hold.
    ensures kept { HasNoStores P.delivers → KeepsFiles (outside F.Files O.Sink files.old out.old)
        (outside F.Files O.Sink files.new out.new) }
{
    let made = prepare_words(program, alloc, words, files);
    finish(alloc, files, out, &made)
}
