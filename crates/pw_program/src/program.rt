//! What the program does with its words.
ghost use Rattle.std.specs.Prelude.{◌≡◌, map, string_bytes};
ghost use Rattle.command_frame.specs.FaultCauses.{Caused, IsUsage};
ghost use Rattle.command_frame.specs.Outside.{outside};
ghost use Rattle.program_exit.specs.Said.{shown};
ghost use Rattle.pw_top.specs.Usage.{command_of, ticks_in};
ghost use Rattle.run_results.specs.StatusNumbers.{status_number};
ghost use Rattle.run_results.specs.Statuses.{statuses};
ghost use Rattle.pw_program.specs.Asking.{period_of, checks_of};
ghost use Rattle.pw_program.specs.Program.{IsToldOf, HasSaid};

use crate::ended::Ended;
use crate::pipegraph::run_words;
use program_exit::{Done, put_sentence};
use pw_outside::{Files, Sink};
use std::alloc::Global;
use std::sync::Wait;
use std::thread::Threads;
use system_files::TellsWhy;

/// Does what the words of a command line ask for, puts the sentence of its status, or notes where
/// all was done, on the error output, and answers the number that the program ends with; may wait.
///
/// Files, output and status are those of `run_words_with`: the output has what that call put and
/// nothing else. Sentence and notes are made of the words, of what the run found, with the bytes of
/// the script that it loaded, the waves that it stored and the text that it put, and of the reason
/// that the files tell where the last load or store failed; nothing is loaded or stored for them,
/// and where they cannot be put, nothing else changes. The ticker is the one that `--ticks` names.
pub fn run_program<R: Threads + Wait + Sync, F: Files + TellsWhy, O: Sink, E: Sink>(
    rt: &R,
    alloc: Global,
    words: &[String],
    files: F,
    out: O,
    errors: &mut E,
) -> Ended<F, O>
    // The answer of the top call: files and output by the status, where they are reported, and
    // the checks of the ticker that the words ask for.
    ensures told { IsToldOf (map string_bytes words.now) (outside F.Files O.Sink files out)
        (outside F.Files O.Sink result.files result.out) 0 (checks_of result.ticker) result.status }
    ensures asked { period_of result.ticker ≡ ticks_in (command_of (map string_bytes words.now)) }
    ensures cause { Caused statuses (outside F.Files O.Sink files out)
        (outside F.Files O.Sink result.files result.out) result.status }
    ensures usage { IsUsage statuses (command_of (map string_bytes words.now)) result.status }
    ensures code { result.code ≡ status_number result.status }

    // The sentence or the notes, by what the run found: the script that it read, and what it
    // stored and put; and by why a file was refused.
    ensures said { HasSaid (map string_bytes words.now) (outside F.Files O.Sink files out)
        (outside F.Files O.Sink result.files result.out) (F.why result.files) result.status
        (shown E.Sink errors.old) (shown E.Sink errors.new) result.said }
{
    let (status, done) = run_words(rt, alloc, words, files, out);
    let Done {
        code,
        files,
        out,
        left,
        sentence,
    } = done;
    Ended {
        status,
        code,
        files,
        out,
        ticker: left,
        said: put_sentence(alloc, sentence, errors),
    }
}
