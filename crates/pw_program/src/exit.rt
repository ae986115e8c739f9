//! How the program ends.
ghost use Rattle.std.specs.Prelude.{◌≡◌, map, string_bytes, IfOk, IfErr};
ghost use Rattle.command_frame.specs.Outside.{outside};
ghost use Rattle.program_exit.specs.Exit.{HasEnded, HasRefused};
ghost use Rattle.program_exit.specs.Said.{shown};
ghost use Rattle.pw_program.specs.Exit.{HasDone, refusal};

use crate::ended::Exit;
use crate::pipegraph::Pipegraph;
use pw_lists::Items;
use pw_outside::{Files, Sink};
use std::alloc::Global;
use std::sync::Wait;
use std::thread::Threads;
use system_files::{TellsWhy, Unread};

/// Does what the words of a command line ask for, or says on the error output why they could not be
/// read; may wait.
pub fn run_read<R: Threads + Wait + Sync, F: Files + TellsWhy, O: Sink, E: Sink>(
    rt: &R,
    alloc: Global,
    words: Result<Items<String>, Unread>,
    files: F,
    out: O,
    errors: &mut E,
) -> Exit<F, O>
    // The number is that of a status that files and output follow, and its sentence is put.
    ensures ended { IfOk words (λ read. HasEnded (HasDone (map string_bytes read)
        (outside F.Files O.Sink files out) (outside F.Files O.Sink result.files result.out)
        (F.why result.files) result.ticker result.code) (shown E.Sink errors.old)
        (shown E.Sink errors.new) result.said) }
    // Or of what could not be read: files and output are as before.
    ensures refused { IfErr words (λ unread. HasRefused refusal unread
        (outside F.Files O.Sink files out) (outside F.Files O.Sink result.files result.out)
        result.code (shown E.Sink errors.old) (shown E.Sink errors.new) result.said) }
{
    let ended = program_exit::run_read(&Pipegraph::new(rt), alloc, words, files, out, errors);
    let program_exit::Exit {
        code,
        files,
        out,
        left,
        said,
    } = ended;
    Exit {
        code,
        files,
        out,
        ticker: left,
        said,
    }
}
