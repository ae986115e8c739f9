//! The end of a program, by the words of its command line.
ghost use Rattle.std.specs.Prelude.{◌≡◌, map, string_bytes, IfOk, IfErr};
ghost use Rattle.command_frame.specs.Outside.{outside};
ghost use Rattle.program_exit.specs.Exit.{HasEnded, HasRefused};
ghost use Rattle.program_exit.specs.Said.{shown};

use crate::exit::Exit;
use crate::sentences::put_sentence;
use crate::utility::{Done, Utility};
use pw_lists::Items;
use pw_outside::{Files, Sink};
use std::alloc::Global;
use system_files::{TellsWhy, Unread};

/// Does what the words of a command line ask for, or nothing where they could not be read, and puts
/// the sentence of the one or the other on the error output.
pub fn run_read<U: Utility, F: Files + TellsWhy, O: Sink, E: Sink>(
    utility: &U,
    alloc: Global,
    words: Result<Items<String>, Unread>,
    files: F,
    out: O,
    errors: &mut E,
) -> Exit<F, O, U::Left>
    requires can { U.can_run utility.now }
    // The program has done what its words ask for, and the sentence of that is put.
    ensures ended { IfOk words (λ read. HasEnded (U.has_done (map string_bytes read)
        (outside F.Files O.Sink files out) (outside F.Files O.Sink result.files result.out)
        (F.why result.files) result.left result.code) (shown E.Sink errors.old)
        (shown E.Sink errors.new) result.said) }
    // Or the sentence of what could not be read: nothing else is done.
    ensures refused { IfErr words (λ unread. HasRefused U.refusal unread
        (outside F.Files O.Sink files out) (outside F.Files O.Sink result.files result.out)
        result.code (shown E.Sink errors.old) (shown E.Sink errors.new) result.said) }
{
    match words {
        Ok(words) => {
            let Done {
                code,
                files,
                out,
                left,
                sentence,
            } = utility.run(alloc, words.as_slice(), files, out);
            Exit {
                code,
                files,
                out,
                left,
                said: put_sentence(alloc, sentence, errors),
            }
        }
        Err(unread) => {
            let (sentence, left) = U::refuse(alloc, unread);
            Exit {
                code: unread.number(),
                files,
                out,
                left,
                said: put_sentence(alloc, sentence, errors),
            }
        }
    }
}
