//! A program of the command line, but for the put of its sentence.
ghost use Rattle.std.specs.Prelude.{◌≡◌, map, string_bytes, IfOk};
ghost use Rattle.command_frame.specs.Outside.{outside};
ghost use Rattle.program_exit.specs.Sentence.{IsMade};

use pw_lists::{Memory, Text};
use pw_outside::{Files, Sink};
use std::alloc::Global;
use system_files::{TellsWhy, Unread};

/// What was done with words: the number to end with, the files and the output after it, what was
/// left beside them, and the sentence, or that memory was short for it.
#[derive(Drop)]
pub struct Done<F, O, L> {
    pub code: u8,
    pub files: F,
    pub out: O,
    pub left: L,
    pub sentence: Result<Text, Memory>,
}

/// A program of the command line.
pub trait Utility {
    ghost use Rattle.std.specs.Prelude.{ℕ, List, Option};
    ghost use Rattle.command_frame.specs.Outside.{Outside};
    ghost use Rattle.command_frame.specs.Words.{Words};
    ghost use Rattle.system_files.specs.declared.unread.Unread.{Unread};
    ghost use Rattle.system_files.specs.declared.why.FileWhy.{FileWhy};

    /// What it leaves beside files and output.
    type Left: Drop;

    // What has to be so for it to run: as that its threads may share what it runs by.
    ghost can_run: { Self → Type 0 };

    // What it has done: by its words, by the outside before and after, by why the files say that
    // their last load or store failed, and by what it left; with which number and which sentence.
    ghost has_done: { Words → Outside → Outside → Option FileWhy → Self.Left → ℕ → List ℕ → Type 0 };

    // Its sentence of words that could not be read.
    ghost refusal: { Unread → List ℕ };

    /// Does what words ask for, and makes the sentence of how that ended, which may be empty. It
    /// puts nothing but on the output.
    fn run<F: Files + TellsWhy, O: Sink>(
        &self,
        alloc: Global,
        words: &[String],
        files: F,
        out: O,
    ) -> Done<F, O, Self::Left>
        requires can { can_run self.now }
        ensures { IsMade (has_done (map string_bytes words.now) (outside F.Files O.Sink files out)
            (outside F.Files O.Sink result.files result.out) (F.why result.files) result.left
            result.code) result.sentence };

    /// The sentence of words that could not be read, and what is left where nothing was done.
    fn refuse(alloc: Global, unread: Unread) -> (Result<Text, Memory>, Self::Left)
        ensures { IfOk result.0 (λ text. text ≡ refusal unread) };
}
