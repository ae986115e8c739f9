//! The requests of a program.
ghost use Rattle.std.specs.Prelude.{◌≡◌, map, string_bytes, IfOk};
ghost use Rattle.command_frame.specs.Words.{IsAsked};
ghost use Rattle.command_frame.specs.Ending.{CommandCause, IsDeliverable};
ghost use Rattle.command_frame.specs.Preparing.{LoadsOnly, Tells};

use crate::ending::Ending;
use crate::work::Work;
use pw_outside::Files;
use std::alloc::Global;

/// Why words ask for nothing.
#[derive(Clone, Copy, Drop)]
pub enum Misread {
    /// The index of the first word at fault, or their number where more were wanted.
    Word(u32),
    /// No memory was left.
    Memory,
}

/// A program with statuses `S` and requests `Q`. What a request leaves beside its status is in the
/// program itself, and its answers are by what that was before and after.
pub trait Program<S: Ending, Q> {
    ghost use Rattle.std.specs.Prelude.{ℕ, Result};
    ghost use Rattle.pw_outside.specs.Files.{Names};
    ghost use Rattle.command_frame.specs.Answer.{Answer};
    ghost use Rattle.command_frame.specs.declared.work.Work.{Work};
    ghost use Rattle.command_frame.specs.Words.{Words};

    // The request of words, or the first word at fault.
    ghost asks: { Words → Result Q ℕ };

    // What each request of words has.
    ghost is_sound: { Q → Type 0 };

    // The answers that are allowed: by the program before and after, by the request, and by what
    // the files hold.
    ghost answers: { Self → Self → Q → Names → Answer S → Type 0 };

    // What its requests leave to store and to put, whether the files are reported or not.
    ghost delivers: { Work → Type 0 };

    /// The request of the words of a command line.
    fn read(alloc: Global, words: &[String]) -> Result<Q, Misread>
        ensures read { IsAsked (asks (map string_bytes words.now)) result }
        ensures sound { IfOk result is_sound };

    /// Makes the loads of a request in order. It stores and puts nothing.
    fn prepare<F: Files>(&mut self, alloc: Global, request: Q, files: &mut F) -> Result<Work, S>
        requires sound { is_sound request }
        ensures files { LoadsOnly (F.held files.old) (F.held files.new) (F.load_faults files.old)
            (F.load_faults files.new) (F.store_faults files.old) (F.store_faults files.new) }
        ensures told { Tells S.statuses (F.held files.old)
            (answers self.old self.new request) result }
        ensures cause { CommandCause S.statuses (IsDeliverable S.statuses)
            (F.load_faults files.old) (F.load_faults files.new) result }
        ensures work { IfOk result delivers };
}
