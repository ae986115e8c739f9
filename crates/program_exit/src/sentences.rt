//! The put of a sentence on the error output.
ghost use Rattle.program_exit.specs.Said.{shown, IsSentencePut};

use pw_lists::{Memory, Text};
use pw_outside::{FileFail, Sink};
use std::alloc::Global;

/// Puts a sentence that was made. Where there was no memory for it, nothing is put, and the error
/// output is as before.
pub fn put_sentence<E: Sink>(
    alloc: Global,
    sentence: Result<Text, Memory>,
    errors: &mut E,
) -> Result<(), FileFail>
    ensures { IsSentencePut sentence (shown E.Sink errors.old) (shown E.Sink errors.new) result }
{
    match sentence {
        Ok(text) => errors.put(alloc, text.as_slice()),
        Err(_memory) => Err(FileFail::Memory),
    }
}
