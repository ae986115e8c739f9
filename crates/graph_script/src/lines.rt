//! Lines, one after the other: what each says, by those before it.
ghost use Rattle.std.specs.Prelude.{◌≡◌, ◌+◌, ◌≤◌, IfOk};
ghost use Rattle.graph_script.specs.Grammar.{meaning_of_line, reading_with, IsRead};
ghost use Rattle.graph_script.specs.working.Progress.{reading_in, AreBefore};
ghost use Rattle.graph_script.specs.working.Sound.{IsConsistent};

use crate::fault::{ScriptFault, ScriptWhy};
use crate::lexing::{is_plain, says_nothing};
use crate::progress::{Progress, advanced};
use crate::reading::ParsedLine;
use crate::saying::parsed_by;
use pw_lists::Memory;
use std::alloc::Global;

// What a line says, if anything, or the cause of its fault.
#[tactic(auto, unfolding(crate::specs::Grammar::meaning_of_line))]
fn meaning_of_line(
    alloc: Global,
    progress: &Progress,
    line: &[u8],
) -> Result<Result<Option<ParsedLine>, ScriptWhy>, Memory>
    requires { IsConsistent progress.now }
    ensures { IfOk result (λ meaning. meaning ≡ meaning_of_line progress.now.reading line.now) }
{
    if !is_plain(line) {
        return Ok(Err(ScriptWhy::Byte));
    }
    if says_nothing(line) {
        return Ok(Ok(None));
    }
    match parsed_by(alloc, progress, line) {
        Err(memory) => Err(memory),
        Ok(Err(why)) => Ok(Err(why)),
        Ok(Ok(parsed)) => Ok(Ok(Some(parsed))),
    }
}

/// What the lines have said after the next, or its fault.
pub(crate) fn read_line(
    alloc: Global,
    progress: Progress,
    number: u32,
    line: &[u8],
) -> Result<Progress, ScriptFault>
    requires consistent { IsConsistent progress }
    requires numbered { 1 ≤ number }
    requires before { AreBefore number progress.reading }
    ensures read { IsRead (reading_with number progress.reading
        (meaning_of_line progress.reading line.now)) (reading_in result) }
    ensures consistent { IfOk result IsConsistent }
    ensures before { IfOk result (λ after. AreBefore (number + 1) after.reading) }
{
    match meaning_of_line(alloc, &progress, line) {
        Err(_memory) => Err(ScriptFault::Memory),
        Ok(Err(why)) => Err(ScriptFault::At { line: number, why }),
        Ok(Ok(None)) => Ok(progress),
        Ok(Ok(Some(parsed))) => match advanced(progress, number, parsed) {
            Err(_memory) => Err(ScriptFault::Memory),
            Ok(after) => Ok(after),
        },
    }
}
