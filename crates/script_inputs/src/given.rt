//! What is given for the lines that name a file, each in its turn.
ghost use Rattle.std.specs.Prelude.{◌≡◌};
ghost use Rattle.std.specs.Vec.Iter.{into_iter_items};
ghost use Rattle.script_inputs.specs.ScriptInputs.{formats_taken};
ghost use Rattle.script_inputs.specs.working.Turns.{TakesWave};

use graph_script::Command;
use std::alloc::Global;
use std::vec::IntoIter;
use wav_files::Wav;

/// The wave of a line: of a `source` line the next one, if one is left; of the others none.
pub(crate) fn next_wave(command: &Command, waves: &mut IntoIter<Wav, Global>) -> Option<Wav>
    ensures { TakesWave command.now (into_iter_items waves.old) result (into_iter_items waves.new) }
{
    match command {
        Command::Source { .. } => waves.next(),
        _ => None,
    }
}

/// How many formats a line takes: an `offer` line one.
pub(crate) fn formats_taken(command: &Command) -> usize
    ensures { result ≡ formats_taken command.now }
{
    match command {
        Command::Offer { .. } => 1,
        _ => 0,
    }
}
