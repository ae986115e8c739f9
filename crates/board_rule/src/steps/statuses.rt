//! The status words of a cycle.
ghost use Rattle.std.specs.Prelude.{◌≡◌};
ghost use Rattle.pw_graph.specs.Words.{awake_word, finished_word, not_triggered_word, triggered_word};

use pw_graph::{ActivationStatus, status_word};

pub(crate) fn not_triggered(cycle: u32) -> u64
    ensures { result ≡ not_triggered_word cycle }
{
    status_word(ActivationStatus::NotTriggered.number(), cycle)
}

pub(crate) fn triggered(cycle: u32) -> u64
    ensures { result ≡ triggered_word cycle }
{
    status_word(ActivationStatus::Triggered.number(), cycle)
}

pub(crate) fn awake(cycle: u32) -> u64
    ensures { result ≡ awake_word cycle }
{
    status_word(ActivationStatus::Awake.number(), cycle)
}

pub(crate) fn finished(cycle: u32) -> u64
    ensures { result ≡ finished_word cycle }
{
    status_word(ActivationStatus::Finished.number(), cycle)
}
