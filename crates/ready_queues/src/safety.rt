//! What the rule of a start word says of a loop that was not started.
ghost use Rattle.ready_queues.specs.StartRule.{StartState, Holds, IsHonest};

use crate::ways::Ways;

/// A law, which does nothing: in each state of a loop's start word between any two steps, while the
/// loop's own way was not started the word is 0 and no seat has seen a start.
pub fn no_start_is_seen(_ways: &Ways)
    ensures { (s : StartState) → Holds s → IsHonest s }
{}
