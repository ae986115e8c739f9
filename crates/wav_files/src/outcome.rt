//! What a run answers: what happened, the waves of its sinks and the peaks of its meters.

use crate::wav::Wav;
use pw_graph::Event;
use pw_lists::Items;

/// What a sink has kept.
#[derive(Drop)]
pub struct Kept {
    pub node: u32,
    pub wav: Wav,
}

/// The greatest absolute value that a meter has received.
#[derive(Clone, Copy, PartialEq, Eq, Drop)]
pub struct Peak {
    pub node: u32,
    pub value: u32,
}

/// What a run answers: each sink and each meter that has a format at the script's end, ascending by
/// node.
#[derive(Drop)]
pub struct Outcome {
    pub history: Items<Event>,
    pub sinks: Items<Kept>,
    pub peaks: Items<Peak>,
}
