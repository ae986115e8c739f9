//! What a run found, beyond its report.

use crate::clash::Clash;
use command_frame::Work;
use graph_script::Script;
use pw_graph::{Event, Plan};
use pw_lists::{Items, Text};
use refused_links::RefusedLink;
use trace_check::Reason;
use wav_files::Peak;

/// What a run found, beyond its report: for sentences and notes.
#[derive(Drop)]
pub struct Found {
    /// The bytes of the script, as they were loaded; `None` where the words name none, or it was
    /// not loaded.
    pub script: Option<Text>,
    /// What was stored and put, where all was done.
    pub work: Option<Work>,
    pub what: What,
}

/// What a command found, where all was done.
#[derive(Drop)]
pub enum What {
    /// The command finds nothing, or not all was done.
    Nothing,
    /// Of `run` and of `groups`: the script that was run, its plan, whose `lines` say what each
    /// `link` and `unlink` line did, and the peaks of the meters that have a format at its end,
    /// ascending by node. `refused` has, of `run`, each `link` line that found no common format,
    /// with what both ports admit at the key; of `groups` nothing. The plan of `groups` has all
    /// nodes and lines, and no epochs.
    Run {
        script: Script,
        plan: Plan,
        peaks: Items<Peak>,
        refused: Items<RefusedLink>,
    },
    /// Of `check`: the names of the script's nodes, by number; why the events of the trace are no
    /// legal history of its plan, and the event at that place, where the trace does not end before
    /// it. Both are `None` where the events are legal. Node 63 is the dummy.
    Check {
        names: Items<Text>,
        reason: Option<Reason>,
        event: Option<Event>,
    },
    /// Of `check`: the first line of the trace that is of no event, counted from 1.
    NoEvent {
        number: u64,
    },
    /// Of `filter`: how the two objects clash.
    Clash(Clash),
}
