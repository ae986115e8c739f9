//! Notes on a command that was accepted.
ghost use Rattle.std.specs.Prelude.{◌≡◌, ◌++◌, map, string_bytes, OnOk};
ghost use Rattle.fault_messages.specs.Notes.{run_notes, check_note, no_event, pair_head, clash_note, work_note, notes};
ghost use Rattle.fault_messages.specs.NoteHeads.{trace_note};

use crate::clashes::put_clash_text;
use crate::clipped_sinks::put_stored_note;
use crate::link_notes::put_link_notes;
use crate::lone_inputs::put_lone_notes;
use crate::note_heads::put_trace_head;
use crate::places::word_at;
use crate::putting::put_shown_pair;
use crate::reason_notes::put_reason_note;
use crate::sink_notes::put_sink_notes;
use graph_script::Script;
use pw_graph::{Event, Plan};
use pw_lists::{Memory, Text};
use refused_links::RefusedLink;
use run_results::{Clash, What, Work};
use trace_check::Reason;
use wav_files::Peak;

// Of a run.
fn put_run_notes(
    text: &mut Text,
    words: &[String],
    script: &Script,
    plan: &Plan,
    peaks: &[Peak],
    refused: &[RefusedLink],
    work: &Option<Work>,
) -> Result<(), Memory>
    ensures { OnOk result (text.new ≡ text.old
        ++ run_notes (map string_bytes words.now) script.now plan.now peaks.now refused.now
        work.now) }
{
    match work {
        None => Ok(()),
        Some(work) => {
            let (nodes, links) = (plan.nodes.as_slice(), plan.lines.as_slice());
            put_link_notes(text, words, nodes, refused, script.lines.as_slice(), links)?;
            put_lone_notes(text, words, script)?;
            put_sink_notes(text, words, script, plan, work.stores.as_slice(), peaks)
        }
    }
}

// Of a check that found the events legal, or a reason why they are not.
fn put_check_note(
    text: &mut Text,
    words: &[String],
    names: &[Text],
    reason: Option<Reason>,
    event: Option<Event>,
) -> Result<(), Memory>
    ensures { OnOk result (text.new ≡ text.old
        ++ check_note (map string_bytes words.now) names.now reason event) }
{
    match reason {
        None => Ok(()),
        Some(reason) => put_reason_note(text, words, names, event, reason),
    }
}

#[tactic(auto, unfolding(crate::specs::Notes::no_event))]
fn no_event() -> &'static [u8]
    ensures { result.now ≡ no_event }
{
    b"no event line of this script's nodes; grep -E '^(begin|start|finish|tick|end) ' \
        takes those of a run's text, and none ends with a blank or a carriage return"
}

// Of a line of a trace that is no event.
fn put_no_event(text: &mut Text, words: &[String], number: u64) -> Result<(), Memory>
    ensures { OnOk result
        (text.new ≡ text.old ++ trace_note (map string_bytes words.now) number no_event) }
{
    put_trace_head(text, words, number)?;
    text.extend(no_event())?;
    text.extend(b"\n")
}

// The two files of a filter, at the beginning of a note.
#[tactic(auto, unfolding(crate::specs::Notes::pair_head))]
fn put_pair_head(text: &mut Text, a: &[u8], b: &[u8]) -> Result<(), Memory>
    ensures { OnOk result (text.new ≡ text.old ++ pair_head a.now b.now) }
{
    put_shown_pair(text, b"pipegraph: ", a, b" and ", b, b": ")
}

// Of a filter whose objects clash.
fn put_clash_note(text: &mut Text, words: &[String], clash: Clash) -> Result<(), Memory>
    ensures { OnOk result
        (text.new ≡ text.old ++ clash_note (map string_bytes words.now) clash) }
{
    put_pair_head(text, word_at(words, 1), word_at(words, 2))?;
    put_clash_text(text, clash)?;
    text.extend(b"\n")
}

// Of a command that finds nothing: the wave that it stored, if it did.
fn put_work_note(text: &mut Text, words: &[String], work: &Option<Work>) -> Result<(), Memory>
    ensures { OnOk result (text.new ≡ text.old
        ++ work_note (map string_bytes words.now) work.now) }
{
    match work {
        None => Ok(()),
        Some(work) => put_stored_note(text, words, work.stores.as_slice()),
    }
}

/// What is to be said of a command that was accepted, by its words, by what it found and by what it
/// stored.
pub fn put_notes(
    text: &mut Text,
    words: &[String],
    what: &What,
    work: &Option<Work>,
) -> Result<(), Memory>
    ensures { OnOk result (text.new ≡ text.old
        ++ notes (map string_bytes words.now) what.now work.now) }
{
    match what {
        What::Nothing => put_work_note(text, words, work),
        What::Run {
            script,
            plan,
            peaks,
            refused,
        } => {
            let (peaks, refused) = (peaks.as_slice(), refused.as_slice());
            put_run_notes(text, words, script, plan, peaks, refused, work)
        }
        What::Check {
            names,
            reason,
            event,
        } => put_check_note(text, words, names.as_slice(), *reason, *event),
        What::NoEvent { number } => put_no_event(text, words, *number),
        What::Clash(clash) => put_clash_note(text, words, *clash),
    }
}
