//! Why the events of a trace are no legal history, in words.
ghost use Rattle.std.specs.Prelude.{◌≡◌, ◌++◌, map, string_bytes, OnOk};
ghost use Rattle.fault_messages.specs.ReasonNotes.{cause_text, an_event, missing_text, too_soon};
ghost use Rattle.fault_messages.specs.ReasonNotes.{reason_said, reason_note};

use crate::cause_words::{
    cycle_of, put_node_said, put_not_begun, put_not_ended, put_not_finished, put_not_late,
    put_only_begin, put_said, put_waits_for,
};
use crate::event_words::put_event;
use crate::note_heads::put_trace_head;
use pw_graph::Event;
use pw_lists::{Memory, Text};
use trace_check::{Cause, Reason};

// What is wrong with an event.
fn put_cause(text: &mut Text, names: &[Text], event: Event, cause: Cause) -> Result<(), Memory>
    ensures { OnOk result (text.new ≡ text.old ++ cause_text names.now event cause) }
{
    match cause {
        Cause::AllEnded => {
            text.extend(b"no event can come here: the script has no further cycle")
        }
        Cause::NotBegun { cycle } => {
            put_not_begun(text, cycle)?;
            put_only_begin(text, cycle)
        }
        Cause::NotEnded { cycle } => put_not_ended(text, cycle),
        Cause::NotFinished { cycle, node } => put_not_finished(text, names, cycle, node),
        Cause::NotActive => put_node_said(text, names, event, b" is not active in cycle ", b""),
        Cause::Started => {
            put_node_said(text, names, event, b" has started in cycle ", b" already")
        }
        Cause::WaitsFor { node } => put_waits_for(text, names, event, node),
        Cause::NotStarted => {
            put_node_said(text, names, event, b" has not started in cycle ", b"")
        }
        Cause::Finished => {
            put_node_said(text, names, event, b" has finished in cycle ", b" already")
        }
        Cause::Ticked => {
            put_said(
                text,
                b"a tick",
                b" has come in cycle ",
                cycle_of(event),
                b" already",
            )
        }
        Cause::DriverStarted => put_said(
            text,
            b"the driver",
            b" has started in cycle ",
            cycle_of(event),
            b", and a tick comes before that",
        ),
        Cause::NotLate { node } => put_not_late(text, names, node, cycle_of(event)),
    }
}

#[tactic(auto, unfolding(crate::specs::ReasonNotes::an_event))]
fn an_event() -> &'static [u8]
    ensures { result.now ≡ an_event }
{
    b"an event is missing"
}

// What is missing where no event comes.
fn put_missing(text: &mut Text, names: &[Text], cause: Cause) -> Result<(), Memory>
    ensures { OnOk result (text.new ≡ text.old ++ missing_text names.now cause) }
{
    match cause {
        Cause::NotBegun { cycle } => put_not_begun(text, cycle),
        Cause::NotEnded { cycle } => put_not_ended(text, cycle),
        Cause::NotFinished { cycle, node } => put_not_finished(text, names, cycle, node),
        Cause::AllEnded => text.extend(an_event()),
        Cause::NotActive => text.extend(an_event()),
        Cause::Started => text.extend(an_event()),
        Cause::WaitsFor { .. } => text.extend(an_event()),
        Cause::NotStarted => text.extend(an_event()),
        Cause::Finished => text.extend(an_event()),
        Cause::Ticked => text.extend(an_event()),
        Cause::DriverStarted => text.extend(an_event()),
        Cause::NotLate { .. } => text.extend(an_event()),
    }
}

// That the trace ends too soon.
#[tactic(auto, unfolding(crate::specs::ReasonNotes::too_soon))]
fn put_too_soon(text: &mut Text, names: &[Text], cause: Cause) -> Result<(), Memory>
    ensures { OnOk result (text.new ≡ text.old ++ too_soon names.now cause) }
{
    text.extend(b"the trace ends too soon: ")?;
    put_missing(text, names, cause)
}

// The event and what is wrong with it, or that the trace ends too soon.
fn put_reason(
    text: &mut Text,
    names: &[Text],
    event: Option<Event>,
    cause: Cause,
) -> Result<(), Memory>
    ensures { OnOk result (text.new ≡ text.old ++ reason_said names.now event cause) }
{
    match event {
        None => put_too_soon(text, names, cause),
        Some(event) => {
            put_event(text, names, event)?;
            text.extend(b": ")?;
            put_cause(text, names, event, cause)
        }
    }
}

/// The note on a trace whose events are no legal history, by the words of the command line, by the
/// names of the script's nodes, by the event at the place of the reason, where the trace has one
/// there, and by the reason.
pub fn put_reason_note(
    text: &mut Text,
    words: &[String],
    names: &[Text],
    event: Option<Event>,
    reason: Reason,
) -> Result<(), Memory>
    ensures { OnOk result (text.new ≡ text.old
        ++ reason_note (map string_bytes words.now) names.now event reason) }
{
    put_trace_head(text, words, u64::from(reason.at))?;
    put_reason(text, names, event, reason.cause)?;
    text.extend(b"\n")
}
