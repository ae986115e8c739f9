//! The events that the lines of a trace name.
ghost use Rattle.std.specs.Prelude.{◌≡◌, ℕ, ◌<◌, ◌≤◌, ◌/◌, ◌%◌, ◌^◌, ◌↔◌, List, [], ◌∷◌, ◌++◌, length, decimal};
ghost use Rattle.pw_lists.specs.Limits.{nodes_limit};
ghost use Rattle.std.specs.Prelude.{Some, IsTrue, IfOk, IfErr, IfSome, MatchOption};
ghost use Rattle.std.specs.List.{AllZip, slice_split};
ghost use Rattle.pw_graph.specs.declared.event.Event.{Event};
ghost use Rattle.cycle_trace.specs.TraceReading.{is_space, trace_lines, IsLineOf, IsNoLine, IsFaultOf, AreNames, NumbersFit};
ghost use Rattle.cycle_trace.specs.EventLines.{event_line};
ghost use Rattle.cycle_trace.specs.working.EventWords.{event_said};
ghost use Rattle.cycle_trace.specs.Printable.{IsNode, NamesNodes};
ghost use Rattle.cycle_trace.specs.declared.event_reading.TraceFault.TheVariants as f;

use crate::event_lines::append_event_line;
use crate::event_words::{event_said, number_said};
use pw_graph::{DUMMY, Event};
use pw_lists::{Items, Memory, Text, next_piece};
use std::alloc::Global;

/// Why the events of a trace cannot be read.
#[derive(Clone, Copy, Drop)]
pub enum TraceFault {
    /// The first line that is no event line, counted from 1.
    Line(u64),
    /// No memory was left.
    Memory,
}

impl From<Memory> for TraceFault {
    ghost from_gives = { λ _ fault. fault ≡ f.Memory };

    fn from(_memory: Memory) -> TraceFault {
        TraceFault::Memory
    }
}

/// The event of a first word and the text after it: a cycle, and what belongs to the event.
fn event_after(names: &[Text], first: &[u8], after: &[u8]) -> Option<Event>
    requires { length names.now ≤ nodes_limit }
    ensures only { (event : Event) (cycle : ℕ) (others : List (List ℕ))
        → slice_split is_space after.now ≡ decimal cycle ∷ others → cycle < 2 ^ 32
        → event_said names.now first.now cycle others ≡ Some event → result ≡ Some event }
    ensures fits { IfSome result NumbersFit }
{
    let (number, words) = next_piece(after, b' ');
    match number_said(number) {
        Some(cycle) => event_said(names, first, cycle, words),
        None => None,
    }
}

/// The only event that a line can be of, if there is one. Its own line may be another.
fn candidate(names: &[Text], line: &[u8]) -> Option<Event>
    requires { AreNames names.now }
    ensures only { (event : Event) → IsLineOf names.now line.now event → result ≡ Some event }
    ensures fits { IfSome result NumbersFit }
{
    let (first, after) = next_piece(line, b' ');
    match after {
        Some(after) => event_after(names, first, after),
        None => None,
    }
}

/// Whether it is the number of a node that has a name, or of the built-in driver.
fn is_node(names: &[Text], node: u32) -> bool
    ensures { IsTrue result ↔ IsNode names.now node }
{
    node == DUMMY || (node as usize) < names.len()
}

/// Whether each node of a set is one.
fn are_nodes(names: &[Text], late: u64) -> bool
    ensures { IsTrue result ↔ ((n : ℕ) → n < 64 → late / 2 ^ n % 2 ≡ 1
        → IsNode names.now n) }
{
    for n in 0..64u32 {
        if (late >> n) % 2 == 1 && !is_node(names, n) {
            return false;
        }
    }
    true
}

/// Whether the nodes of an event, late ones too, have names.
fn names_nodes(names: &[Text], event: Event) -> bool
    ensures { IsTrue result ↔ NamesNodes names.now event }
{
    match event {
        Event::Begin { .. } | Event::End { .. } => true,
        Event::Start { node, .. } | Event::Finish { node, .. } => is_node(names, node),
        Event::Tick { late, .. } => are_nodes(names, late),
    }
}

/// Whether the line, without its line feed, is that of the event.
fn is_line_of(alloc: Global, names: &[Text], event: Event, line: &[u8]) -> Result<bool, Memory>
    requires { NamesNodes names.now event }
    ensures { IfOk result (λ same. IsTrue same
        ↔ (line.now ++ 10 ∷ [] ≡ event_line names.now event)) }
{
    let mut told = Items::new(alloc);
    append_event_line(names, event, &mut told)?;
    let mut wanted = Items::from_slice(alloc, line)?;
    wanted.push(b'\n')?;
    Ok(wanted.as_slice() == told.as_slice())
}

/// The event whose line it is, if there is one.
fn read_line(alloc: Global, names: &[Text], line: &[u8]) -> Result<Option<Event>, Memory>
    requires { AreNames names.now }
    ensures { IfOk result (λ read. MatchOption read (IsNoLine names.now line.now)
        (IsLineOf names.now line.now)) }
{
    let Some(event) = candidate(names, line) else {
        return Ok(None);
    };
    if !names_nodes(names, event) {
        return Ok(None);
    }
    if is_line_of(alloc, names, event, line)? {
        Ok(Some(event))
    } else {
        Ok(None)
    }
}

/// The first line of a text, if it has one, and the text after that.
fn next_line(text: &[u8]) -> Option<(&[u8], &[u8])>
    ensures lines { MatchOption result (trace_lines text.now ≡ [])
        (λ cut. trace_lines text.now ≡ cut.0.now ∷ trace_lines cut.1.now) }
    ensures shorter { IfSome result (λ cut. length cut.1.now < length text.now) }
{
    let (line, after) = next_piece(text, b'\n');
    match after {
        Some(more) => Some((line, more)),
        None => {
            if line.is_empty() {
                None
            } else {
                Some((line, &[]))
            }
        }
    }
}

/// The events whose lines the bytes are, or the first line that is no event line.
///
/// An event line is what `run_text` prints for an event whose cycle fits 32 bits and whose nodes
/// are in `names`, by their numbers, or are the built-in driver. Lines are numbered from 1; the
/// last may lack its line feed, and no bytes are no line. Takes memory for the events, and time in
/// proportion to the bytes and the names.
pub fn read_events(
    alloc: Global,
    names: &Items<Text>,
    bytes: &[u8],
) -> Result<Items<Event>, TraceFault>
    requires { AreNames names.now }
    ensures events { IfOk result
        (λ events. AllZip (IsLineOf names.now) (trace_lines bytes.now) events) }
    ensures fault { IfErr result (IsFaultOf names.now (trace_lines bytes.now)) }
{
    let names = names.as_slice();
    let mut events = Items::new(alloc);
    let mut rest = bytes;
    let mut number: u64 = 1;
    while let Some((line, more)) = next_line(rest) {
        match read_line(alloc, names, line)? {
            Some(event) => events.push(event)?,
            None => return Err(TraceFault::Line(number)),
        }
        rest = more;
        number += 1;
    }
    Ok(events)
}
