//! The lines of a history.
ghost use Rattle.std.specs.Prelude.{◌≡◌, ℕ, ◌<◌, ◌/◌, ◌%◌, ◌^◌, ◌∷◌, ◌++◌, map, flat_map, All, decimal, OnOk};
ghost use Rattle.cycle_trace.specs.Printable.{IsNode, NamesNodes};
ghost use Rattle.cycle_trace.specs.EventLines.{event_line, late_nodes};
ghost use Rattle.cycle_trace.specs.NodeNames.{node_name};
ghost use Rattle.cycle_trace.specs.Words.{spaced};

use crate::words::{append_number, append_word, end_line};
use pw_graph::{DUMMY, Event};
use pw_lists::{Memory, Text};

/// The name of a node.
fn name_of(names: &[Text], node: u32) -> &[u8]
    requires { IsNode names.now node }
    ensures { result.now ≡ node_name names.now node }
{
    if node == DUMMY {
        b"dummy".as_slice()
    } else {
        names[node as usize].as_slice()
    }
}

/// Appends the first word of a line and its cycle.
fn append_mark(word: &[u8], cycle: u32, text: &mut Text) -> Result<(), Memory>
    ensures { OnOk result (text.new ≡ text.old ++ (word.now ++ 32 ∷ decimal cycle)) }
{
    text.extend(word)?;
    append_number(text, u64::from(cycle))
}

/// Appends the names of a set of nodes, ascending by number.
fn append_late_nodes(names: &[Text], late: u64, text: &mut Text) -> Result<(), Memory>
    requires { (n : ℕ) → n < 64 → late / 2 ^ n % 2 ≡ 1 → IsNode names.now n }
    ensures { OnOk result (text.new
        ≡ text.old ++ spaced (map (node_name names.now) (late_nodes late))) }
{
    for n in 0..64u32 {
        if (late >> n) % 2 == 1 {
            append_word(text, name_of(names, n))?;
        }
    }
    Ok(())
}

/// Appends one line.
pub(crate) fn append_event_line(names: &[Text], event: Event, text: &mut Text) -> Result<(), Memory>
    requires { NamesNodes names.now event }
    ensures { OnOk result (text.new ≡ text.old ++ event_line names.now event) }
{
    match event {
        Event::Begin { cycle } => append_mark(b"begin".as_slice(), cycle, text)?,
        Event::Start { cycle, node } => {
            append_mark(b"start".as_slice(), cycle, text)?;
            append_word(text, name_of(names, node))?;
        }
        Event::Finish { cycle, node } => {
            append_mark(b"finish".as_slice(), cycle, text)?;
            append_word(text, name_of(names, node))?;
        }
        Event::Tick { cycle, late } => {
            append_mark(b"tick".as_slice(), cycle, text)?;
            append_late_nodes(names, late, text)?;
        }
        Event::End { cycle } => append_mark(b"end".as_slice(), cycle, text)?,
    }
    end_line(text)
}

/// Appends a line for each.
pub(crate) fn append_event_lines(
    names: &[Text],
    events: &[Event],
    text: &mut Text,
) -> Result<(), Memory>
    requires { All (NamesNodes names.now) events.now }
    ensures { OnOk result (text.new ≡ text.old ++ flat_map (event_line names.now) events.now) }
{
    for event in events {
        append_event_line(names, *event, text)?;
    }
    Ok(())
}
