//! The line of an event as a trace has it, without its line feed.
ghost use Rattle.std.specs.Prelude.{◌≡◌, [], ◌∷◌, ◌++◌, decimal, map, OnOk};
ghost use Rattle.cycle_trace.specs.EventLines.{late_nodes};
ghost use Rattle.cycle_trace.specs.Words.{spaced};
ghost use Rattle.pw_graph.specs.declared.event.Event.TheVariants as E;
ghost use Rattle.fault_messages.specs.EventWords.{event_text, event_words};
ghost use Rattle.fault_messages.specs.NodeNames.{node_word};

use crate::node_names::put_node_word;
use pw_graph::Event;
use pw_lists::{Memory, Text, append_decimal};

// A first word and a cycle.
fn put_mark(text: &mut Text, first: &[u8], cycle: u32) -> Result<(), Memory>
    ensures { OnOk result (text.new ≡ text.old ++ event_text first.now cycle []) }
{
    text.extend(first)?;
    text.extend(b" ")?;
    append_decimal(text, u64::from(cycle))
}

// A node after a space.
fn put_spaced(text: &mut Text, names: &[Text], node: u32) -> Result<(), Memory>
    ensures { OnOk result (text.new ≡ text.old ++ 32 ∷ node_word names.now node) }
{
    text.extend(b" ")?;
    put_node_word(text, names, node)
}

// A first word, a cycle and a node.
fn put_of_node(
    text: &mut Text,
    first: &[u8],
    cycle: u32,
    names: &[Text],
    node: u32,
) -> Result<(), Memory>
    ensures { OnOk result (text.new ≡ text.old
        ++ event_text first.now cycle (node_word names.now node ∷ [])) }
{
    put_mark(text, first, cycle)?;
    put_spaced(text, names, node)
}

// The nodes of a set, ascending by number, each after a space.
fn put_late(text: &mut Text, names: &[Text], late: u64) -> Result<(), Memory>
    ensures { OnOk result (text.new ≡ text.old
        ++ spaced (map (node_word names.now) (late_nodes late))) }
{
    for n in 0..64u32 {
        if (late >> n) % 2 == 1 {
            put_spaced(text, names, n)?;
        }
    }
    Ok(())
}

// The word of a tick, a cycle and the late nodes.
fn put_tick(text: &mut Text, cycle: u32, names: &[Text], late: u64) -> Result<(), Memory>
    ensures { OnOk result (text.new ≡ text.old ++ event_words names.now (E.Tick cycle late)) }
{
    put_mark(text, b"tick", cycle)?;
    put_late(text, names, late)
}

/// The line of an event, by the names of the script's nodes.
pub fn put_event(text: &mut Text, names: &[Text], event: Event) -> Result<(), Memory>
    ensures { OnOk result (text.new ≡ text.old ++ event_words names.now event) }
{
    match event {
        Event::Begin { cycle } => put_mark(text, b"begin", cycle),
        Event::Start { cycle, node } => put_of_node(text, b"start", cycle, names, node),
        Event::Finish { cycle, node } => put_of_node(text, b"finish", cycle, names, node),
        Event::Tick { cycle, late } => put_tick(text, cycle, names, late),
        Event::End { cycle } => put_mark(text, b"end", cycle),
    }
}
