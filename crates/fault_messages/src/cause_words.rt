//! What is wrong with an event of a trace, or what is missing where none comes, in parts.
ghost use Rattle.std.specs.Prelude.{◌≡◌, ◌++◌, decimal, OnOk};
ghost use Rattle.fault_messages.specs.CauseWords.{cycle_of, its_node, not_begun, only_begin, not_ended};
ghost use Rattle.fault_messages.specs.CauseWords.{not_finished, node_said, waits_for, not_late};
ghost use Rattle.fault_messages.specs.NodeNames.{node_text};

use crate::node_names::{put_node, put_node_between};
use crate::putting::put_number;
use pw_graph::Event;
use pw_lists::{Memory, Text, append_decimal};

/// The cycle of an event.
pub fn cycle_of(event: Event) -> u32
    ensures { result ≡ cycle_of event }
{
    match event {
        Event::Begin { cycle }
        | Event::Start { cycle, .. }
        | Event::Finish { cycle, .. }
        | Event::Tick { cycle, .. }
        | Event::End { cycle } => cycle,
    }
}

// The node that an event starts or finishes.
fn put_its_node(text: &mut Text, names: &[Text], event: Event) -> Result<(), Memory>
    ensures { OnOk result (text.new ≡ text.old ++ its_node names.now event) }
{
    match event {
        Event::Start { node, .. } | Event::Finish { node, .. } => put_node(text, names, node),
        _ => text.extend(b"its node"),
    }
}

/// That a cycle has not begun.
#[tactic(auto, unfolding(crate::specs::CauseWords::not_begun))]
pub fn put_not_begun(text: &mut Text, cycle: u32) -> Result<(), Memory>
    ensures { OnOk result (text.new ≡ text.old ++ not_begun cycle) }
{
    put_number(text, b"cycle ", cycle, b" has not begun")
}

/// What can come before a cycle has begun.
#[tactic(auto, unfolding(crate::specs::CauseWords::only_begin))]
pub fn put_only_begin(text: &mut Text, cycle: u32) -> Result<(), Memory>
    ensures { OnOk result (text.new ≡ text.old ++ only_begin cycle) }
{
    put_number(text, b", so only begin ", cycle, b" can come here")
}

/// That a cycle has begun and not ended.
#[tactic(auto, unfolding(crate::specs::CauseWords::not_ended))]
pub fn put_not_ended(text: &mut Text, cycle: u32) -> Result<(), Memory>
    ensures { OnOk result (text.new ≡ text.old ++ not_ended cycle) }
{
    put_number(text, b"cycle ", cycle, b" has begun and not ended")
}

// A cycle and a node of it, with words before each and after them.
fn put_cycle_node(
    text: &mut Text,
    before: &[u8],
    cycle: u32,
    between: &[u8],
    names: &[Text],
    node: u32,
    behind: &[u8],
) -> Result<(), Memory>
    ensures { OnOk result (text.new ≡ text.old ++ (before.now ++ (decimal cycle
        ++ (between.now ++ (node_text names.now node ++ behind.now))))) }
{
    text.extend(before)?;
    append_decimal(text, u64::from(cycle))?;
    put_node_between(text, between, names, node, behind)
}

/// That a cycle cannot end before a node has finished.
#[tactic(auto, unfolding(crate::specs::CauseWords::not_finished))]
pub fn put_not_finished(
    text: &mut Text,
    names: &[Text],
    cycle: u32,
    node: u32,
) -> Result<(), Memory>
    ensures { OnOk result (text.new ≡ text.old ++ not_finished names.now cycle node) }
{
    put_cycle_node(
        text,
        b"cycle ",
        cycle,
        b" cannot end before ",
        names,
        node,
        b" has finished",
    )
}

/// What is said of something in a cycle.
#[tactic(auto, unfolding(crate::specs::CauseWords::node_said))]
pub fn put_said(
    text: &mut Text,
    what: &[u8],
    is: &[u8],
    cycle: u32,
    after: &[u8],
) -> Result<(), Memory>
    ensures { OnOk result (text.new ≡ text.old ++ node_said what.now is.now cycle after.now) }
{
    text.extend(what)?;
    put_number(text, is, cycle, after)
}

/// What is said of the node of an event in its cycle.
#[tactic(auto, unfolding(crate::specs::CauseWords::node_said))]
pub fn put_node_said(
    text: &mut Text,
    names: &[Text],
    event: Event,
    is: &[u8],
    after: &[u8],
) -> Result<(), Memory>
    ensures { OnOk result (text.new ≡ text.old
        ++ node_said (its_node names.now event) is.now (cycle_of event) after.now) }
{
    put_its_node(text, names, event)?;
    put_number(text, is, cycle_of(event), after)
}

/// For which node the node of an event waits.
#[tactic(auto, unfolding(crate::specs::CauseWords::waits_for))]
pub fn put_waits_for(text: &mut Text, names: &[Text], event: Event, node: u32) -> Result<(), Memory>
    ensures { OnOk result (text.new ≡ text.old
        ++ waits_for (its_node names.now event) (node_text names.now node) (cycle_of event)) }
{
    put_its_node(text, names, event)?;
    text.extend(b" waits for ")?;
    put_node(text, names, node)?;
    put_number(
        text,
        b", which has not finished in cycle ",
        cycle_of(event),
        b"",
    )
}

/// Why a node cannot be late in a cycle.
#[tactic(auto, unfolding(crate::specs::CauseWords::not_late))]
pub fn put_not_late(text: &mut Text, names: &[Text], node: u32, cycle: u32) -> Result<(), Memory>
    ensures { OnOk result (text.new ≡ text.old ++ not_late (node_text names.now node) cycle) }
{
    put_node(text, names, node)?;
    put_number(
        text,
        b" cannot be late: it drives cycle ",
        cycle,
        b", is not active in it, or has finished in it",
    )
}
