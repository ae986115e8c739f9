//! Why a node got no frames, by the script and by the plan of a run, in words.
ghost use Rattle.std.specs.Prelude.{◌≡◌, ◌++◌, option_copied, OnOk};
ghost use Rattle.fault_messages.specs.InactiveNodes.{is_of, is_ever_active, last_epoch, is_lost, has_lost};
ghost use Rattle.fault_messages.specs.InactiveNodes.{undrained_said, cycleless_said, drain_part, inactive_said};
ghost use Rattle.fault_messages.specs.InactiveNodes.{driver_said, left_part, groups_part, help_part, run_cause};

use crate::node_names::put_node_between;
use crate::putting::put_both;
use crate::script_lines::has_cycles;
use graph_script::Line;
use pw_graph::{DUMMY, Epoch, LineOutcome, LinkLine, Shape};
use pw_lists::{Memory, Text};

// Whether a node is active in the cycles of a shape.
fn is_of(shape: &Shape, node: u32) -> bool
    ensures { result ≡ is_of shape.now node }
{
    shape
        .nodes
        .as_slice()
        .iter()
        .any(|active| active.node == node)
}

/// Whether a node is active in an epoch. Cost: one look at each active node of each epoch.
pub fn is_ever_active(epochs: &[Epoch], node: u32) -> bool
    ensures { result ≡ is_ever_active epochs.now node }
{
    epochs.iter().any(|epoch| is_of(&epoch.shape, node))
}

// The last epoch, if there is one.
fn last_epoch(epochs: &[Epoch]) -> Option<&Epoch>
    ensures { option_copied result ≡ last_epoch epochs.now }
{
    epochs.last()
}

// Whether a link was asked for and is not there.
fn is_lost(outcome: LineOutcome) -> bool
    ensures { result ≡ is_lost outcome }
{
    match outcome {
        LineOutcome::NoFormat { .. } | LineOutcome::NoBuffers | LineOutcome::Looped => true,
        LineOutcome::Linked { .. }
        | LineOutcome::Twice
        | LineOutcome::Gone
        | LineOutcome::NotThere => false,
    }
}

fn has_lost(links: &[LinkLine]) -> bool
    ensures { result ≡ has_lost links.now }
{
    links.iter().any(|link| is_lost(link.outcome))
}

fn undrained_said(lines: &[Line]) -> &'static [u8]
    ensures { result.now ≡ undrained_said lines.now }
{
    if has_cycles(lines) {
        b""
    } else {
        b": drain goes on only while an active source has frames left, cycles N in any case"
    }
}

// That there was no cycle.
#[tactic(auto, unfolding(crate::specs::InactiveNodes::cycleless_said))]
fn put_cycleless(text: &mut Text, lines: &[Line]) -> Result<(), Memory>
    ensures { OnOk result (text.new ≡ text.old ++ cycleless_said lines.now) }
{
    put_both(text, b": no cycle was run", undrained_said(lines))
}

/// What is known of `drain`, where there is no `cycles` line.
pub fn drain_part(lines: &[Line]) -> &'static [u8]
    ensures { result.now ≡ drain_part lines.now }
{
    if has_cycles(lines) {
        b""
    } else {
        b"; drain goes on only while an active source has frames left"
    }
}

/// That a node was in no cycle since it got its format, and these words on `drain`.
#[tactic(auto, unfolding(crate::specs::InactiveNodes::inactive_said))]
pub fn put_inactive(text: &mut Text, drain: &[u8]) -> Result<(), Memory>
    ensures { OnOk result (text.new ≡ text.old ++ inactive_said drain.now) }
{
    put_both(
        text,
        b": it was active in no cycle since it got its format",
        drain,
    )
}

// Which node drove the last cycle, without the node that is spoken of.
#[tactic(auto, unfolding(crate::specs::InactiveNodes::driver_said))]
fn put_driver(text: &mut Text, names: &[Text], driver: u32) -> Result<(), Memory>
    ensures { OnOk result (text.new ≡ text.old ++ driver_said names.now driver) }
{
    put_node_between(
        text,
        b"; in the last cycle ",
        names,
        driver,
        b" drove, and no links of nodes that were on joined the two",
    )
}

// Why a node was not in the last cycle; nothing where it was.
fn put_left(text: &mut Text, names: &[Text], shape: &Shape, node: u32) -> Result<(), Memory>
    ensures { OnOk result (text.new ≡ text.old ++ left_part names.now shape.now node) }
{
    if is_of(shape, node) {
        Ok(())
    } else if shape.driver == DUMMY {
        text.extend(b"; in the last cycle it had no link whose nodes were both on")
    } else {
        put_driver(text, names, shape.driver)
    }
}

// What is known of `groups`, where another node drove the last cycle.
fn groups_part(shape: &Shape, node: u32) -> &'static [u8]
    ensures { result.now ≡ groups_part shape.now node }
{
    if is_of(shape, node) || shape.driver == DUMMY {
        b""
    } else {
        b"; where no line links the two, groups gives each a driver"
    }
}

// What may help: these words where all links were made.
fn put_help(text: &mut Text, links: &[LinkLine], groups: &[u8]) -> Result<(), Memory>
    ensures { OnOk result (text.new ≡ text.old ++ help_part links.now groups.now) }
{
    if has_lost(links) {
        text.extend(b"; not every link of the script was made")
    } else {
        text.extend(groups)
    }
}

// The same, by the last epoch, if there is one.
fn put_last_cause(
    text: &mut Text,
    names: &[Text],
    lines: &[Line],
    links: &[LinkLine],
    node: u32,
    last: Option<&Epoch>,
) -> Result<(), Memory>
    ensures { OnOk result (text.new ≡ text.old
        ++ run_cause names.now lines.now links.now node (option_copied last.entry)) }
{
    match last {
        None => {
            put_cycleless(text, lines)?;
            put_help(text, links, b"")
        }
        Some(epoch) => {
            put_inactive(text, drain_part(lines))?;
            put_left(text, names, &epoch.shape, node)?;
            put_help(text, links, groups_part(&epoch.shape, node))
        }
    }
}

/// Why a node got no frames in a run, by the names of the nodes, the lines of the script, what its
/// links became, and the epochs.
pub fn put_run_cause(
    text: &mut Text,
    names: &[Text],
    lines: &[Line],
    links: &[LinkLine],
    node: u32,
    epochs: &[Epoch],
) -> Result<(), Memory>
    ensures { OnOk result (text.new ≡ text.old
        ++ run_cause names.now lines.now links.now node (last_epoch epochs.now)) }
{
    put_last_cause(text, names, lines, links, node, last_epoch(epochs))
}
